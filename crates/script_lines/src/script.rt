//! Script files. Each line is read by one rule, and its texts are moved from the tokens to the command.

ghost use Rattle.std.specs.Prelude.{⊤, ◌≡◌, ◌≤◌, length, IfOk};
ghost use Rattle.line_grammar.specs.Faults.{IsUnlessMemory, line_tells};
ghost use Rattle.line_grammar.specs.Phrases.{Reads};
ghost use Rattle.text_lists.specs.declared.limits.Limits.{Limits as AllLimits};
ghost use Rattle.script_lines.specs.Scripts.{id_at, row_at, insert_at, set_at, delete_at, fix_at, explain_at, export_at, question_for, command_for, command_at, script_causes, with_line, script_of};
ghost use Rattle.script_lines.specs.declared.command.Command.{Command as AnyCommand};

use crate::command::{Command, ScriptCause, ScriptFault};
use edit_log::Edit;
use row_store::RowId;
use schema_core::{
    Gather, Limit, Limits, Line, LineCause, List, Mark, Name, Phrase, Quoted, Text, Tokens, Unread,
    read_lines,
};
use std::alloc::Global;

impl LineCause for ScriptCause {
    ghost causes = { script_causes };

    fn not_utf8() -> ScriptCause {
        ScriptCause::NotUtf8
    }

    fn bad_line() -> ScriptCause {
        ScriptCause::BadLine
    }
}

/// A command by its first word.
struct CommandLine;

fn id_at(tokens: &mut Tokens<'_>) -> Result<RowId, Unread>
    ensures { Reads id_at tokens.old tokens.new result }
{
    let id = tokens.number()?;
    if id == 0 {
        return Err(Unread::Absent);
    }
    Ok(id)
}

/// A table and the id of a row.
fn row_at(tokens: &mut Tokens<'_>) -> Result<(Text, RowId), Unread>
    ensures { Reads row_at tokens.old tokens.new result }
{
    let table = tokens.name()?;
    let id = id_at(tokens)?;
    Ok((table, id))
}

/// A table and the texts of a row.
fn insert_at(alloc: Global, tokens: &mut Tokens<'_>) -> Result<Command, Unread>
    ensures { Reads insert_at tokens.old tokens.new result }
{
    let table = tokens.name()?;
    let values = tokens.list1::<Quoted>(alloc)?;
    Ok(Command::Edit(Edit::Insert { table, values }))
}

/// A row, an attribute and its text.
fn set_at(tokens: &mut Tokens<'_>) -> Result<Command, Unread>
    ensures { Reads set_at tokens.old tokens.new result }
{
    let (table, row) = row_at(tokens)?;
    let attr = tokens.name()?;
    let value = tokens.text()?;
    Ok(Command::Edit(Edit::Set {
        table,
        row,
        attr,
        value,
    }))
}

fn delete_at(tokens: &mut Tokens<'_>) -> Result<Command, Unread>
    ensures { Reads delete_at tokens.old tokens.new result }
{
    let (table, row) = row_at(tokens)?;
    Ok(Command::Edit(Edit::Delete { table, row }))
}

/// A row, and the attributes that are vouched for.
fn fix_at(alloc: Global, tokens: &mut Tokens<'_>) -> Result<Command, Unread>
    ensures { Reads fix_at tokens.old tokens.new result }
{
    let (table, row) = row_at(tokens)?;
    tokens.mark(Mark::OpenBracket)?;
    let vouched = tokens.list_until::<Name>(alloc, Mark::CloseBracket)?;
    Ok(Command::Fix {
        table,
        row,
        vouched,
    })
}

fn explain_at(tokens: &mut Tokens<'_>) -> Result<Command, Unread>
    ensures { Reads explain_at tokens.old tokens.new result }
{
    let (table, row) = row_at(tokens)?;
    Ok(Command::Explain { table, row })
}

fn export_at(tokens: &mut Tokens<'_>) -> Result<Command, Unread>
    ensures { Reads export_at tokens.old tokens.new result }
{
    let table = tokens.name()?;
    Ok(Command::Export { table })
}

#[tactic(auto, unfolding(crate::specs::Scripts::question_for))]
fn question_for(word: &Text, tokens: &mut Tokens<'_>) -> Result<Command, Unread>
    ensures { Reads (question_for word.now) tokens.old tokens.new result }
{
    if word.is("list") {
        Ok(Command::List)
    } else if word.is("count") {
        Ok(Command::Count)
    } else if word.is("explain") {
        explain_at(tokens)
    } else if word.is("export") {
        export_at(tokens)
    } else {
        Err(Unread::Absent)
    }
}

#[tactic(auto, unfolding(crate::specs::Scripts::command_for))]
fn command_for(alloc: Global, word: &Text, tokens: &mut Tokens<'_>) -> Result<Command, Unread>
    ensures { Reads (command_for word.now) tokens.old tokens.new result }
{
    if word.is("insert") {
        insert_at(alloc, tokens)
    } else if word.is("set") {
        set_at(tokens)
    } else if word.is("delete") {
        delete_at(tokens)
    } else if word.is("fix") {
        fix_at(alloc, tokens)
    } else if word.is("undo") {
        Ok(Command::Undo)
    } else if word.is("redo") {
        Ok(Command::Redo)
    } else {
        question_for(word, tokens)
    }
}

impl Phrase for CommandLine {
    type Value = Command;

    ghost reads = { command_at };

    ghost is_fit = { λ _. ⊤ };

    #[tactic(auto, unfolding(crate::specs::Scripts::command_at))]
    fn take(alloc: Global, tokens: &mut Tokens<'_>) -> Result<Command, Unread> {
        let word = tokens.name()?;
        command_for(alloc, &word, tokens)
    }
}

/// The commands of the lines so far.
#[derive(Drop)]
struct Commands {
    limits: Limits,
    commands: List<Command>,
}

impl<'a> Gather<Line<'a>> for Commands {
    type Cause = ScriptCause;

    ghost use Rattle.std.specs.Prelude.{List, ◌≤◌, length};

    ghost Gathered = { List AnyCommand };

    ghost Made = { AllLimits };

    ghost gathered = { λ script. script.commands };

    ghost made = { λ script. script.limits };

    ghost with_item = { with_line };

    ghost is_fit = { λ limits commands. length commands ≤ limits.commands };

    #[tactic(auto, unfolding(crate::specs::Scripts::with_line))]
    fn add(&mut self, alloc: Global, line: Line<'a>) -> Result<(), ScriptFault> {
        let number = line.number;
        let command = line.read::<CommandLine, ScriptCause>(alloc)?;
        if self.commands.as_slice().len() as u64 >= self.limits.commands {
            return Err(ScriptFault::At {
                line: number,
                cause: ScriptCause::TooMany(Limit::Commands),
            });
        }
        self.commands.push(command)?;
        Ok(())
    }
}

/// The commands that a script spells, one a line, or the first faulty line, counted from 1, with its cause.
#[tactic(auto, unfolding(crate::specs::Scripts::script_of))]
pub fn parse_script(
    alloc: Global,
    bytes: &[u8],
    limits: &Limits,
) -> Result<List<Command>, ScriptFault>
    ensures exact { IsUnlessMemory line_tells (script_of limits.now bytes.now) result }
    ensures count { IfOk result (λ commands. length commands ≤ limits.now.commands) }
{
    let mut script = Commands {
        limits: *limits,
        commands: List::new(alloc),
    };
    read_lines(alloc, &mut script, bytes)?;
    Ok(script.commands)
}
