//! A dependency by itself, as on the command line.

ghost use Rattle.std.specs.Prelude.{◌≡◌, ◌∷◌, [], IfOk, length};
ghost use Rattle.line_grammar.specs.Faults.{IsUnlessMemory, line_tells};
ghost use Rattle.line_grammar.specs.FileLines.{content_of};
ghost use Rattle.line_grammar.specs.TokenLists.{none_after};
ghost use Rattle.line_grammar.specs.Tokens.{line_tokens};
ghost use Rattle.rule_model.specs.Judged.{judged_dep};
ghost use Rattle.rule_model.specs.Rules.{IsValidDep};
ghost use Rattle.rule_parser.specs.ReadRules.{IsDepDecl};
ghost use Rattle.rule_parser.specs.RuleLines.{dep_at};
ghost use Rattle.rule_parser.specs.RuleFiles.{reads_dep, read_alone, dep_or_fault};

use crate::cells::CellPart;
use crate::fault::{ParseCause, ParseFault};
use rule_model::{AddFault, CfdDecl, CfdRow, Dep, RuleBook, judge_dep};
use schema_core::{
    Line, LineFault, List, Mark, Name, Phrase, Schema, Text, Tokens, Unread, content_of,
};
use std::alloc::{AllocError, Global};

/// A dependency by itself, as a declaration without a name.
pub struct DepLine;

fn one<T: Drop>(alloc: Global, item: T) -> Result<List<T>, AllocError>
    ensures { IfOk result (λ list. list ≡ item ∷ []) }
{
    let mut list = List::new(alloc);
    list.push(item)?;
    Ok(list)
}

impl Phrase for DepLine {
    type Value = CfdDecl;

    ghost reads = { dep_at };

    ghost is_fit = { IsDepDecl };

    #[tactic(auto, unfolding(crate::specs::RuleLines::dep_at))]
    fn take(alloc: Global, tokens: &mut Tokens<'_>) -> Result<CfdDecl, Unread> {
        let table = tokens.name()?;
        tokens.mark(Mark::Colon)?;
        tokens.mark(Mark::OpenBracket)?;
        let x = tokens.list_until::<Name>(alloc, Mark::CloseBracket)?;
        tokens.mark(Mark::Arrow)?;
        tokens.mark(Mark::OpenBracket)?;
        let y = one(alloc, tokens.name()?)?;
        tokens.mark(Mark::CloseBracket)?;
        tokens.word("row")?;
        let cells = tokens.list_until::<CellPart>(alloc, Mark::Bars)?;
        let cell = CellPart::take(alloc, tokens)?;
        let row = CfdRow {
            x: cells,
            y: one(alloc, cell)?,
        };
        Ok(CfdDecl {
            name: Text::new(alloc, "")?,
            table,
            x,
            y,
            rows: one(alloc, row)?,
        })
    }
}

/// What the text says as one line of a file.
fn declaration(alloc: Global, text: &str) -> Result<CfdDecl, ParseFault>
    ensures exact { IsUnlessMemory line_tells (read_alone (λ tokens. none_after (dep_at tokens)) (content_of (line_tokens text.now))) result }
    ensures fit { IfOk result IsDepDecl }
{
    match content_of(alloc, text.as_bytes()) {
        Some(content) => Line { number: 1, content }.read::<DepLine, ParseCause>(alloc),
        None => Err(LineFault::At {
            line: 1,
            cause: ParseCause::BadLine,
        }),
    }
}

/// The dependency of a declaration, unless it has a fault.
fn judged(alloc: Global, schema: &Schema, cfd: CfdDecl) -> Result<Dep, ParseFault>
    requires { IsDepDecl cfd }
    ensures exact { IsUnlessMemory line_tells (dep_or_fault (judged_dep schema.now cfd)) result }
    ensures valid { IfOk result (IsValidDep schema.now) }
    ensures row { IfOk result (λ dep. length dep.rule.rows ≡ 1) }
{
    match judge_dep(alloc, schema, cfd) {
        Ok(dep) => Ok(dep),
        Err(AddFault::Memory) => Err(LineFault::Memory),
        Err(AddFault::Rule(fault)) => Err(LineFault::At {
            line: 1,
            cause: ParseCause::Rule(fault),
        }),
    }
}

/// The dependency that a text spells over the schema of a book, or its first fault, on line 1. The text is one line
/// without its end, and the dependency has no name and one tableau row.
#[tactic(auto, unfolding(crate::specs::RuleFiles::reads_dep))]
pub fn parse_dep(alloc: Global, book: &RuleBook, text: &str) -> Result<Dep, ParseFault>
    ensures exact { IsUnlessMemory line_tells (reads_dep book.now.schema text.now) result }
    ensures valid { IfOk result (IsValidDep book.now.schema) }
    ensures row { IfOk result (λ dep. length dep.rule.rows ≡ 1) }
{
    let cfd = declaration(alloc, text)?;
    judged(alloc, book.schema(), cfd)
}
