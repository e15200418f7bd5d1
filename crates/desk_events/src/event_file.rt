//! Files of events. Each line is read by one rule, and its texts are moved from the tokens to the event.

ghost use Rattle.std.specs.Prelude.{⊤, ◌≤◌, length, IfOk};
ghost use Rattle.line_grammar.specs.Faults.{IsUnlessMemory, line_tells};
ghost use Rattle.line_grammar.specs.Phrases.{Reads};
ghost use Rattle.text_lists.specs.declared.limits.Limits.{Limits as AllLimits};
ghost use Rattle.desk_events.specs.EventFiles.{id_at, row_at, insert_at, set_at, delete_at, look_at, act_for, act_at, event_at, event_causes, with_line, events_of};
ghost use Rattle.desk_events.specs.declared.event.Event.{Event as AnyEvent};

use crate::event::{Act, Event, EventCause, EventFault};
use line_grammar::{Gather, Line, LineCause, Phrase, Quoted, Tokens, Unread, read_lines};
use std::alloc::Global;
use text_lists::{Limit, Limits, List, Text};

impl LineCause for EventCause {
    ghost causes = { event_causes };

    fn not_utf8() -> EventCause {
        EventCause::NotUtf8
    }

    fn bad_line() -> EventCause {
        EventCause::BadLine
    }
}

/// The editor, and then the act.
struct EventLine;

fn id_at(tokens: &mut Tokens<'_>) -> Result<u64, Unread>
    ensures { Reads id_at tokens.old tokens.new result }
{
    let id = tokens.number()?;
    if id == 0 {
        return Err(Unread::Absent);
    }
    Ok(id)
}

/// A table and the id of a row.
fn row_at(tokens: &mut Tokens<'_>) -> Result<(Text, u64), Unread>
    ensures { Reads row_at tokens.old tokens.new result }
{
    let table = tokens.name()?;
    let id = id_at(tokens)?;
    Ok((table, id))
}

/// A table and the texts of a row.
fn insert_at(alloc: Global, tokens: &mut Tokens<'_>) -> Result<Act, Unread>
    ensures { Reads insert_at tokens.old tokens.new result }
{
    let table = tokens.name()?;
    let values = tokens.list1::<Quoted>(alloc)?;
    Ok(Act::Insert { table, values })
}

/// A row with its version, an attribute and its text.
fn set_at(tokens: &mut Tokens<'_>) -> Result<Act, Unread>
    ensures { Reads set_at tokens.old tokens.new result }
{
    let (table, row) = row_at(tokens)?;
    let seen = tokens.number()?;
    let attr = tokens.name()?;
    let value = tokens.text()?;
    Ok(Act::Set {
        table,
        row,
        seen,
        attr,
        value,
    })
}

/// A row with its version.
fn delete_at(tokens: &mut Tokens<'_>) -> Result<Act, Unread>
    ensures { Reads delete_at tokens.old tokens.new result }
{
    let (table, row) = row_at(tokens)?;
    let seen = tokens.number()?;
    Ok(Act::Delete { table, row, seen })
}

fn look_at(tokens: &mut Tokens<'_>) -> Result<Act, Unread>
    ensures { Reads look_at tokens.old tokens.new result }
{
    let (table, row) = row_at(tokens)?;
    Ok(Act::Look { table, row })
}

#[tactic(auto, unfolding(crate::specs::EventFiles::act_for))]
fn act_for(alloc: Global, word: &Text, tokens: &mut Tokens<'_>) -> Result<Act, Unread>
    ensures { Reads (act_for word.now) tokens.old tokens.new result }
{
    if word.is("insert") {
        insert_at(alloc, tokens)
    } else if word.is("set") {
        set_at(tokens)
    } else if word.is("delete") {
        delete_at(tokens)
    } else if word.is("back") {
        Ok(Act::TakeBack)
    } else if word.is("look") {
        look_at(tokens)
    } else if word.is("list") {
        Ok(Act::List)
    } else {
        Err(Unread::Absent)
    }
}

/// An act by its first word.
#[tactic(auto, unfolding(crate::specs::EventFiles::act_at))]
fn act_at(alloc: Global, tokens: &mut Tokens<'_>) -> Result<Act, Unread>
    ensures { Reads act_at tokens.old tokens.new result }
{
    let word = tokens.name()?;
    act_for(alloc, &word, tokens)
}

impl Phrase for EventLine {
    type Value = Event;

    ghost reads = { event_at };

    ghost is_fit = { λ _. ⊤ };

    #[tactic(auto, unfolding(crate::specs::EventFiles::event_at))]
    fn take(alloc: Global, tokens: &mut Tokens<'_>) -> Result<Event, Unread> {
        tokens.word("by")?;
        let editor = tokens.name()?;
        let act = act_at(alloc, tokens)?;
        Ok(Event { editor, act })
    }
}

/// The events of the lines so far.
#[derive(Drop)]
struct Events {
    limits: Limits,
    events: List<Event>,
}

impl<'a> Gather<Line<'a>> for Events {
    type Cause = EventCause;

    ghost use Rattle.std.specs.Prelude.{List, ◌≤◌, length};

    ghost Gathered = { List AnyEvent };

    ghost Made = { AllLimits };

    ghost gathered = { λ all. all.events };

    ghost made = { λ all. all.limits };

    ghost with_item = { with_line };

    ghost is_fit = { λ limits events. length events ≤ limits.commands };

    #[tactic(auto, unfolding(crate::specs::EventFiles::with_line))]
    fn add(&mut self, alloc: Global, line: Line<'a>) -> Result<(), EventFault> {
        let number = line.number;
        let event = line.read::<EventLine, EventCause>(alloc)?;
        if self.events.as_slice().len() as u64 >= self.limits.commands {
            return Err(EventFault::At {
                line: number,
                cause: EventCause::TooMany(Limit::Commands),
            });
        }
        self.events.push(event)?;
        Ok(())
    }
}

/// The events that a file spells, one a line, or the first faulty line, counted from 1, with its cause.
#[tactic(auto, unfolding(crate::specs::EventFiles::events_of))]
pub fn parse_events(alloc: Global, bytes: &[u8], limits: &Limits) -> Result<List<Event>, EventFault>
    ensures exact { IsUnlessMemory line_tells (events_of limits.now bytes.now) result }
    ensures count { IfOk result (λ events. length events ≤ limits.now.commands) }
{
    let mut all = Events {
        limits: *limits,
        events: List::new(alloc),
    };
    read_lines(alloc, &mut all, bytes)?;
    Ok(all.events)
}
