//! Events, and why a file of them is refused.

use line_grammar::LineFault;
use text_lists::{Limit, Text, Texts};

/// What an editor does. A row's version, as its editor saw it, is `seen`.
#[derive(Drop)]
pub enum Act {
    /// Adds a row.
    Insert {
        table: Text,
        values: Texts,
    },
    /// Gives a row another text.
    Set {
        table: Text,
        row: u64,
        seen: u64,
        attr: Text,
        value: Text,
    },
    /// Removes a row.
    Delete {
        table: Text,
        row: u64,
        seen: u64,
    },
    /// Takes back the last change of the editor's own that still stands.
    TakeBack,
    /// Asks for the version and the texts of a row.
    Look {
        table: Text,
        row: u64,
    },
    /// Every violation that the rows have now.
    List,
}

/// One line of a file of events: what the named editor does.
#[derive(Drop)]
pub struct Event {
    pub editor: Text,
    pub act: Act,
}

/// What is wrong with a line of a file of events.
#[derive(Clone, Copy, PartialEq, Eq)]
pub enum EventCause {
    NotUtf8,
    BadLine,
    TooMany(Limit),
}

/// Why a file of events is refused.
pub type EventFault = LineFault<EventCause>;
