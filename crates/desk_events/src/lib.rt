//! What the editors of a desk do: the events of one file, one a line, in the order in which they are answered. The
//! grammar is one file of `specs/`, and the code reads a line as the grammar is written.
#![tactic(auto)]

pub mod event;
pub mod event_file;

pub use event::{Act, Event, EventCause, EventFault};
pub use event_file::parse_events;
