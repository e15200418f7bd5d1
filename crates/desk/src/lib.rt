//! A desk's events and their answers: the text of each reply, and the replies of a list of events, which is a
//! transcript of them over the desk as its state.
#![tactic(auto)]

pub mod reply;
pub mod serving;

pub use desk_events::{Act, Event, EventCause, EventFault, parse_events};
pub use desk_state::{Desk, Reply};
pub use serving::{DeskFault, serve_desk};
