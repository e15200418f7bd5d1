//! What most other crates stand on: texts, lists of anything, texts that stand twice in a list, and how much a call
//! accepts.
#![tactic(auto)]

pub mod bounds;
pub mod limits;
pub mod list;
pub mod repeats;
pub mod text;

pub use limits::{Limit, Limits};
pub use list::List;
pub use repeats::first_repeated;
pub use text::{Text, Texts};
