//! Edits as the user asks for them, and the log of the changes that they made, to go back and forward in.
//!
//! An edit names its table and attribute and holds texts, since it comes from a script or an editor and may be refused: what
//! is refused is told by the names that were given. A change has numbers and ids in their place, since it was made, and is
//! gone back and forward over without a look-up.
#![tactic(auto)]

mod change;
mod edit;
mod log;

pub use change::Change;
pub use edit::Edit;
pub use log::Log;
