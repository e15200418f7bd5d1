//! A desk: several editors on one bench. Each change names the version of the row that its editor saw, so that nobody's
//! change is lost unseen, and an editor can take back the last change of their own on which nobody built.
#![tactic(auto)]

mod desk;
mod making;
mod reply;

pub use desk::Desk;
pub use reply::Reply;
