//! The forms that ask about the rules of a project alone: whether the dependencies of a table are consistent, whether they
//! imply one more, whether a certificate holds, and which rules of a table the others imply. The first two answer with a
//! certificate, the third with the verdict on one, the last with the fates of the rules' pieces.
#![tactic(auto)]

pub mod check_form;
pub mod consistent_form;
mod cover_form;
pub mod implies_form;
mod told;

pub use check_form::check_project;
pub use consistent_form::consistent_project;
pub use cover_form::cover_project;
pub use implies_form::implies_project;
