//! What the forms of `cfdview` share that show something of a project: it is fetched, its state after the script or before
//! it is looked at, and what a form shows of it is written.
#![tactic(auto)]

mod form;
mod looking;
mod shown;

pub use form::{ProjectForm, show_project};
pub use looking::{Looked, counts_of, look};
pub use shown::Shown;
