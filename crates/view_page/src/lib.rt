//! The form `page PROJECT` of `cfdview`: what a project holds, as one page of HTML. What it shows is what its task allows
//! (`specs/PageForm.antt`).
#![tactic(auto)]

mod form;
mod found;

pub use form::PageForm;
