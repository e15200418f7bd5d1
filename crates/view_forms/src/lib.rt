//! The forms `list` and `row` of `cfdview`: the violations of a project in groups, and one row with those in which it
//! stands. What each shows is what its task allows (`specs/`).
#![tactic(auto)]

mod list_form;
mod row_form;
mod told;

pub use list_form::ListForm;
pub use row_form::RowForm;
