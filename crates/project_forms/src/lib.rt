//! The forms that answer a whole project: `run`, `report` and `desk`, and `generate`, whose project is drawn. Each
//! writes what its task allows (`specs/`), and ends with a status.
#![tactic(auto)]

mod desk_form;
mod generate_form;
mod report_form;
mod run_form;

pub use desk_form::desk_project;
pub use generate_form::generate_project;
pub use report_form::report_project;
pub use run_form::run_project;
