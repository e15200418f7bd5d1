//! Rules that are checked against a schema. A declaration, as it is written in a rule file, joins a rule
//! book only if it has no fault over the schema and the declarations before it; the book holds beside it
//! the rules that it stands for, with numbers in place of names.
#![tactic(auto)]

pub mod book;
mod cells;
mod checks;
pub mod cind;
pub mod counts;
pub mod decl;
pub mod dep;
pub mod edit_rule;
pub mod fault;
mod judge;
mod lookup;
mod names;
mod numbering;
pub mod rules;
mod sets;
pub mod shown;

pub use book::RuleBook;
pub use cind::{Cind, CindRow};
pub use decl::{Cell, CfdDecl, CfdRow, CindDecl, Decl, EditDecl};
pub use dep::{Dep, DepRow};
pub use edit_rule::{EditCell, EditRule};
pub use fault::{AddFault, RuleFault};
pub use judge::judge_dep;
pub use shown::{CfdTests, CindTests, HeldRows, TestsRows};
