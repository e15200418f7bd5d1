//! What a question about the dependencies of a table is made of, whether it is about one tuple or about two: the attributes
//! that occur in them, the values of each that they tell apart, its variables, what clauses say of a tuple, and the tuples
//! that truth values stand for. Both deciders, and the texts of their certificates, share it.
#![tactic(auto)]

mod clause_list;
mod fresh;
mod layout;
mod literals;
mod readings;
mod row_clauses;
mod standing;
mod table_rules;
mod value_list;
mod values;
pub mod which;

pub use clause_list::ClauseList;
pub use layout::{equal_var, value_var, var_cells};
pub use readings::tuple_of;
pub use row_clauses::{alone, no, push_meets_at, push_misses_at, push_misses_left, yes};
pub use table_rules::{Rule, TableRules, attrs_at};
pub use value_list::ValueList;
pub use values::{CellValues, occurring};
pub use which::{TupleCount, Which};
