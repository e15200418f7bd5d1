//! The forms of the lines of schemas, rule files and scripts: what each is made of, how far a line goes along with its
//! form, and the mark below the first token with which no such line goes on.
#![tactic(auto)]

mod fit;
mod form;
mod going;
mod items;
mod marks;
mod pieces;
mod place;
mod told;

pub use fit::{Fit, fit_at};
pub use form::Form;
pub use place::{Place, place_at};
pub use told::push_fit;
