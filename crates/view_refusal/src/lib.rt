//! What people are shown of a file that is refused: the line that tells the refusal, and below it the line or the record
//! that it names, the limit that was passed with how much there is, a mark under what can't stand there, and what may.
#![tactic(auto)]

mod anew;
mod bounds;
mod counted;
mod full;
mod hints;
mod misfits;
mod row_counts;
mod showing;
mod shown;

pub use anew::Anew;
pub use row_counts::push_count;
pub use shown::off_text;
