//! Fixes: what the editing rules make of a tuple, if some of its attributes are vouched for. The fix is unique
//! where all maximal runs end in one tuple, and else two that don't are shown. A verdict is told over all lists
//! of moves; it is found with one full run, and closures that leave one attribute out.
#![tactic(auto)]

mod fault;
mod fixing;
mod rivals;
mod verdict;
mod vouching;

pub use fault::FixFault;
pub use fixing::fix;
pub use verdict::Verdict;
