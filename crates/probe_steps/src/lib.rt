//! The counter of index probes. It takes no bytes and its calls cost nothing when they run: the count
//! exists in contracts alone, so that a call can promise how often it looks something up.
#![tactic(auto)]

ghost use Rattle.std.specs.Prelude.{◌≡◌, ◌+◌, ◌<◌};

use std::marker::Model;
use std::sync::ledger::{Blank, Book, Ledger, Share};

/// How many probes were made so far, a number in contracts. Only `tick` changes it, and nothing reads it
/// when the program runs.
///
/// `L` is any ledger, and says which counter it is. A call that looks something up takes a
/// `&mut Steps<L>` and ticks it once for each look-up, so its contract can bound their number.
#[derive(Drop)]
pub struct Steps<L: Ledger> {
    book: Book<L>,
    share: Share<L>,
}

impl<L: Ledger> Model for Steps<L> {
    ghost use Rattle.std.specs.Prelude.{ℕ, ◌<◌};

    ghost Value = { ℕ };

    ghost view = { λ steps. steps.book.total };

    ghost invariant = { λ steps. 0 < steps.share.parts };
}

impl<L: Ledger> Steps<L> {
    /// A counter at 0. A function that needs a counter of its own takes the blank ledger under a type
    /// parameter `L: Ledger`, and its caller hands in `Blank::new(1)`, with `Brand` for `L`.
    pub fn open(blank: Blank) -> Steps<L>
        requires name { blank.name ≡ L.name }
        requires parts { blank.parts ≡ L.parts }
        requires some { 0 < blank.parts }
        ensures { result ≡ 0 }
    {
        let (book, share) = blank.open::<L>();
        Steps { book, share }
    }

    /// Counts one probe.
    pub fn tick(&mut self)
        ensures { self.new ≡ self.old + 1 }
    {
        self.book.add(&mut self.share, 1);
    }
}
