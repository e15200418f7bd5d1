//! One vector of changes and a place in it: the past lies before the place, the undone changes from it on.
ghost use Rattle.std.specs.Prelude.{◌≡◌, ◌+◌, ◌-◌, ◌<◌, ◌≤◌, [], ◌∷◌, ◌++◌, OnOk, option_copied};

use crate::change::Change;
use std::alloc::{AllocError, Global};
use std::marker::Model;

/// The changes that were made, and those that were taken back and can be made again. Whoever makes a
/// change calls `ready` while it can still be refused, and `push_ready` once it is made.
#[derive(Drop)]
pub struct Log {
    changes: Vec<Change>,
    place: usize,
}

impl Model for Log {
    ghost use Rattle.std.specs.Prelude.{◌≤◌, ◌-◌, take, drop, vec_len, vec_capacity};
    ghost use Rattle.edit_log.specs.Journal.{Journal};

    ghost Value = { Journal };

    ghost view = { λ s. record { past = take s.place s.changes.items; undone = drop s.place s.changes.items; spare = vec_capacity s.changes - s.place } };

    ghost invariant = { λ s. s.place ≤ vec_len s.changes };
}

impl Log {
    ghost use Rattle.std.specs.Borrow.{sem};
    ghost use Rattle.edit_log.specs.Journal.{last_change, first_change};
    ghost use Rattle.edit_log.specs.Log.{EndsSo, MovesBack, MovesForward};

    pub fn new(alloc: Global) -> Self
        ensures past { result.past ≡ [] }
        ensures undone { result.undone ≡ [] }
    {
        Log {
            changes: Vec::new(alloc),
            place: 0,
        }
    }

    /// Makes room for one change.
    pub fn ready(&mut self) -> Result<(), AllocError>
        ensures ready { OnOk result (0 < self.new.spare) }
        ensures past { self.new.past ≡ self.old.past }
        ensures undone { self.new.undone ≡ self.old.undone }
        ensures room { self.old.spare ≤ self.new.spare }
    {
        self.changes.reserve(1)
    }

    /// Adds a change to the past. What was undone can't be done again.
    pub fn push_ready(&mut self, change: Change)
        requires { 0 < self.old.spare }
        ensures past { self.new.past ≡ self.old.past ++ change ∷ [] }
        ensures undone { self.new.undone ≡ [] }
        ensures spare { self.new.spare + 1 ≡ self.old.spare }
    {
        self.changes.truncate(self.place);
        self.changes.push_reserved(change);
        self.place += 1;
    }

    /// The last past change.
    pub fn last(&self) -> Option<&Change>
        ensures { option_copied result ≡ last_change self.now.past }
    {
        self.changes.get(self.place.checked_sub(1)?)
    }

    /// The change that comes next when one is done again.
    pub fn next(&self) -> Option<&Change>
        ensures { option_copied result ≡ first_change self.now.undone }
    {
        self.changes.get(self.place)
    }

    /// Takes the last past change back: it is the next to be done again. Gives the change.
    pub fn back(&mut self) -> Option<&Change>
        ensures* after { sem 𝓛 (EndsSo self.entry (MovesBack (option_copied result) self.old)) }
        ensures given { option_copied result ≡ last_change self.old.past }
    {
        let before = self.place.checked_sub(1)?;
        self.place = before;
        self.changes.get(before)
    }

    /// Makes the next undone change again: it is the last past one. Gives the change.
    pub fn forward(&mut self) -> Option<&Change>
        ensures* after { sem 𝓛 (EndsSo self.entry (MovesForward (option_copied result) self.old)) }
        ensures given { option_copied result ≡ first_change self.old.undone }
    {
        if self.place == self.changes.len() {
            return None;
        }
        let next = self.place;
        self.place = next + 1;
        self.changes.get(next)
    }
}
