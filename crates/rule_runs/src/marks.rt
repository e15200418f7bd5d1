//! Sets of attributes.

ghost use Rattle.std.specs.Prelude.{◌≡◌, ◌<◌, ◌^◌, ℕ, false};
ghost use Rattle.rule_runs.specs.Marks.{marked, with_attr};

/// A set of attributes. A table has at most 64, and each is a bit.
#[derive(Clone, Copy, PartialEq, Eq)]
pub struct Marks(u64);

impl Marks {
    /// The empty set.
    pub fn none() -> Marks
        ensures { (attr : ℕ) → marked result attr ≡ false }
    {
        Marks(0)
    }

    /// Whether the attribute is in the set.
    pub fn has(self, attr: usize) -> bool
        requires { attr < 64 }
        ensures { result ≡ marked self attr }
    {
        (self.0 >> attr) & 1 == 1
    }

    /// The set with one more attribute.
    pub fn with(self, attr: usize) -> Marks
        requires { attr < 64 }
        ensures set { (other : ℕ) → marked result other ≡ with_attr (marked self) attr other }
        // A set that grows is a greater number, so what grows it comes to an end.
        ensures more { marked self attr ≡ false → self.0 < result.0 }
        ensures most { result.0 < 2 ^ 64 }
    {
        let bits = self.0;
        Marks(bits | (1 << attr))
    }
}
