//! The causes that lines of every kind of file have.

ghost use Rattle.std.specs.Prelude.{◌≡◌};
ghost use Rattle.line_grammar.specs.Faults.{Causes};

/// What is wrong with a line. `NotUtf8` and `BadLine` are the same in each kind of file.
pub trait LineCause: Drop {
    ghost causes: { Causes Self };

    fn not_utf8() -> Self
        ensures { result ≡ causes.not_utf8 };

    /// The line is not in the grammar of its file at its place.
    fn bad_line() -> Self
        ensures { result ≡ causes.bad_line };
}
