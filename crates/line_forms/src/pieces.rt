//! The parts that a line is made of behind its first word.

ghost use Rattle.std.specs.Prelude.{◌≡◌};
ghost use Rattle.line_forms.specs.Pieces.{may_lack, word_text};

use line_grammar::Mark;

/// What may stand once, or in a list.
#[derive(Clone, Copy, PartialEq, Eq)]
pub enum Item {
    Name,
    /// A text of at most 1,024 bytes.
    Value,
    /// A text of 1 to 1,024 bytes.
    File,
    /// A text of any length.
    Text,
    /// A number from 1.
    Id,
    /// `_`, a value, `in {..}` or `not {..}`.
    Cell,
    /// NAME=NAME.
    Pair,
    /// NAME=_, NAME=VALUE or NAME!=VALUE.
    Pattern,
    /// What stands behind the name of a pattern.
    Test,
    /// What stands behind its `=`.
    Equal,
    /// A list of pairs that may be empty, the word `gives`, and a pair.
    Columns,
    /// What stands behind `gives` where no pair stood in front of it: that word, or the name of a pair.
    Given,
}

/// A word that has to stand at its place.
#[derive(Clone, Copy, PartialEq, Eq)]
pub enum Word {
    In,
    Using,
    Gives,
}

/// A part of a line.
#[derive(Clone, Copy, PartialEq, Eq)]
pub enum Piece {
    Sign(Mark),
    Word(Word),
    One(Item),
    /// None, or several with `,` between them.
    Any(Item),
    /// Further ones, each behind a `,`.
    More(Item),
    /// Further members of a set that has so many.
    Members(usize),
    /// `in` and values, or nothing.
    Domain,
    /// `when` and patterns, or nothing.
    When,
}

pub fn word_text(word: Word) -> &'static str
    ensures { result.now ≡ word_text word }
{
    match word {
        Word::In => "in",
        Word::Using => "using",
        Word::Gives => "gives",
    }
}

/// Whether a line may do without it.
pub fn may_lack(piece: Piece) -> bool
    ensures { result ≡ may_lack piece }
{
    match piece {
        Piece::Sign(_) | Piece::Word(_) | Piece::One(_) => false,
        Piece::Any(_) | Piece::More(_) | Piece::Members(_) | Piece::Domain | Piece::When => true,
    }
}
