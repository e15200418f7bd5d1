//! What takes rows one by one.

ghost use Rattle.std.specs.Prelude.{◌≡◌, ◌++◌, [], ◌∷◌, ℕ, List, IfOk, OnOk};
ghost use Rattle.row_takers.specs.Taken.{texts_in};

use std::alloc::{AllocError, Global};
use text_lists::{List, Text, Texts};

/// Takes the rows of a table.
pub trait RowTaker {
    // The rows that it took so far, each a list of texts, and what it holds beside them.
    ghost rows: { Self → List (List (List ℕ)) };

    ghost Beside: { Type 0 };

    ghost beside: { Self → Beside };

    /// So many bytes of a file are about to be read, so room can be made at once.
    fn expect(&mut self, bytes: usize)
        ensures rows { rows self.new ≡ rows self.old }
        ensures beside { beside self.new ≡ beside self.old };

    /// Takes one more row. Where memory is refused, it may hold any rows.
    fn put(&mut self, alloc: Global, row: &[&str]) -> Result<(), AllocError>
        ensures rows { OnOk result (rows self.new ≡ rows self.old ++ texts_in row.now ∷ []) }
        ensures beside { OnOk result (beside self.new ≡ beside self.old) };
}

/// Keeps the texts of the rows.
impl RowTaker for List<Texts> {
    ghost rows = { λ rows. rows };

    ghost Beside = { Unit {0} };

    ghost beside = { λ _. tt };

    fn expect(&mut self, _bytes: usize) {}

    fn put(&mut self, alloc: Global, row: &[&str]) -> Result<(), AllocError> {
        self.push(owned_texts(alloc, row)?)
    }
}

fn owned_texts(alloc: Global, row: &[&str]) -> Result<Texts, AllocError>
    ensures { IfOk result (λ texts. texts ≡ texts_in row.now) }
{
    let mut texts = Vec::with_capacity(alloc, row.len())?;
    for text in row {
        texts.push(Text::new(alloc, text)?)?;
    }
    Ok(List::from(texts))
}
