//! Texts that stand twice in a list.

ghost use Rattle.std.specs.Prelude.{◌≡◌, IfOk};
ghost use Rattle.std.specs.Option.{option_copied};
ghost use Rattle.std.specs.Str.{bytes_eq};
ghost use Rattle.text_lists.specs.Repeats.{first_repeated, IsFirstRepeated};

use crate::text::Text;
use std::alloc::{AllocError, Global};
use std::collections::BTreeSet;

/// The first text that stands a second time. A line may list millions of texts, so those that came before are kept
/// in a set. It is an ordered one: whoever writes the texts could make them collide in one that hashes.
pub fn first_repeated<'a>(alloc: Global, texts: &'a [Text]) -> Result<Option<&'a Text>, AllocError>
    ensures text { IfOk result (λ found. option_copied found ≡ first_repeated bytes_eq texts.now) }
    ensures law { IfOk result (λ found. IsFirstRepeated texts.now (option_copied found)) }
{
    let mut seen = BTreeSet::new(alloc);
    for text in texts {
        if !seen.insert(text.as_str())? {
            return Ok(Some(text));
        }
    }
    Ok(None)
}
