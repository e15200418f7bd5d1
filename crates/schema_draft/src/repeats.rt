//! Texts that stand twice in a column.

ghost use Rattle.std.specs.Prelude.{◌≡◌, IfOk};
ghost use Rattle.std.specs.Option.{option_copied};
ghost use Rattle.std.specs.Str.{bytes_eq};
ghost use Rattle.text_lists.specs.Repeats.{first_repeated, IsFirstRepeated};

use hash_keys::HashKeys;
use schema_core::Text;
use std::alloc::{AllocError, Global};
use std::collections::HashSet;

/// The first text that stands a second time. Those that came before are kept in a set, hashed with these keys.
pub fn first_repeated<'a>(
    alloc: Global,
    keys: HashKeys,
    texts: &'a [Text],
) -> Result<Option<&'a Text>, AllocError>
    ensures text { IfOk result (λ found. option_copied found ≡ first_repeated bytes_eq texts.now) }
    ensures law { IfOk result (λ found. IsFirstRepeated texts.now (option_copied found)) }
{
    let mut seen = HashSet::with_hasher(alloc, keys);
    for text in texts {
        if !seen.insert(text)? {
            return Ok(Some(text));
        }
    }
    Ok(None)
}
