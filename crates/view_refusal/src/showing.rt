//! How much of a line or a record is shown.
ghost use Rattle.std.specs.Prelude.{◌≡◌, ◌++◌, OnOk, length, nat_le};
ghost use Rattle.std.specs.Str.{is_utf8};
ghost use Rattle.view_refusal.specs.Showing.{is_short, shown};

use schema_core::push_number;
use std::alloc::AllocError;

const MOST_SHOWN: usize = 4000;

fn is_utf8(text: &[u8]) -> bool
    ensures { result ≡ is_utf8 text.now }
{
    str::from_utf8(text).is_ok()
}

fn fits(text: &[u8]) -> bool
    ensures { result ≡ nat_le (length text.now) 4000 }
{
    text.len() <= MOST_SHOWN
}

/// Whether a text can be looked at: it is UTF-8, and not too long.
pub fn is_short(text: &[u8]) -> bool
    ensures { result ≡ is_short text.now }
{
    fits(text) && is_utf8(text)
}

/// Writes a text, or how many bytes it has where it can't be looked at.
pub fn push_shown(out: &mut Vec<u8>, text: &[u8]) -> Result<(), AllocError>
    ensures { OnOk result (out.new.items ≡ out.old.items ++ shown text.now) }
{
    if is_short(text) {
        return out.extend_from_slice(text);
    }
    out.extend_from_slice(b"(")?;
    push_number(out, text.len() as u64)?;
    out.extend_from_slice(b" bytes)")
}
