//! Texts as they stand in a page.
ghost use Rattle.std.specs.Prelude.{◌≡◌, ◌++◌, OnOk};
ghost use Rattle.std.specs.List.{flat_map};
ghost use Rattle.html_text.specs.Escaped.{IsOnlyText, escaped, escaped_byte};

use std::alloc::AllocError;
use text_lists::Text;

/// Appends a text that comes from outside. Where markup is read, what is appended is that text, whatever it holds.
pub fn push_escaped(out: &mut Vec<u8>, text: &Text) -> Result<(), AllocError>
    ensures text { OnOk result (out.new.items ≡ out.old.items ++ escaped text.now) }
    ensures law { IsOnlyText (escaped text.now) }
{
    push_escaped_bytes(out, text.as_str().as_bytes())
}

/// Appends a text that comes from outside, by its bytes.
#[tactic(auto, unfolding(crate::specs::Escaped::escaped))]
pub fn push_escaped_bytes(out: &mut Vec<u8>, bytes: &[u8]) -> Result<(), AllocError>
    ensures text { OnOk result (out.new.items ≡ out.old.items ++ escaped bytes.now) }
    ensures law { IsOnlyText (escaped bytes.now) }
{
    push_bytes(out, bytes)
}

fn push_bytes(out: &mut Vec<u8>, bytes: &[u8]) -> Result<(), AllocError>
    ensures { OnOk result (out.new.items ≡ out.old.items ++ flat_map escaped_byte bytes.now) }
{
    for byte in bytes {
        push_byte(out, *byte)?;
    }
    Ok(())
}

fn push_byte(out: &mut Vec<u8>, byte: u8) -> Result<(), AllocError>
    ensures { OnOk result (out.new.items ≡ out.old.items ++ escaped_byte byte) }
{
    if byte == b'&' {
        out.extend_from_slice(b"&amp;")
    } else if byte == b'<' {
        out.extend_from_slice(b"&lt;")
    } else if byte == b'>' {
        out.extend_from_slice(b"&gt;")
    } else if byte == b'"' {
        out.extend_from_slice(b"&quot;")
    } else if byte == b'\'' {
        out.extend_from_slice(b"&#39;")
    } else {
        out.extend_from_slice(&[byte])
    }
}
