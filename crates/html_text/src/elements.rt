//! The few elements that pages are made of.
ghost use Rattle.std.specs.Prelude.{◌≡◌, ◌++◌, OnOk, decimal};
ghost use Rattle.html_text.specs.Elements.{between, bold, cell, code, marked, more_in, number_between, number_cell};

use crate::escaping::push_escaped;
use line_grammar::push_number;
use std::alloc::AllocError;
use text_lists::Text;

/// Appends a text from outside between two pieces of markup.
pub fn push_between(
    out: &mut Vec<u8>,
    front: &[u8],
    text: &Text,
    behind: &[u8],
) -> Result<(), AllocError>
    ensures { OnOk result (out.new.items ≡ out.old.items ++ between front.now text.now behind.now) }
{
    out.extend_from_slice(front)?;
    push_escaped(out, text)?;
    out.extend_from_slice(behind)?;
    Ok(())
}

/// Appends a text from outside as code, and a blank.
#[tactic(auto, unfolding(crate::specs::Elements::code))]
pub fn push_code(out: &mut Vec<u8>, text: &Text) -> Result<(), AllocError>
    ensures { OnOk result (out.new.items ≡ out.old.items ++ code text.now) }
{
    push_between(out, b"<code>", text, b"</code> ")
}

/// Appends a text from outside in bold, and a blank.
#[tactic(auto, unfolding(crate::specs::Elements::bold))]
pub fn push_bold(out: &mut Vec<u8>, text: &Text) -> Result<(), AllocError>
    ensures { OnOk result (out.new.items ≡ out.old.items ++ bold text.now) }
{
    push_between(out, b"<b>", text, b"</b> ")
}

/// Appends a text from outside with a mark, and a blank.
#[tactic(auto, unfolding(crate::specs::Elements::marked))]
pub fn push_marked(out: &mut Vec<u8>, text: &Text) -> Result<(), AllocError>
    ensures { OnOk result (out.new.items ≡ out.old.items ++ marked text.now) }
{
    push_between(out, b"<mark>", text, b"</mark> ")
}

/// Appends a text from outside as a cell of a table.
#[tactic(auto, unfolding(crate::specs::Elements::cell))]
pub fn push_cell(out: &mut Vec<u8>, text: &Text) -> Result<(), AllocError>
    ensures { OnOk result (out.new.items ≡ out.old.items ++ cell text.now) }
{
    push_between(out, b"<td>", text, b"</td>")
}

/// Appends a number of things between two pieces of markup.
pub fn push_number_between(
    out: &mut Vec<u8>,
    front: &[u8],
    size: usize,
    behind: &[u8],
) -> Result<(), AllocError>
    ensures { OnOk result (out.new.items ≡ out.old.items ++ number_between front.now size behind.now) }
{
    out.extend_from_slice(front)?;
    push_size(out, size)?;
    out.extend_from_slice(behind)?;
    Ok(())
}

/// Appends a number of things.
pub fn push_size(out: &mut Vec<u8>, size: usize) -> Result<(), AllocError>
    ensures { OnOk result (out.new.items ≡ out.old.items ++ decimal size) }
{
    push_number(out, size as u64)
}

/// Appends a number of things as a cell of a table.
#[tactic(auto, unfolding(crate::specs::Elements::number_cell))]
pub fn push_number_cell(out: &mut Vec<u8>, size: usize) -> Result<(), AllocError>
    ensures { OnOk result (out.new.items ≡ out.old.items ++ number_cell size) }
{
    push_number_between(out, b"<td class=\"n\">", size, b"</td>")
}

/// Tells how many more there are, where the first so many were shown.
#[tactic(auto, unfolding(crate::specs::Elements::more_in))]
pub fn push_more(
    out: &mut Vec<u8>,
    front: &[u8],
    first: usize,
    size: usize,
    behind: &[u8],
) -> Result<(), AllocError>
    ensures { OnOk result (out.new.items ≡ out.old.items ++ more_in front.now first size behind.now) }
{
    if size <= first {
        return Ok(());
    }
    out.extend_from_slice(front)?;
    out.extend_from_slice(b"and ")?;
    push_size(out, size - first)?;
    out.extend_from_slice(b" more")?;
    out.extend_from_slice(behind)?;
    Ok(())
}
