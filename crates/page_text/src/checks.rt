//! What `check` finds.
ghost use Rattle.std.specs.Prelude.{◌≡◌, ◌++◌, OnOk};
ghost use Rattle.page_text.specs.Checks.{checks_text, found_items, found_list, line_item, line_items};

use crate::markup::{Piece, push, push_more_in};
use html_text::{front_of, push_escaped_bytes};
use std::alloc::AllocError;
use text_lists::List;

/// Tells the lines of what `check` finds, or that it finds nothing.
pub fn push_checks(out: &mut Vec<u8>, found: &[List<u8>], first: usize) -> Result<(), AllocError>
    ensures { OnOk result (out.new.items ≡ out.old.items ++ checks_text first found.now) }
{
    push(out, Piece::Checks)?;
    push_found(out, found, first)?;
    Ok(())
}

fn push_found(out: &mut Vec<u8>, found: &[List<u8>], first: usize) -> Result<(), AllocError>
    ensures { OnOk result (out.new.items ≡ out.old.items ++ found_list first found.now) }
{
    if found.is_empty() {
        return push(out, Piece::NoChecks);
    }
    push(out, Piece::ChecksOpen)?;
    push_items(out, found, first)?;
    push(out, Piece::ChecksClose)?;
    Ok(())
}

fn push_items(out: &mut Vec<u8>, found: &[List<u8>], first: usize) -> Result<(), AllocError>
    ensures { OnOk result (out.new.items ≡ out.old.items ++ found_items first found.now) }
{
    push_lines(out, front_of(found, first))?;
    push_more_in(out, Piece::Item, first, found.len(), Piece::ItemEnd)?;
    Ok(())
}

fn push_lines(out: &mut Vec<u8>, lines: &[List<u8>]) -> Result<(), AllocError>
    ensures { OnOk result (out.new.items ≡ out.old.items ++ line_items lines.now) }
{
    for line in lines {
        push_line(out, line.as_slice())?;
    }
    Ok(())
}

fn push_line(out: &mut Vec<u8>, line: &[u8]) -> Result<(), AllocError>
    ensures { OnOk result (out.new.items ≡ out.old.items ++ line_item line.now) }
{
    push(out, Piece::Item)?;
    push_escaped_bytes(out, line)?;
    push(out, Piece::ItemEnd)?;
    Ok(())
}
