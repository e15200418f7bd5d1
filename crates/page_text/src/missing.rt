//! The keys that an inclusion misses.
ghost use Rattle.std.specs.Prelude.{◌≡◌, ◌++◌, OnOk};
ghost use Rattle.std.specs.List.{flat_map};
ghost use Rattle.std.specs.Option.{option_copied};
ghost use Rattle.page_text.specs.Groups.{chosen_by, missing_row, missing_rows, missing_table};

use crate::groups::push_equals;
use crate::markup::{Piece, push, push_more_in};
use crate::rows::{Shown, push_rows};
use crate::words::{push_attrs, push_line_name, push_marks};
use cfd_semantics::InclusionRow;
use html_text::{front_of, item};
use rule_model::Cind;
use schema_core::{Attr, Text};
use std::alloc::AllocError;
use violation_groups::Missing;

pub fn push_missing_table(
    out: &mut Vec<u8>,
    attrs: &[Attr],
    cind: &Cind,
    shown: Shown,
    all: &[Missing],
) -> Result<(), AllocError>
    ensures { OnOk result (out.new.items ≡ out.old.items ++ missing_table attrs.now cind.now shown all.now) }
{
    push(out, Piece::MissingTable)?;
    push_attrs(out, attrs, cind.rule.x.as_slice())?;
    push(out, Piece::Columns)?;
    push_missing_rows(out, attrs, cind, shown, all)?;
    push(out, Piece::TableEnd)?;
    Ok(())
}

#[tactic(auto, unfolding(crate::specs::Groups::missing_rows))]
fn push_missing_rows(
    out: &mut Vec<u8>,
    attrs: &[Attr],
    cind: &Cind,
    shown: Shown,
    all: &[Missing],
) -> Result<(), AllocError>
    ensures { OnOk result (out.new.items ≡ out.old.items ++ missing_rows attrs.now cind.now shown all.now) }
{
    push_each_missing(out, attrs, cind, shown, front_of(all, shown.first))?;
    push_more_in(
        out,
        Piece::WideCell,
        shown.first,
        all.len(),
        Piece::LastCellEnd,
    )?;
    Ok(())
}

fn push_each_missing(
    out: &mut Vec<u8>,
    attrs: &[Attr],
    cind: &Cind,
    shown: Shown,
    all: &[Missing],
) -> Result<(), AllocError>
    ensures { OnOk result (out.new.items ≡ out.old.items ++ flat_map (missing_row attrs.now cind.now shown) all.now) }
{
    for missing in all {
        push_missing(out, attrs, cind, shown, missing)?;
    }
    Ok(())
}

fn push_missing(
    out: &mut Vec<u8>,
    attrs: &[Attr],
    cind: &Cind,
    shown: Shown,
    missing: &Missing,
) -> Result<(), AllocError>
    ensures { OnOk result (out.new.items ≡ out.old.items ++ missing_row attrs.now cind.now shown missing.now) }
{
    push(out, Piece::FirstCell)?;
    push_line_name(out, &cind.name, missing.k)?;
    push_marks(out, missing.key.as_slice())?;
    let row = item(cind.rule.rows.as_slice(), missing.k);
    push_chosen(out, attrs, cind.rule.xp.as_slice(), row)?;
    push(out, Piece::CellEnd)?;
    push_rows(out, shown, missing.rows.as_slice())?;
    Ok(())
}

// The constants by which the tableau row chooses its rows.
fn push_chosen(
    out: &mut Vec<u8>,
    attrs: &[Attr],
    places: &[usize],
    row: Option<&InclusionRow<Text>>,
) -> Result<(), AllocError>
    ensures { OnOk result (out.new.items ≡ out.old.items ++ chosen_by attrs.now places.now (option_copied row.entry)) }
{
    let Some(row) = row else {
        return Ok(());
    };
    if places.is_empty() {
        return Ok(());
    }
    push(out, Piece::Where)?;
    push_equals(out, attrs, places, row.xp.as_slice())
}
