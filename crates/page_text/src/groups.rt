//! The groups of a dependency.
ghost use Rattle.std.specs.Prelude.{◌≡◌, ◌++◌, OnOk};
ghost use Rattle.std.specs.List.{flat_map};
ghost use Rattle.page_text.specs.Groups.{caption, equals_text, group_head, group_text, groups_text, shared_text, value_row, values_rows};

use crate::markup::{Piece, push, push_more_in};
use crate::rows::{Shown, push_rows};
use crate::words::{push_attr, push_attrs, push_bolds, push_line_name, push_wanted};
use html_text::{front_of, push_marked};
use rule_model::Dep;
use schema_core::{Attr, Text};
use std::alloc::AllocError;
use violation_groups::{Group, ValueRows};

pub fn push_groups(
    out: &mut Vec<u8>,
    attrs: &[Attr],
    dep: &Dep,
    shown: Shown,
    groups: &[Group],
) -> Result<(), AllocError>
    ensures { OnOk result (out.new.items ≡ out.old.items ++ groups_text attrs.now dep.now shown groups.now) }
{
    push_each_group(out, attrs, dep, shown, front_of(groups, shown.first))?;
    push_more_in(
        out,
        Piece::MoreGroups,
        shown.first,
        groups.len(),
        Piece::MoreGroupsEnd,
    )?;
    Ok(())
}

fn push_each_group(
    out: &mut Vec<u8>,
    attrs: &[Attr],
    dep: &Dep,
    shown: Shown,
    groups: &[Group],
) -> Result<(), AllocError>
    ensures { OnOk result (out.new.items ≡ out.old.items ++ flat_map (group_text attrs.now dep.now shown) groups.now) }
{
    for group in groups {
        push_group(out, attrs, dep, shown, group)?;
    }
    Ok(())
}

fn push_group(
    out: &mut Vec<u8>,
    attrs: &[Attr],
    dep: &Dep,
    shown: Shown,
    group: &Group,
) -> Result<(), AllocError>
    ensures { OnOk result (out.new.items ≡ out.old.items ++ group_text attrs.now dep.now shown group.now) }
{
    push_group_head(out, attrs, dep, group)?;
    push_values(out, shown, group.values.as_slice())?;
    push(out, Piece::TableEnd)?;
    Ok(())
}

#[tactic(auto, unfolding(crate::specs::Groups::group_head))]
fn push_group_head(
    out: &mut Vec<u8>,
    attrs: &[Attr],
    dep: &Dep,
    group: &Group,
) -> Result<(), AllocError>
    ensures { OnOk result (out.new.items ≡ out.old.items ++ group_head attrs.now dep.now group.now) }
{
    push(out, Piece::GroupTable)?;
    push_caption(out, attrs, dep, group)?;
    push(out, Piece::CaptionEnd)?;
    push_attr(out, attrs, dep.rule.a)?;
    push(out, Piece::Columns)?;
    Ok(())
}

// What the rows of the group share.
#[tactic(auto, unfolding(crate::specs::Groups::caption))]
fn push_caption(
    out: &mut Vec<u8>,
    attrs: &[Attr],
    dep: &Dep,
    group: &Group,
) -> Result<(), AllocError>
    ensures { OnOk result (out.new.items ≡ out.old.items ++ caption attrs.now dep.now group.now) }
{
    push_line_name(out, &dep.name, group.k)?;
    push_shared(out, attrs, dep.rule.x.as_slice(), group.key.as_slice())?;
    push_wanted(out, dep.rule.rows.as_slice(), group.k)?;
    Ok(())
}

fn push_shared(
    out: &mut Vec<u8>,
    attrs: &[Attr],
    places: &[usize],
    values: &[Text],
) -> Result<(), AllocError>
    ensures { OnOk result (out.new.items ≡ out.old.items ++ shared_text attrs.now places.now values.now) }
{
    if places.is_empty() {
        push(out, Piece::AnyValues)
    } else {
        push_equals(out, attrs, places, values)
    }
}

/// Tells attributes with their values.
pub fn push_equals(
    out: &mut Vec<u8>,
    attrs: &[Attr],
    places: &[usize],
    values: &[Text],
) -> Result<(), AllocError>
    ensures { OnOk result (out.new.items ≡ out.old.items ++ equals_text attrs.now places.now values.now) }
{
    push_attrs(out, attrs, places)?;
    push(out, Piece::Equals)?;
    push_bolds(out, values)
}

#[tactic(auto, unfolding(crate::specs::Groups::values_rows))]
fn push_values(out: &mut Vec<u8>, shown: Shown, values: &[ValueRows]) -> Result<(), AllocError>
    ensures { OnOk result (out.new.items ≡ out.old.items ++ values_rows shown values.now) }
{
    push_each_value(out, shown, front_of(values, shown.first))?;
    push_more_in(
        out,
        Piece::WideCell,
        shown.first,
        values.len(),
        Piece::LastCellEnd,
    )?;
    Ok(())
}

fn push_each_value(out: &mut Vec<u8>, shown: Shown, values: &[ValueRows]) -> Result<(), AllocError>
    ensures { OnOk result (out.new.items ≡ out.old.items ++ flat_map (value_row shown) values.now) }
{
    for value in values {
        push_value(out, shown, value)?;
    }
    Ok(())
}

fn push_value(out: &mut Vec<u8>, shown: Shown, value: &ValueRows) -> Result<(), AllocError>
    ensures { OnOk result (out.new.items ≡ out.old.items ++ value_row shown value.now) }
{
    push(out, Piece::FirstCell)?;
    push_marked(out, &value.value)?;
    push(out, Piece::CellEnd)?;
    push_rows(out, shown, value.rows.as_slice())?;
    Ok(())
}
