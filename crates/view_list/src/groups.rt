//! Groups whose values stand against each other.

ghost use Rattle.std.specs.Prelude.{◌≡◌, ◌++◌, ◌+◌, IfOk, OnOk};
ghost use Rattle.std.specs.List.{flat_map};
ghost use Rattle.view_list.specs.Groups.{demand_of, group_line, group_text, place_text, value_line};

use crate::attrs::attr_name;
use crate::pieces::{first_of, left_out, push_more, push_rows};
use crate::values::{push_demand, push_value, push_values};
use rule_model::{Dep, DepRow};
use schema_core::{Attr, Text, push_number};
use std::alloc::AllocError;
use violation_groups::{Group, ValueRows};

/// The number of a tableau row. One beyond the last number of its type is told as want of memory.
fn number_of(k: usize) -> Result<u64, AllocError>
    ensures { IfOk result (λ number. number ≡ k + 1) }
{
    match (k as u64).checked_add(1) {
        Some(number) => Ok(number),
        None => Err(AllocError),
    }
}

/// A tableau row of a rule.
pub fn push_place(out: &mut Vec<u8>, name: &Text, k: usize) -> Result<(), AllocError>
    ensures { OnOk result (out.new.items ≡ out.old.items ++ place_text name.now k) }
{
    let number = number_of(k)?;
    out.extend_from_slice(b"  ")?;
    out.extend_from_slice(name.as_str().as_bytes())?;
    out.extend_from_slice(b".")?;
    push_number(out, number)?;
    out.extend_from_slice(b": ")
}

fn push_demand_of(out: &mut Vec<u8>, rows: &[DepRow], k: usize) -> Result<(), AllocError>
    ensures { OnOk result (out.new.items ≡ out.old.items ++ demand_of rows.now k) }
{
    match rows.get(k) {
        Some(row) => push_demand(out, &row.a),
        None => Ok(()),
    }
}

fn push_group_line(
    out: &mut Vec<u8>,
    attrs: &[Attr],
    dep: &Dep,
    group: &Group,
) -> Result<(), AllocError>
    ensures { OnOk result (out.new.items ≡ out.old.items ++ group_line attrs.now dep.now group.now) }
{
    push_place(out, &dep.name, group.k)?;
    push_values(out, attrs, dep.rule.x.as_slice(), group.key.as_slice())?;
    out.extend_from_slice(b": ")?;
    out.extend_from_slice(attr_name(attrs, dep.rule.a).as_bytes())?;
    out.extend_from_slice(b" must be ")?;
    push_demand_of(out, dep.rule.rows.as_slice(), group.k)?;
    out.extend_from_slice(b"\n")
}

fn push_value_line(
    out: &mut Vec<u8>,
    most: Option<u64>,
    read: u64,
    attrs: &[Attr],
    attr: usize,
    value: &ValueRows,
) -> Result<(), AllocError>
    ensures { OnOk result (out.new.items ≡ out.old.items ++ value_line most read attrs.now attr value.now) }
{
    out.extend_from_slice(b"    ")?;
    push_value(out, attrs, attr, &value.value)?;
    out.extend_from_slice(b" ")?;
    push_rows(out, most, read, value.rows.as_slice())?;
    Ok(())
}

fn push_value_lines(
    out: &mut Vec<u8>,
    most: Option<u64>,
    read: u64,
    attrs: &[Attr],
    attr: usize,
    values: &[ValueRows],
) -> Result<(), AllocError>
    ensures { OnOk result (out.new.items ≡ out.old.items ++ flat_map (value_line most read attrs.now attr) values.now) }
{
    for value in values {
        push_value_line(out, most, read, attrs, attr, value)?;
    }
    Ok(())
}

/// A group of a dependency.
pub fn push_group(
    out: &mut Vec<u8>,
    most: Option<u64>,
    read: u64,
    attrs: &[Attr],
    dep: &Dep,
    group: &Group,
) -> Result<(), AllocError>
    ensures { OnOk result (out.new.items ≡ out.old.items ++ group_text most read attrs.now dep.now group.now) }
{
    let values = group.values.as_slice();
    let left = left_out(most, values.len());
    push_group_line(out, attrs, dep, group)?;
    let shown = first_of(values, most);
    push_value_lines(out, most, read, attrs, dep.rule.a, shown)?;
    push_more(out, b"    ", left, b"\n")
}
