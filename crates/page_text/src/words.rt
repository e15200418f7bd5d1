//! What a rule asks, in the words of rule files.
ghost use Rattle.std.specs.Prelude.{◌≡◌, ◌++◌, OnOk, slice_get};
ghost use Rattle.std.specs.List.{flat_map};
ghost use Rattle.std.specs.Option.{option_copied};
ghost use Rattle.html_text.specs.Elements.{bold, marked};
ghost use Rattle.page_text.specs.Markup.{markup};
ghost use Rattle.page_text.specs.Words.{attr_code, attr_codes, cind_words, dep_words, dep_words_of, line_name, side_of, side_words, wanted, wanted_of};

use crate::markup::{Piece, markup, push};
use cfd_semantics::Pattern;
use html_text::{item, push_between, push_bold, push_code, push_marked, push_size};
use rule_model::{Cind, Dep, DepRow};
use schema_core::{Attr, Table};
use std::alloc::AllocError;
use text_lists::Text;
use violation_groups::sum_of;

pub fn push_attr(out: &mut Vec<u8>, attrs: &[Attr], place: usize) -> Result<(), AllocError>
    ensures { OnOk result (out.new.items ≡ out.old.items ++ attr_code (slice_get attrs.now place)) }
{
    push_name(out, item(attrs, place))
}

fn push_name(out: &mut Vec<u8>, attr: Option<&Attr>) -> Result<(), AllocError>
    ensures { OnOk result (out.new.items ≡ out.old.items ++ attr_code (option_copied attr.entry)) }
{
    match attr {
        Some(attr) => push_code(out, &attr.name),
        None => Ok(()),
    }
}

pub fn push_attrs(out: &mut Vec<u8>, attrs: &[Attr], places: &[usize]) -> Result<(), AllocError>
    ensures { OnOk result (out.new.items ≡ out.old.items ++ attr_codes attrs.now places.now) }
{
    for place in places {
        push_attr(out, attrs, *place)?;
    }
    Ok(())
}

/// Tells the table of a dependency, and its attributes on both sides.
pub fn push_dep_words(out: &mut Vec<u8>, tables: &[Table], dep: &Dep) -> Result<(), AllocError>
    ensures { OnOk result (out.new.items ≡ out.old.items ++ dep_words tables.now dep.now) }
{
    push_dep_of(out, item(tables, dep.table), dep)
}

fn push_dep_of(out: &mut Vec<u8>, table: Option<&Table>, dep: &Dep) -> Result<(), AllocError>
    ensures { OnOk result (out.new.items ≡ out.old.items ++ dep_words_of (option_copied table.entry) dep.now) }
{
    match table {
        Some(table) => push_sides(out, table, dep),
        None => Ok(()),
    }
}

fn push_sides(out: &mut Vec<u8>, table: &Table, dep: &Dep) -> Result<(), AllocError>
    ensures { OnOk result (out.new.items ≡ out.old.items ++ dep_words_of (Some table.now) dep.now) }
{
    let attrs = table.attrs.as_slice();
    push_code(out, &table.name)?;
    push(out, Piece::Colon)?;
    push_attrs(out, attrs, dep.rule.x.as_slice())?;
    push(out, Piece::Arrow)?;
    push_attr(out, attrs, dep.rule.a)?;
    Ok(())
}

/// Tells the tables of an inclusion, and the attributes of each.
pub fn push_cind_words(out: &mut Vec<u8>, tables: &[Table], cind: &Cind) -> Result<(), AllocError>
    ensures { OnOk result (out.new.items ≡ out.old.items ++ cind_words tables.now cind.now) }
{
    let rule = &cind.rule;
    push_side_of(
        out,
        item(tables, cind.left),
        rule.x.as_slice(),
        rule.xp.as_slice(),
    )?;
    push(out, Piece::In)?;
    push_side_of(
        out,
        item(tables, cind.right),
        rule.y.as_slice(),
        rule.yp.as_slice(),
    )?;
    Ok(())
}

fn push_side_of(
    out: &mut Vec<u8>,
    table: Option<&Table>,
    key: &[usize],
    pattern: &[usize],
) -> Result<(), AllocError>
    ensures { OnOk result (out.new.items ≡ out.old.items ++ side_of (option_copied table.entry) key.now pattern.now) }
{
    match table {
        Some(table) => push_side(out, table, key, pattern),
        None => Ok(()),
    }
}

fn push_side(
    out: &mut Vec<u8>,
    table: &Table,
    key: &[usize],
    pattern: &[usize],
) -> Result<(), AllocError>
    ensures { OnOk result (out.new.items ≡ out.old.items ++ side_words table.now key.now pattern.now) }
{
    let attrs = table.attrs.as_slice();
    push_code(out, &table.name)?;
    push(out, Piece::SideOpen)?;
    push_attrs(out, attrs, key)?;
    push(out, Piece::SideMid)?;
    push_attrs(out, attrs, pattern)?;
    push(out, Piece::SideClose)?;
    Ok(())
}

/// Tells a tableau row by the name of its rule and its number, which counts from 1.
#[tactic(auto, unfolding(crate::specs::Words::line_name))]
pub fn push_line_name(out: &mut Vec<u8>, name: &Text, k: usize) -> Result<(), AllocError>
    ensures { OnOk result (out.new.items ≡ out.old.items ++ line_name name.now k) }
{
    let number = sum_of(k, 1)?;
    push_between(out, markup(Piece::Small), name, markup(Piece::Dot))?;
    push_size(out, number)?;
    push(out, Piece::SmallEnd)?;
    Ok(())
}

pub fn push_bolds(out: &mut Vec<u8>, texts: &[Text]) -> Result<(), AllocError>
    ensures { OnOk result (out.new.items ≡ out.old.items ++ flat_map bold texts.now) }
{
    for text in texts {
        push_bold(out, text)?;
    }
    Ok(())
}

pub fn push_marks(out: &mut Vec<u8>, texts: &[Text]) -> Result<(), AllocError>
    ensures { OnOk result (out.new.items ≡ out.old.items ++ flat_map marked texts.now) }
{
    for text in texts {
        push_marked(out, text)?;
    }
    Ok(())
}

/// Tells what a tableau row asks of the value on the right side, where it asks something.
pub fn push_wanted(out: &mut Vec<u8>, rows: &[DepRow], k: usize) -> Result<(), AllocError>
    ensures { OnOk result (out.new.items ≡ out.old.items ++ wanted_of (slice_get rows.now k)) }
{
    push_wanted_of(out, item(rows, k))
}

fn push_wanted_of(out: &mut Vec<u8>, row: Option<&DepRow>) -> Result<(), AllocError>
    ensures { OnOk result (out.new.items ≡ out.old.items ++ wanted_of (option_copied row.entry)) }
{
    match row {
        Some(row) => push_pattern(out, &row.a),
        None => Ok(()),
    }
}

fn push_pattern(out: &mut Vec<u8>, pattern: &Pattern<Text>) -> Result<(), AllocError>
    ensures { OnOk result (out.new.items ≡ out.old.items ++ wanted pattern.now) }
{
    match pattern {
        Pattern::Any => Ok(()),
        Pattern::Is(value) => push_one(out, value),
        Pattern::In(values) => push_among(out, Piece::OneOf, values.as_slice()),
        Pattern::NotIn(values) => push_among(out, Piece::NoneOf, values.as_slice()),
    }
}

fn push_one(out: &mut Vec<u8>, value: &Text) -> Result<(), AllocError>
    ensures { OnOk result (out.new.items ≡ out.old.items ++ (markup Piece.MustBe ++ bold value.now)) }
{
    push(out, Piece::MustBe)?;
    push_bold(out, value)?;
    Ok(())
}

fn push_among(out: &mut Vec<u8>, piece: Piece, values: &[Text]) -> Result<(), AllocError>
    ensures { OnOk result (out.new.items ≡ out.old.items ++ (markup piece ++ flat_map bold values.now)) }
{
    push(out, piece)?;
    push_bolds(out, values)?;
    Ok(())
}
