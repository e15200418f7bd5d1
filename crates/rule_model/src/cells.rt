//! The tests of the cells of a declaration. Each tells the first fault that it finds.

ghost use Rattle.std.specs.Prelude.{◌≡◌, ◌==◌, ◌&&◌, not, find, length};
ghost use Rattle.std.specs.Option.{option_copied};
ghost use Rattle.std.specs.List.{list_all, zip};
ghost use Rattle.schema_core.specs.Schemas.{admits};
ghost use Rattle.text_lists.specs.Firsts.{first_in};
ghost use Rattle.rule_model.specs.Declarations.{constants_of, edit_constants_of};
ghost use Rattle.schema_core.specs.Lookups.{attrs_of, domain_of};
ghost use Rattle.rule_model.specs.Faults.{Finds, is_even, width_mismatch, outside_in, outside_in_cell, outside_constant, outside_in_pattern, outside_in_row, outside_in_inclusion_row, outside_domain, repeated_in_cell, repeated_in_row, repeated_constant};

use crate::cind::CindRow;
use crate::decl::{Cell, CfdDecl, CfdRow, CindDecl, Decl};
use crate::edit_rule::EditCell;
use crate::fault::{AddFault, RuleFault};
use crate::lookup::{admits, attrs_of};
use crate::names::find_repeated;
use cfd_semantics::Pattern;
use schema_core::{Attr, Schema, Text};
use std::slice;

fn rows_are_as_wide(rows: &[CfdRow], x: usize, y: usize) -> bool
    ensures { result ≡ list_all (λ row. length row.x == x && length row.y == y) rows.now }
{
    rows.iter().all(|row| row.x.as_slice().len() == x && row.y.as_slice().len() == y)
}

fn inclusion_rows_are_as_wide(rows: &[CindRow], xp: usize, yp: usize) -> bool
    ensures { result ≡ list_all (λ row. length row.xp == xp && length row.yp == yp) rows.now }
{
    rows.iter().all(|row| row.xp.as_slice().len() == xp && row.yp.as_slice().len() == yp)
}

fn is_even(decl: &Decl) -> bool
    ensures { result ≡ is_even decl.now }
{
    match decl {
        Decl::Cfd(cfd) => {
            let x = cfd.x.as_slice().len();
            let y = cfd.y.as_slice().len();
            rows_are_as_wide(cfd.rows.as_slice(), x, y)
        }
        Decl::Cind(cind) => {
            let xp = cind.xp.as_slice().len();
            let yp = cind.yp.as_slice().len();
            cind.x.as_slice().len() == cind.y.as_slice().len()
                && inclusion_rows_are_as_wide(cind.rows.as_slice(), xp, yp)
        }
        Decl::Edit(edit) => edit.x.as_slice().len() == edit.xm.as_slice().len(),
    }
}

/// Lists that belong to one another, and rows and the lists of their attributes, are equally long.
pub fn widths_fit(decl: &Decl) -> Result<(), AddFault>
    ensures { Finds result (width_mismatch decl.now) }
{
    if !is_even(decl) {
        return Err(AddFault::Rule(RuleFault::WidthMismatch));
    }
    Ok(())
}

/// The constant of a cell, or the members of its set.
fn constants(cell: &Cell) -> &[Text]
    ensures { result.now ≡ constants_of cell.now }
{
    match cell {
        Pattern::Any => &[],
        Pattern::Is(value) => slice::from_ref(value),
        Pattern::In(values) | Pattern::NotIn(values) => values.as_slice(),
    }
}

/// The constant of a cell of an editing rule, a negated one too.
fn edit_constants(cell: &EditCell) -> &[Text]
    ensures { result.now ≡ edit_constants_of cell.now }
{
    match cell {
        EditCell::Any => &[],
        EditCell::Is(value) | EditCell::Not(value) => slice::from_ref(value),
    }
}

fn find_outside<'a>(attrs: &[Attr], name: &Text, values: &'a [Text]) -> Option<&'a Text>
    ensures { option_copied result ≡ find (λ value. not (admits (domain_of attrs.now name.now) value)) values.now }
{
    values.iter().find(|value| !admits(attrs, name, value))
}

fn values_are_inside(attrs: &[Attr], name: &Text, values: &[Text]) -> Result<(), AddFault>
    ensures { Finds result (outside_in attrs.now name.now values.now) }
{
    match find_outside(attrs, name, values) {
        Some(value) => Err(AddFault::Rule(RuleFault::ConstantOutsideDomain {
            attr: name.clone()?,
            value: value.clone()?,
        })),
        None => Ok(()),
    }
}

fn cells_are_inside(attrs: &[Attr], names: &[Text], cells: &[Cell]) -> Result<(), AddFault>
    ensures { Finds result (first_in (outside_in_cell attrs.now) (zip names.now cells.now)) }
{
    for (name, cell) in names.iter().zip(cells) {
        values_are_inside(attrs, name, constants(cell))?;
    }
    Ok(())
}

fn constants_are_inside(attrs: &[Attr], names: &[Text], values: &[Text]) -> Result<(), AddFault>
    ensures { Finds result (first_in (outside_constant attrs.now) (zip names.now values.now)) }
{
    for (name, value) in names.iter().zip(values) {
        values_are_inside(attrs, name, slice::from_ref(value))?;
    }
    Ok(())
}

pub fn row_is_inside(attrs: &[Attr], cfd: &CfdDecl, row: &CfdRow) -> Result<(), AddFault>
    ensures { Finds result (outside_in_row attrs.now cfd.now row.now) }
{
    cells_are_inside(attrs, cfd.x.as_slice(), row.x.as_slice())?;
    cells_are_inside(attrs, cfd.y.as_slice(), row.y.as_slice())
}

fn cfd_is_inside(schema: &Schema, cfd: &CfdDecl) -> Result<(), AddFault>
    ensures { Finds result (outside_domain schema.now (Decl.Cfd cfd.now)) }
{
    let attrs = attrs_of(schema, &cfd.table);
    for row in cfd.rows.as_slice() {
        row_is_inside(attrs, cfd, row)?;
    }
    Ok(())
}

pub fn inclusion_row_is_inside(
    lefts: &[Attr],
    rights: &[Attr],
    cind: &CindDecl,
    row: &CindRow,
) -> Result<(), AddFault>
    ensures { Finds result (outside_in_inclusion_row lefts.now rights.now cind.now row.now) }
{
    constants_are_inside(lefts, cind.xp.as_slice(), row.xp.as_slice())?;
    constants_are_inside(rights, cind.yp.as_slice(), row.yp.as_slice())
}

fn cind_is_inside(schema: &Schema, cind: &CindDecl) -> Result<(), AddFault>
    ensures { Finds result (outside_domain schema.now (Decl.Cind cind.now)) }
{
    let lefts = attrs_of(schema, &cind.left);
    let rights = attrs_of(schema, &cind.right);
    for row in cind.rows.as_slice() {
        inclusion_row_is_inside(lefts, rights, cind, row)?;
    }
    Ok(())
}

fn pattern_is_inside(attrs: &[Attr], pattern: &[(Text, EditCell)]) -> Result<(), AddFault>
    ensures { Finds result (first_in (outside_in_pattern attrs.now) pattern.now) }
{
    for (name, cell) in pattern {
        values_are_inside(attrs, name, edit_constants(cell))?;
    }
    Ok(())
}

/// Each constant is in the domain of its attribute.
pub fn constants_fit(schema: &Schema, decl: &Decl) -> Result<(), AddFault>
    ensures { Finds result (outside_domain schema.now decl.now) }
{
    match decl {
        Decl::Cfd(cfd) => cfd_is_inside(schema, cfd),
        Decl::Cind(cind) => cind_is_inside(schema, cind),
        Decl::Edit(edit) => pattern_is_inside(attrs_of(schema, &edit.table), edit.when.as_slice()),
    }
}

fn members_are_distinct(name: &Text, cell: &Cell) -> Result<(), AddFault>
    ensures { Finds result (repeated_in_cell (name.now, cell.now)) }
{
    match find_repeated(&[], constants(cell)) {
        Some(value) => Err(AddFault::Rule(RuleFault::RepeatedConstant {
            attr: name.clone()?,
            value: value.clone()?,
        })),
        None => Ok(()),
    }
}

fn cells_are_distinct(names: &[Text], cells: &[Cell]) -> Result<(), AddFault>
    ensures { Finds result (first_in repeated_in_cell (zip names.now cells.now)) }
{
    for (name, cell) in names.iter().zip(cells) {
        members_are_distinct(name, cell)?;
    }
    Ok(())
}

pub fn row_is_distinct(cfd: &CfdDecl, row: &CfdRow) -> Result<(), AddFault>
    ensures { Finds result (repeated_in_row cfd.now row.now) }
{
    cells_are_distinct(cfd.x.as_slice(), row.x.as_slice())?;
    cells_are_distinct(cfd.y.as_slice(), row.y.as_slice())
}

fn cfd_is_distinct(cfd: &CfdDecl) -> Result<(), AddFault>
    ensures { Finds result (repeated_constant (Decl.Cfd cfd.now)) }
{
    for row in cfd.rows.as_slice() {
        row_is_distinct(cfd, row)?;
    }
    Ok(())
}

/// No member stands twice in one set.
pub fn sets_are_distinct(decl: &Decl) -> Result<(), AddFault>
    ensures { Finds result (repeated_constant decl.now) }
{
    match decl {
        Decl::Cfd(cfd) => cfd_is_distinct(cfd),
        _ => Ok(()),
    }
}
