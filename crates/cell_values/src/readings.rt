//! The tuples that truth values of the variables stand for.

ghost use Rattle.std.specs.Prelude.{◌≡◌, ◌+◌, ◌<◌, ◌≤◌, ◌==◌, false, find, length, All, IfOk, IfSome, slice_index_or};
ghost use Rattle.schema_core.specs.Schemas.{IsValidAttr, IsValidDomain};
ghost use Rattle.cell_values.specs.Layout.{attr_var, count_of, equal_var, value_var, var_total, var_width};
ghost use Rattle.cell_values.specs.Readings.{attr_text, constant_of, new_for, new_text, plain_text, second_new, text_for, tuple_of, value_text};
ghost use Rattle.cell_values.specs.Values.{AreFew};

use crate::fresh::fresh_past;
use crate::layout::{equal_var, value_var};
use crate::standing::chosen;
use crate::value_list::ValueList;
use crate::values::{CellValues, cell_of};
use crate::which::Which;
use schema_core::{Attr, Domain, List, Text, Texts};
use std::alloc::{AllocError, Global};

fn plain_text(alloc: Global, domain: &Domain) -> Result<Text, AllocError>
    requires { IsValidDomain domain.now }
    ensures { IfOk result (λ text. text ≡ plain_text domain.now) }
{
    match domain {
        Domain::AnyText => fresh_past(alloc, 0, &ValueList::new(alloc)),
        Domain::Finite(values) => values.as_slice()[0].clone(),
    }
}

/// The text that is no constant.
fn new_text(alloc: Global, cell: &CellValues) -> Result<Text, AllocError>
    ensures { IfOk result (λ text. text ≡ new_text cell.now) }
{
    if cell.constants < cell.values.len() {
        Text::new(alloc, cell.values.get(cell.constants))
    } else {
        fresh_past(alloc, 0, &cell.values)
    }
}

/// The same, but longer where the second tuple's is to be another one than the first's.
fn second_new(
    alloc: Global,
    cell: &CellValues,
    equal: bool,
    one: Option<usize>,
) -> Result<Text, AllocError>
    ensures { IfOk result (λ text. text ≡ second_new cell.now equal one) }
{
    let text = new_text(alloc, cell)?;
    if equal || one.is_some() {
        return Ok(text);
    }
    fresh_past(alloc, text.as_str().len(), &cell.values)
}

/// The text of a constant, or else that text.
fn text_for(
    alloc: Global,
    cell: &CellValues,
    new: Text,
    place: Option<usize>,
) -> Result<Text, AllocError>
    requires { IfSome place (λ p. p < length cell.now.values) }
    ensures { IfOk result (λ text. text ≡ text_for cell.now new place) }
{
    match place {
        Some(place) => Text::new(alloc, cell.values.get(place)),
        None => Ok(new),
    }
}

/// Whether the variable of an attribute says that the tuples agree on it.
fn is_equal(cells: &[CellValues], truth: &[bool], attr: usize) -> bool
    requires few { AreFew cells.now }
    requires told { equal_var cells.now attr < length truth.now }
    ensures { result ≡ slice_index_or truth.now (equal_var cells.now attr) false }
{
    truth[equal_var(cells, attr)]
}

/// The first constant of a tuple whose variable is true.
fn constant_of(
    cells: &[CellValues],
    truth: &[bool],
    which: Which,
    cell: &CellValues,
) -> Option<usize>
    requires few { AreFew cells.now }
    requires told { value_var which cells.now cell.now.attr + length cell.now.values ≤ length truth.now }
    requires bound { cell.now.constants ≤ length cell.now.values }
    ensures constant { result ≡ constant_of (λ var. slice_index_or truth.now var false) (value_var which cells.now cell.now.attr) cell.now }
    ensures within { IfSome result (λ p. p < length cell.now.values) }
{
    chosen(truth, value_var(cells, which, cell.attr), cell.constants)
}

/// The text that a tuple has where it has no constant.
fn new_for(
    alloc: Global,
    which: Which,
    cells: &[CellValues],
    truth: &[bool],
    cell: &CellValues,
) -> Result<Text, AllocError>
    requires few { AreFew cells.now }
    requires bound { cell.now.constants ≤ length cell.now.values }
    requires told { attr_var (count_of which) cells.now cell.now.attr + var_width (count_of which) cell.now ≤ length truth.now }
    ensures { IfOk result (λ text. text ≡ new_for which cells.now (λ var. slice_index_or truth.now var false) cell.now.attr cell.now) }
{
    match which {
        Which::Only | Which::First => new_text(alloc, cell),
        Which::Second => {
            let one = constant_of(cells, truth, Which::First, cell);
            second_new(alloc, cell, is_equal(cells, truth, cell.attr), one)
        }
    }
}

/// The text of a tuple at an attribute that occurs.
fn value_text(
    alloc: Global,
    which: Which,
    cells: &[CellValues],
    truth: &[bool],
    cell: &CellValues,
) -> Result<Text, AllocError>
    requires few { AreFew cells.now }
    requires bound { cell.now.constants ≤ length cell.now.values }
    requires told { attr_var (count_of which) cells.now cell.now.attr + var_width (count_of which) cell.now ≤ length truth.now }
    requires own { value_var which cells.now cell.now.attr + length cell.now.values ≤ length truth.now }
    ensures { IfOk result (λ text. text ≡ value_text which cells.now (λ var. slice_index_or truth.now var false) cell.now.attr cell.now) }
{
    let place = constant_of(cells, truth, which, cell);
    let new = new_for(alloc, which, cells, truth, cell)?;
    text_for(alloc, cell, new, place)
}

fn attr_text(
    alloc: Global,
    which: Which,
    cells: &[CellValues],
    truth: &[bool],
    attr: usize,
    domain: &Domain,
) -> Result<Text, AllocError>
    requires valid { IsValidDomain domain.now }
    requires few { AreFew cells.now }
    requires constants { All (λ cell. cell.constants ≤ length cell.values) cells.now }
    requires told { var_total (count_of which) cells.now ≤ length truth.now }
    ensures { IfOk result (λ text. text ≡ attr_text which cells.now (λ var. slice_index_or truth.now var false) attr domain.now (find (λ cell. cell.attr == attr) cells.now)) }
{
    match cell_of(cells, attr) {
        Some(cell) => value_text(alloc, which, cells, truth, cell),
        None => plain_text(alloc, domain),
    }
}

/// One of the tuples.
pub fn tuple_of(
    alloc: Global,
    which: Which,
    attrs: &[Attr],
    cells: &[CellValues],
    truth: &[bool],
) -> Result<Texts, AllocError>
    requires valid { All IsValidAttr attrs.now }
    requires few { AreFew cells.now }
    requires constants { All (λ cell. cell.constants ≤ length cell.values) cells.now }
    requires told { var_total (count_of which) cells.now ≤ length truth.now }
    ensures { IfOk result (λ tuple. tuple ≡ tuple_of which attrs.now cells.now (λ var. slice_index_or truth.now var false)) }
{
    let mut tuple = List::new(alloc);
    for attr in 0..attrs.len() {
        tuple.push(attr_text(alloc, which, cells, truth, attr, &attrs[attr].domain)?)?;
    }
    Ok(tuple)
}
