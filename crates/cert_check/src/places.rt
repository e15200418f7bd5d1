//! The places of names among those of one attribute.

ghost use Rattle.std.specs.Prelude.{◌≡◌, ℕ, List, ◌+◌, ◌*◌, ◌^◌, ◌<◌, ◌≤◌, length};
ghost use Rattle.std.specs.List.{position_or_len};
ghost use Rattle.std.specs.Str.{bytes_eq};
ghost use Rattle.cert_check.specs.Names.{cell_name, value_vars, attr_vars, value_cells, attr_cells, same_tuple, same_cell, same_var, is_cell};
ghost use Rattle.cert_text.specs.declared.answers.Kind.TheVariants.{Implication};
ghost use Rattle.cell_values.specs.declared.which.Which.{Which as AnyTuple};

use cell_values::{ValueList, Which};
use cert_text::answers::Kind;
use cert_text::{CellName, VarName};
use schema_core::Text;

fn same_tuple(one: Which, other: Which) -> bool
    ensures { result ≡ same_tuple one other }
{
    match one {
        Which::Only => matches!(other, Which::Only),
        Which::First => matches!(other, Which::First),
        Which::Second => matches!(other, Which::Second),
    }
}

fn is_named(cell: &CellName, tuple: Which, attr: &Text) -> bool
    ensures { result ≡ same_cell cell.now (cell_name tuple attr.now) }
{
    same_tuple(cell.tuple, tuple) && cell.attr.is(attr.as_str())
}

/// The place of a text, or the number of texts where it isn't there.
fn text_place(values: &ValueList, text: &Text) -> usize
    ensures { result ≡ position_or_len (bytes_eq text.now) values.now }
{
    match values.find(text.as_str()) {
        Some(place) => place,
        None => values.len(),
    }
}

/// The place of a variable among those of the values of an attribute in a tuple.
fn value_place(tuple: Which, attr: &Text, values: &ValueList, name: &VarName) -> usize
    ensures { result ≡ position_or_len (same_var name.now) (value_vars tuple attr.now values.now) }
{
    match name {
        VarName::Value(cell, text) => {
            if is_named(cell, tuple, attr) {
                text_place(values, text)
            } else {
                values.len()
            }
        }
        VarName::Equal(_) => values.len(),
    }
}

/// Whether the variable says that two tuples agree on the attribute.
fn is_equality(name: &VarName, attr: &Text) -> bool
    ensures { result ≡ same_var name.now (VarName.Equal attr.now) }
{
    match name {
        VarName::Value(_, _) => false,
        VarName::Equal(named) => named.is(attr.as_str()),
    }
}

/// The place of a variable among those of an attribute over two tuples.
fn pair_place(attr: &Text, values: &ValueList, name: &VarName) -> usize
    requires { 1 + 2 * length values.now < 2 ^ 64 }
    ensures { result ≡ position_or_len (same_var name.now) (attr_vars Implication attr.now values.now) }
{
    if is_equality(name, attr) {
        return 0;
    }
    let count = values.len();
    let one = value_place(Which::First, attr, values, name);
    if one < count {
        return 1 + one;
    }
    1 + count + value_place(Which::Second, attr, values, name)
}

/// The place of a variable among those of an attribute, or their number.
pub fn var_place(kind: Kind, attr: &Text, values: &ValueList, name: &VarName) -> usize
    requires { 1 + 2 * length values.now < 2 ^ 64 }
    ensures { result ≡ position_or_len (same_var name.now) (attr_vars kind attr.now values.now) }
{
    match kind {
        Kind::Consistency => value_place(Which::Only, attr, values, name),
        Kind::Implication => pair_place(attr, values, name),
    }
}

/// How many variables an attribute has.
pub fn var_count(kind: Kind, values: &ValueList) -> usize
    requires { 1 + 2 * length values.now < 2 ^ 64 }
    ensures { (attr : List ℕ) → result ≡ length (attr_vars kind attr values.now) }
{
    match kind {
        Kind::Consistency => values.len(),
        Kind::Implication => 1 + 2 * values.len(),
    }
}

/// How many cells the values of an attribute in a tuple are.
fn value_cell_count(values: &ValueList) -> usize
    ensures count { (tuple : AnyTuple) (attr : List ℕ) → result ≡ length (value_cells tuple attr values.now) }
    ensures few { result ≤ 1 }
{
    if values.len() == 0 { 0 } else { 1 }
}

/// The place of a cell among those of the values of an attribute in a tuple.
fn value_cell_place(tuple: Which, attr: &Text, values: &ValueList, name: &CellName) -> usize
    ensures place { result ≡ position_or_len (is_cell name.now) (value_cells tuple attr.now values.now) }
    ensures few { result ≤ 1 }
{
    if values.len() == 0 || is_named(name, tuple, attr) {
        0
    } else {
        1
    }
}

/// The place of a cell among those of an attribute over two tuples.
fn pair_cell_place(attr: &Text, values: &ValueList, name: &CellName) -> usize
    ensures place { result ≡ position_or_len (is_cell name.now) (attr_cells Implication attr.now values.now) }
    ensures few { result ≤ 3 }
{
    let count = value_cell_count(values);
    let one = value_cell_place(Which::First, attr, values, name);
    if one < count {
        return 1 + one;
    }
    1 + count + value_cell_place(Which::Second, attr, values, name)
}

/// The place of a cell among those of an attribute, or their number.
pub fn cell_place(kind: Kind, attr: &Text, values: &ValueList, name: &CellName) -> usize
    ensures place { result ≡ position_or_len (is_cell name.now) (attr_cells kind attr.now values.now) }
    ensures few { result ≤ 3 }
{
    match kind {
        Kind::Consistency => value_cell_place(Which::Only, attr, values, name),
        Kind::Implication => pair_cell_place(attr, values, name),
    }
}

/// How many cells an attribute has.
pub fn cell_count(kind: Kind, values: &ValueList) -> usize
    ensures count { (attr : List ℕ) → result ≡ length (attr_cells kind attr values.now) }
    ensures few { result ≤ 3 }
{
    let count = value_cell_count(values);
    match kind {
        Kind::Consistency => count,
        Kind::Implication => 1 + 2 * count,
    }
}
