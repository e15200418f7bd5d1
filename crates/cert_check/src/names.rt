//! The variables and cells of a question by their names.

ghost use Rattle.std.specs.Prelude.{◌≡◌, ◌+◌, ◌*◌, ◌^◌, ◌<◌, ◌≤◌, ◌++◌, [], All, length, slice_get, IfSome, OnOk};
ghost use Rattle.std.specs.List.{position_or_len};
ghost use Rattle.std.specs.Option.{option_map_or};
ghost use Rattle.rule_parser.specs.RuleText.{attr_name};
ghost use Rattle.schema_core.specs.Schemas.{IsValidAttr};
ghost use Rattle.cell_values.specs.Values.{AreFew};
ghost use Rattle.line_grammar.specs.Spelling.{line_text};
ghost use Rattle.cert_text.specs.CertText.{cell_name_parts, var_parts};
ghost use Rattle.cert_text.specs.Written.{IsCellOf, IsVarOf};
ghost use Rattle.cert_check.specs.Names.{names_of, attr_vars, attr_cells, named_cell, same_var, is_cell, var_number, cell_number};
ghost use Rattle.cert_check.specs.Shown.{asks_consistency, asks_from};

use crate::named::{push_cell_at, push_var_at};
use crate::places::{cell_count, cell_place, var_count, var_place};
use cell_values::{CellValues, attrs_at};
use cert_text::answers::Kind;
use cert_text::{CellName, VarName};
use cfd_consistency::TableQuestion;
use cfd_implication::DepQuestion;
use rule_parser::attr_name;
use schema_core::Attr;
use std::alloc::AllocError;
use std::marker::Model;

/// The values of the attributes that occur in a question of a kind. Clauses see the names of its variables and cells.
#[derive(Drop)]
pub struct Naming<'a> {
    kind: Kind,
    attrs: &'a [Attr],
    values: &'a [CellValues],
}

impl<'a> Model for Naming<'a> {
    ghost use Rattle.std.specs.Prelude.{◌<◌, All, length};
    ghost use Rattle.schema_core.specs.Schemas.{IsValidAttr};
    ghost use Rattle.cell_values.specs.Values.{AreFew};
    ghost use Rattle.cert_check.specs.Names.{Names, names_of};

    ghost Value = { Names };

    ghost view = { λ n. names_of n.kind n.attrs.now n.values.now };

    ghost invariant = { λ n. AreFew n.values.now × All (λ cell. cell.attr < length n.attrs.now) n.values.now × All IsValidAttr n.attrs.now };
}

impl<'a> Naming<'a> {
    pub fn new(kind: Kind, attrs: &'a [Attr], values: &'a [CellValues]) -> Naming<'a>
        requires valid { All IsValidAttr attrs.now }
        requires few { AreFew values.now }
        requires there { All (λ cell. cell.attr < length attrs.now) values.now }
        ensures { result ≡ names_of kind attrs.now values.now }
    {
        Naming {
            kind,
            attrs,
            values,
        }
    }

    /// The names of a question about a table.
    pub fn of_table(asked: &'a TableQuestion<'_>) -> Naming<'a>
        ensures { result ≡ (asks_consistency asked.now.rules asked.now.table).names }
    {
        let attrs = attrs_at(asked.rules().schema(), asked.table());
        Naming::new(Kind::Consistency, attrs, asked.values())
    }

    /// Those of the question whether dependencies imply one more.
    pub fn of_dep(asked: &'a DepQuestion<'_>) -> Naming<'a>
        ensures { result ≡ (asks_from asked.now.schema asked.now.deps asked.now.dep).names }
    {
        let attrs = attrs_at(asked.schema(), asked.dep().table);
        Naming::new(Kind::Implication, attrs, asked.values())
    }

    /// The number of the variable of that name, or one that no variable has.
    pub fn var_number(&self, name: &VarName) -> usize
        ensures { result ≡ var_number self.now name.now }
    {
        var_number(self.kind, self.attrs, self.values, name)
    }

    /// The number of the cell of that name, or one that no cell has.
    pub fn cell_number(&self, name: &CellName) -> usize
        ensures { result ≡ cell_number self.now name.now }
    {
        cell_number(self.kind, self.attrs, self.values, name)
    }

    /// Appends the name of a variable.
    pub fn push_var(&self, out: &mut Vec<u8>, number: usize) -> Result<(), AllocError>
        requires { number < length self.now.vars }
        ensures text { OnOk result (out.new.items ≡ out.old.items ++ line_text (option_map_or var_parts (slice_get self.now.vars number) [])) }
        ensures fit { IfSome (slice_get self.now.vars number) (IsVarOf self.now.kind) }
    {
        push_var(out, self.kind, self.attrs, self.values, number)
    }

    /// Appends the name of a cell, if it has one.
    pub fn push_cell(&self, out: &mut Vec<u8>, number: usize) -> Result<(), AllocError>
        requires { number < length self.now.cells }
        ensures text { OnOk result (out.new.items ≡ out.old.items ++ line_text (option_map_or cell_name_parts (named_cell self.now.cells number) [])) }
        ensures fit { IfSome (named_cell self.now.cells number) (IsCellOf self.now.kind) }
    {
        push_cell(out, self.kind, self.attrs, self.values, number)
    }
}

/// The place of a variable among those of an attribute, or their number.
fn var_in(kind: Kind, attrs: &[Attr], cell: &CellValues, name: &VarName) -> usize
    requires there { cell.now.attr < length attrs.now }
    requires few { 1 + 2 * length cell.now.values < 2 ^ 64 }
    ensures { result ≡ position_or_len (same_var name.now) (attr_vars kind (attr_name attrs.now cell.now.attr) cell.now.values) }
{
    var_place(kind, attr_name(attrs, cell.attr), &cell.values, name)
}

/// The place of a cell among those of an attribute, or their number.
fn cell_in(kind: Kind, attrs: &[Attr], cell: &CellValues, name: &CellName) -> usize
    requires there { cell.now.attr < length attrs.now }
    ensures place { result ≡ position_or_len (is_cell name.now) (attr_cells kind (attr_name attrs.now cell.now.attr) cell.now.values) }
    ensures few { result ≤ 3 }
{
    cell_place(kind, attr_name(attrs, cell.attr), &cell.values, name)
}

fn var_number(kind: Kind, attrs: &[Attr], values: &[CellValues], name: &VarName) -> usize
    requires few { AreFew values.now }
    requires there { All (λ cell. cell.attr < length attrs.now) values.now }
    ensures { result ≡ var_number (names_of kind attrs.now values.now) name.now }
{
    let mut first = 0usize;
    for cell in values {
        let place = var_in(kind, attrs, cell, name);
        if place < var_count(kind, &cell.values) {
            return first + place;
        }
        first += place;
    }
    first
}

fn cell_number(kind: Kind, attrs: &[Attr], values: &[CellValues], name: &CellName) -> usize
    requires few { AreFew values.now }
    requires there { All (λ cell. cell.attr < length attrs.now) values.now }
    ensures { result ≡ cell_number (names_of kind attrs.now values.now) name.now }
{
    let mut first = 0usize;
    for cell in values {
        let place = cell_in(kind, attrs, cell, name);
        if place < cell_count(kind, &cell.values) {
            return first + place;
        }
        first += place;
    }
    first
}

/// Appends the name of the variable at a place among those of an attribute.
fn push_var_of(
    out: &mut Vec<u8>,
    kind: Kind,
    attrs: &[Attr],
    cell: &CellValues,
    place: usize,
) -> Result<(), AllocError>
    requires valid { All IsValidAttr attrs.now }
    requires there { cell.now.attr < length attrs.now }
    requires within { place < length (attr_vars kind (attr_name attrs.now cell.now.attr) cell.now.values) }
    ensures text { OnOk result (out.new.items ≡ out.old.items ++ line_text (option_map_or var_parts (slice_get (attr_vars kind (attr_name attrs.now cell.now.attr) cell.now.values) place) [])) }
    ensures fit { IfSome (slice_get (attr_vars kind (attr_name attrs.now cell.now.attr) cell.now.values) place) (IsVarOf kind) }
{
    push_var_at(out, kind, attr_name(attrs, cell.attr), &cell.values, place)
}

/// Appends the name of the cell at a place among those of an attribute, if it has one.
fn push_cell_of(
    out: &mut Vec<u8>,
    kind: Kind,
    attrs: &[Attr],
    cell: &CellValues,
    place: usize,
) -> Result<(), AllocError>
    requires valid { All IsValidAttr attrs.now }
    requires there { cell.now.attr < length attrs.now }
    requires within { place < length (attr_cells kind (attr_name attrs.now cell.now.attr) cell.now.values) }
    ensures text { OnOk result (out.new.items ≡ out.old.items ++ line_text (option_map_or cell_name_parts (named_cell (attr_cells kind (attr_name attrs.now cell.now.attr) cell.now.values) place) [])) }
    ensures fit { IfSome (named_cell (attr_cells kind (attr_name attrs.now cell.now.attr) cell.now.values) place) (IsCellOf kind) }
{
    push_cell_at(out, kind, attr_name(attrs, cell.attr), &cell.values, place)
}

fn push_var(
    out: &mut Vec<u8>,
    kind: Kind,
    attrs: &[Attr],
    values: &[CellValues],
    number: usize,
) -> Result<(), AllocError>
    requires few { AreFew values.now }
    requires valid { All IsValidAttr attrs.now }
    requires there { All (λ cell. cell.attr < length attrs.now) values.now }
    requires known { number < length (names_of kind attrs.now values.now).vars }
    ensures text { OnOk result (out.new.items ≡ out.old.items ++ line_text (option_map_or var_parts (slice_get (names_of kind attrs.now values.now).vars number) [])) }
    ensures fit { IfSome (slice_get (names_of kind attrs.now values.now).vars number) (IsVarOf kind) }
{
    let mut place = number;
    for cell in values {
        let count = var_count(kind, &cell.values);
        if place < count {
            return push_var_of(out, kind, attrs, cell, place);
        }
        place -= count;
    }
    unreachable!()
}

fn push_cell(
    out: &mut Vec<u8>,
    kind: Kind,
    attrs: &[Attr],
    values: &[CellValues],
    number: usize,
) -> Result<(), AllocError>
    requires valid { All IsValidAttr attrs.now }
    requires there { All (λ cell. cell.attr < length attrs.now) values.now }
    requires known { number < length (names_of kind attrs.now values.now).cells }
    ensures text { OnOk result (out.new.items ≡ out.old.items ++ line_text (option_map_or cell_name_parts (named_cell (names_of kind attrs.now values.now).cells number) [])) }
    ensures fit { IfSome (named_cell (names_of kind attrs.now values.now).cells number) (IsCellOf kind) }
{
    let mut place = number;
    for cell in values {
        let count = cell_count(kind, &cell.values);
        if place < count {
            return push_cell_of(out, kind, attrs, cell, place);
        }
        place -= count;
    }
    unreachable!()
}
