//! The values of each attribute that the dependencies tell apart.

ghost use Rattle.std.specs.Prelude.{◌≡◌, ◌==◌, ◌||◌, ◌+◌, ◌^◌, ◌<◌, ◌++◌, false, if◌then◌else◌, [], ◌∷◌, All, IfOk, OnOk, find, option_copied};
ghost use Rattle.std.specs.List.{flat_map, list_any};
ghost use Rattle.text_lists.specs.Repeats.{AreDistinct};
ghost use Rattle.cfd_semantics.specs.Pattern.{is_set};
ghost use Rattle.schema_core.specs.Schemas.{IsValidAttr, IsValidDomain};
ghost use Rattle.rule_model.specs.Declarations.{constants_of};
ghost use Rattle.cell_values.specs.TableRules.{cells_at, cells_for, cells_in_row, cells_in_rule, occurs};
ghost use Rattle.cell_values.specs.Values.{AreFew, attrs_before, cell_values, constants_at, gather, has_other, is_finite, occurring, once_after, values_before, with_cell, with_other};

use crate::fresh::fresh_past;
use crate::table_rules::{Rule, TableRules};
use crate::value_list::ValueList;
use cfd_semantics::Pattern;
use rule_model::{Cell, DepRow};
use schema_core::{Attr, Domain, List, Text};
use std::alloc::{AllocError, Global};
use std::slice;

/// The values of an attribute: first its constants, and then at most one that stands for all other texts.
#[derive(Drop)]
pub struct CellValues {
    pub attr: usize,
    pub values: ValueList,
    /// How many of them are constants.
    pub constants: usize,
    /// Whether each text that the attribute may have counts as one of the values.
    pub demanded: bool,
}

/// The values of each attribute that occurs in the rules. More of them than a machine can number are answered like want
/// of memory.
pub fn occurring(
    alloc: Global,
    attrs: &[Attr],
    rules: &TableRules<'_>,
) -> Result<List<CellValues>, AllocError>
    requires { All IsValidAttr attrs.now }
    ensures cells { IfOk result (λ cells. cells ≡ occurring attrs.now rules.now) }
    ensures few { IfOk result AreFew }
{
    let mut cells = List::new(alloc);
    for attr in 0..attrs.len() {
        add_attr(alloc, rules, attr, &attrs[attr].domain, &mut cells)?;
    }
    check_few(cells.as_slice())?;
    Ok(cells)
}

// Appends the values of an attribute that occurs.
fn add_attr(
    alloc: Global,
    rules: &TableRules<'_>,
    attr: usize,
    domain: &Domain,
    cells: &mut List<CellValues>,
) -> Result<(), AllocError>
    requires { IsValidDomain domain.now }
    ensures { OnOk result (cells.new ≡ cells.old ++ (if occurs rules.now attr then cell_values rules.now attr domain.now ∷ [] else [])) }
{
    if rules.occurs(attr) {
        cells.push(cell_values(alloc, rules, attr, domain)?)?;
    }
    Ok(())
}

fn check_few(cells: &[CellValues]) -> Result<(), AllocError>
    ensures { OnOk result (AreFew cells.now) }
{
    let mut total = 0u64;
    for cell in cells {
        total = total_with(total, cell.values.len())?;
    }
    Ok(())
}

// One more than the sum, where that is below half of the machine numbers.
fn total_with(total: u64, values: usize) -> Result<u64, AllocError>
    requires { total < 2 ^ 63 }
    ensures { IfOk result (λ sum. (sum ≡ total + (values + 1)) × (sum < 2 ^ 63)) }
{
    let values = values as u64;
    if values >= (1 << 63) - 1 - total {
        return Err(AllocError);
    }
    Ok(total + values + 1)
}

fn cell_values(
    alloc: Global,
    rules: &TableRules<'_>,
    attr: usize,
    domain: &Domain,
) -> Result<CellValues, AllocError>
    requires { IsValidDomain domain.now }
    ensures { IfOk result (λ cell. cell ≡ cell_values rules.now attr domain.now) }
{
    let mut found = gather_from(alloc, rules, attr, domain)?;
    let constants = found.values.len();
    found.add_other(alloc)?;
    Ok(CellValues {
        attr,
        values: found.values,
        constants,
        demanded: is_finite(domain) || found.other,
    })
}

// The constants of an attribute, and whether it has an other-value.
fn gather_from(
    alloc: Global,
    rules: &TableRules<'_>,
    attr: usize,
    domain: &Domain,
) -> Result<Gathered, AllocError>
    requires { IsValidDomain domain.now }
    ensures { IfOk result (λ found. found ≡ record { values = constants_at rules.now attr domain.now; other = has_other rules.now attr domain.now }) }
{
    match domain {
        Domain::AnyText => gather_cells(alloc, rules, attr),
        Domain::Finite(values) => gather_values(alloc, values.as_slice()),
    }
}

fn gather_cells(alloc: Global, rules: &TableRules<'_>, attr: usize) -> Result<Gathered, AllocError>
    ensures { IfOk result (λ found. found ≡ record { values = once_after [] (flat_map constants_of (cells_at rules.now attr)); other = list_any is_set (cells_at rules.now attr) }) }
{
    let mut found = Gathered {
        values: ValueList::new(alloc),
        other: false,
    };
    found.add_cells_at(rules, attr)?;
    Ok(found)
}

fn gather_values(alloc: Global, values: &[Text]) -> Result<Gathered, AllocError>
    requires { AreDistinct values.now }
    ensures { IfOk result (λ found. found ≡ record { values = values.now; other = false }) }
{
    let mut found = ValueList::new(alloc);
    add_all(&mut found, values)?;
    Ok(Gathered {
        values: found,
        other: false,
    })
}

fn is_finite(domain: &Domain) -> bool
    ensures { result ≡ is_finite domain.now }
{
    matches!(domain, Domain::Finite(_))
}

/// Appends the texts that are new.
fn add_all(values: &mut ValueList, texts: &[Text]) -> Result<(), AllocError>
    ensures { OnOk result (values.new ≡ once_after values.old texts.now) }
{
    for text in texts {
        values.add(text.as_str())?;
    }
    Ok(())
}

/// What cells ask of an attribute: the constants that they name, and whether one is a set or a complement.
#[derive(Drop)]
struct Gathered {
    values: ValueList,
    other: bool,
}

impl Gathered {
    // Appends the other-value to the constants, where there is one.
    fn add_other(&mut self, alloc: Global) -> Result<(), AllocError>
        ensures values { OnOk result (self.new.values ≡ with_other self.old.other self.old.values) }
        ensures other { self.new.other ≡ self.old.other }
    {
        if self.other {
            let other = fresh_past(alloc, 0, &self.values)?;
            self.values.add(other.as_str())?;
        }
        Ok(())
    }

    fn add_cells_at(&mut self, rules: &TableRules<'_>, attr: usize) -> Result<(), AllocError>
        ensures { OnOk result (self.new ≡ gather self.old (cells_at rules.now attr)) }
    {
        for place in 0..rules.len() {
            self.add_cells_in(rules.get(place), attr)?;
        }
        Ok(())
    }

    fn add_cells_in(&mut self, rule: &Rule, attr: usize) -> Result<(), AllocError>
        ensures { OnOk result (self.new ≡ gather self.old (cells_in_rule attr rule.now)) }
    {
        for row in rule.rows.as_slice() {
            self.add_row(rule, row, attr)?;
        }
        Ok(())
    }

    fn add_row(&mut self, rule: &Rule, row: &DepRow, attr: usize) -> Result<(), AllocError>
        ensures { OnOk result (self.new ≡ gather self.old (cells_in_row attr rule.now row.now)) }
    {
        for (at, cell) in rule.x.as_slice().iter().zip(row.x.as_slice()) {
            self.add_at(*at, cell, attr)?;
        }
        self.add_at(rule.a, &row.a, attr)?;
        Ok(())
    }

    // Adds a cell that stands at the attribute.
    fn add_at(&mut self, at: usize, cell: &Cell, attr: usize) -> Result<(), AllocError>
        ensures { OnOk result (self.new ≡ gather self.old (cells_for attr ((at, cell.now) ∷ []))) }
    {
        if at == attr {
            self.add(cell)?;
        }
        Ok(())
    }

    fn add(&mut self, cell: &Cell) -> Result<(), AllocError>
        ensures { OnOk result (self.new ≡ with_cell self.old cell.now) }
    {
        match cell {
            Pattern::Any => Ok(()),
            Pattern::Is(value) => add_all(&mut self.values, slice::from_ref(value)),
            Pattern::In(values) | Pattern::NotIn(values) => {
                self.other = true;
                add_all(&mut self.values, values.as_slice())
            }
        }
    }
}

/// The values of an attribute, if it is there.
pub fn cell_of(cells: &[CellValues], attr: usize) -> Option<&CellValues>
    ensures { option_copied result ≡ find (λ cell. cell.attr == attr) cells.now }
{
    cells.iter().find(|cell| cell.attr == attr)
}

/// How many values the attributes before an attribute have.
pub fn values_before(cells: &[CellValues], attr: usize) -> usize
    requires { AreFew cells.now }
    ensures { result ≡ values_before cells.now attr }
{
    let mut before = 0;
    for cell in cells {
        if cell.attr < attr {
            before += cell.values.len();
        }
    }
    before
}

/// How many attributes stand before an attribute.
pub fn attrs_before(cells: &[CellValues], attr: usize) -> usize
    ensures { result ≡ attrs_before cells.now attr }
{
    cells.iter().filter(|cell| cell.attr < attr).count()
}
