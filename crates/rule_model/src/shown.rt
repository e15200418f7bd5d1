//! The faults that rows of a tableau show one by one, so that a reader of very many rows doesn't hold each one.

ghost use Rattle.std.specs.Prelude.{◌≡◌, ◌++◌, ◌∷◌, [], ◌⊎◌, List, Option, IfOk, OnOk, false};
ghost use Rattle.std.specs.Option.{is_some};
ghost use Rattle.schema_core.specs.Lookups.{attrs_of};
ghost use Rattle.rule_model.specs.Faults.{Finds, is_as_wide, is_inclusion_row_as_wide, outside_in_row, outside_in_inclusion_row, repeated_in_row};
ghost use Rattle.rule_model.specs.declared.fault.RuleFault.{RuleFault};
ghost use Rattle.rule_model.specs.FewRows.{RowTests, cfd_row_tests, cind_row_tests, shown_with, StandFor};

use crate::cells::{inclusion_row_is_inside, row_is_distinct, row_is_inside};
use crate::cind::CindRow;
use crate::decl::{CfdDecl, CfdRow, CindDecl};
use crate::fault::AddFault;
use crate::lookup::attrs_of;
use schema_core::{Attr, List, Schema};
use std::alloc::{AllocError, Global};

/// Which tests have found a fault in a row.
#[derive(Clone, Copy, PartialEq, Eq)]
pub struct Shown {
    pub width: bool,
    pub outside: bool,
    pub repeated: bool,
}

/// The tests of a row by itself.
pub trait TestsRows<R> {
    ghost tests: { Self → RowTests R };

    /// What is shown with one more row.
    fn shown(&self, shown: &Shown, row: &R) -> Result<Shown, AllocError>
        ensures { IfOk result (λ next. next ≡ shown_with (tests self.now) shown.now row.now) };
}

/// Over the head of a `cfd`.
#[derive(Drop)]
pub struct CfdTests<'a> {
    pub attrs: &'a [Attr],
    pub cfd: &'a CfdDecl,
}

/// Over the head of a `cind`.
#[derive(Drop)]
pub struct CindTests<'a> {
    pub lefts: &'a [Attr],
    pub rights: &'a [Attr],
    pub cind: &'a CindDecl,
}

fn is_as_wide(cfd: &CfdDecl, row: &CfdRow) -> bool
    ensures { result ≡ is_as_wide cfd.now row.now }
{
    row.x.as_slice().len() == cfd.x.as_slice().len()
        && row.y.as_slice().len() == cfd.y.as_slice().len()
}

/// Whether a test found a fault.
fn has_fault(tested: Result<(), AddFault>) -> Result<bool, AllocError>
    ensures { (found : Option RuleFault) → Finds tested found → IfOk result (λ has. has ≡ is_some found) }
{
    match tested {
        Ok(()) => Ok(false),
        Err(AddFault::Rule(_)) => Ok(true),
        Err(AddFault::Memory) => Err(AllocError),
    }
}

fn is_outside(attrs: &[Attr], cfd: &CfdDecl, row: &CfdRow) -> Result<bool, AllocError>
    ensures { IfOk result (λ found. found ≡ is_some (outside_in_row attrs.now cfd.now row.now)) }
{
    has_fault(row_is_inside(attrs, cfd, row))
}

fn is_repeated(cfd: &CfdDecl, row: &CfdRow) -> Result<bool, AllocError>
    ensures { IfOk result (λ found. found ≡ is_some (repeated_in_row cfd.now row.now)) }
{
    has_fault(row_is_distinct(cfd, row))
}

impl<'a> CfdTests<'a> {
    pub fn new(schema: &'a Schema, cfd: &'a CfdDecl) -> CfdTests<'a>
        ensures attrs { result.attrs.now ≡ attrs_of schema.now cfd.now.table }
        ensures cfd { result.cfd.now ≡ cfd.now }
    {
        CfdTests {
            attrs: attrs_of(schema, &cfd.table),
            cfd,
        }
    }
}

impl<'a> TestsRows<CfdRow> for CfdTests<'a> {
    ghost tests = { λ tests. cfd_row_tests tests.attrs.now tests.cfd.now };

    fn shown(&self, shown: &Shown, row: &CfdRow) -> Result<Shown, AllocError> {
        Ok(Shown {
            width: shown.width || !is_as_wide(self.cfd, row),
            outside: shown.outside || is_outside(self.attrs, self.cfd, row)?,
            repeated: shown.repeated || is_repeated(self.cfd, row)?,
        })
    }
}

fn is_inclusion_row_as_wide(cind: &CindDecl, row: &CindRow) -> bool
    ensures { result ≡ is_inclusion_row_as_wide cind.now row.now }
{
    row.xp.as_slice().len() == cind.xp.as_slice().len()
        && row.yp.as_slice().len() == cind.yp.as_slice().len()
}

fn is_inclusion_row_outside(
    lefts: &[Attr],
    rights: &[Attr],
    cind: &CindDecl,
    row: &CindRow,
) -> Result<bool, AllocError>
    ensures { IfOk result (λ found. found ≡ is_some (outside_in_inclusion_row lefts.now rights.now cind.now row.now)) }
{
    has_fault(inclusion_row_is_inside(lefts, rights, cind, row))
}

impl<'a> CindTests<'a> {
    pub fn new(schema: &'a Schema, cind: &'a CindDecl) -> CindTests<'a>
        ensures lefts { result.lefts.now ≡ attrs_of schema.now cind.now.left }
        ensures rights { result.rights.now ≡ attrs_of schema.now cind.now.right }
        ensures cind { result.cind.now ≡ cind.now }
    {
        CindTests {
            lefts: attrs_of(schema, &cind.left),
            rights: attrs_of(schema, &cind.right),
            cind,
        }
    }
}

impl<'a> TestsRows<CindRow> for CindTests<'a> {
    ghost tests = { λ tests. cind_row_tests tests.lefts.now tests.rights.now tests.cind.now };

    fn shown(&self, shown: &Shown, row: &CindRow) -> Result<Shown, AllocError> {
        let outside = shown.outside
            || is_inclusion_row_outside(self.lefts, self.rights, self.cind, row)?;
        Ok(Shown {
            width: shown.width || !is_inclusion_row_as_wide(self.cind, row),
            outside,
            repeated: shown.repeated,
        })
    }
}

/// Rows that stand for all that were read.
#[derive(Drop)]
pub struct HeldRows<R> {
    pub rows: List<R>,
    pub shown: Shown,
}

impl<R: Drop> HeldRows<R> {
    pub fn new(alloc: Global) -> HeldRows<R>
        ensures rows { result.rows ≡ [] }
        ensures shown { result.shown ≡ record { width = false; outside = false; repeated = false } }
    {
        HeldRows {
            rows: List::new(alloc),
            shown: Shown {
                width: false,
                outside: false,
                repeated: false,
            },
        }
    }

    /// One more row was read. It is held among the first ones, and where it shows a fault that no row has
    /// shown. Where memory is short, nothing is promised of what is held.
    pub fn add<T: TestsRows<R>>(&mut self, tests: &T, most: u64, row: R) -> Result<(), AllocError>
        ensures stand { OnOk result ((all : List R) → StandFor (T.tests tests.now) most all self.old.rows self.old.shown → StandFor (T.tests tests.now) most (all ++ row ∷ []) self.new.rows self.new.shown) }
        ensures held { OnOk result ((self.new.rows ≡ self.old.rows ++ row ∷ []) ⊎ (self.new.rows ≡ self.old.rows)) }
    {
        if self.rows.as_slice().len() as u64 > most {
            let shown = tests.shown(&self.shown, &row)?;
            if shown == self.shown {
                return Ok(());
            }
            self.shown = shown;
        }
        self.rows.push(row)?;
        Ok(())
    }
}
