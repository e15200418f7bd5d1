//! Tuples, and the rules that they satisfy.

ghost use Rattle.std.specs.Prelude.{◌≡◌, ◌↔◌, ◌∷◌, [], IsTrue, IfOk};
ghost use Rattle.cfd_semantics.specs.Tuple.{tuples_of};
ghost use Rattle.rule_model.specs.Satisfied.{SatisfyDep};
ghost use Rattle.cfd_implication.specs.Implied.{SatisfyTable};
ghost use Rattle.cert_check.specs.Shown.{IsShortTuple, IsShortText};

use cfd_semantics::{Row, violations};
use rule_model::Dep;
use schema_core::{Attr, List, Text, Texts};
use std::alloc::{AllocError, Global};

/// The greatest number of bytes that a text of a tuple may have.
pub const MOST_BYTES: usize = 65_535;

fn is_short_text(attr: &Attr, text: &Text) -> bool
    ensures { IsTrue result ↔ IsShortText attr.now text.now }
{
    attr.domain.admits(text.as_str()) && text.as_str().len() <= MOST_BYTES
}

/// Whether the texts are a tuple of the attributes, none too long.
pub fn is_short_tuple(attrs: &[Attr], tuple: &[Text]) -> bool
    ensures { IsTrue result ↔ IsShortTuple attrs.now tuple.now }
{
    if attrs.len() != tuple.len() {
        return false;
    }
    for place in 0..attrs.len() {
        if !is_short_text(&attrs[place], &tuple[place]) {
            return false;
        }
    }
    true
}

/// Whether the tuples of rows satisfy a dependency.
pub fn satisfy(alloc: Global, dep: &Dep, rows: &[Row<Text>]) -> Result<bool, AllocError>
    ensures { IfOk result (λ yes. IsTrue yes ↔ SatisfyDep dep.now (tuples_of rows.now)) }
{
    let found = violations(alloc, &dep.rule, rows)?;
    Ok(found.as_slice().is_empty())
}

/// Whether the tuples of rows satisfy a dependency, where it is one of the table.
fn satisfy_of(
    alloc: Global,
    table: usize,
    dep: &Dep,
    rows: &[Row<Text>],
) -> Result<bool, AllocError>
    ensures { IfOk result (λ yes. IsTrue yes ↔ (dep.now.table ≡ table → SatisfyDep dep.now (tuples_of rows.now))) }
{
    if dep.table != table {
        return Ok(true);
    }
    let yes = satisfy(alloc, dep, rows)?;
    Ok(yes)
}

/// Whether the tuples of rows satisfy the dependencies of a table.
pub fn satisfy_table(
    alloc: Global,
    table: usize,
    deps: &[Dep],
    rows: &[Row<Text>],
) -> Result<bool, AllocError>
    ensures { IfOk result (λ yes. IsTrue yes ↔ SatisfyTable table deps.now (tuples_of rows.now)) }
{
    for dep in deps {
        let yes = satisfy_of(alloc, table, dep, rows)?;
        if !yes {
            return Ok(false);
        }
    }
    Ok(true)
}

/// A tuple as the only row.
pub fn one_row(alloc: Global, one: &Texts) -> Result<List<Row<Text>>, AllocError>
    ensures { IfOk result (λ rows. tuples_of rows ≡ one.now ∷ []) }
{
    let mut rows = List::new(alloc);
    rows.push((1, one.copied()?))?;
    Ok(rows)
}

/// Two tuples as rows.
pub fn two_rows(alloc: Global, one: &Texts, other: &Texts) -> Result<List<Row<Text>>, AllocError>
    ensures { IfOk result (λ rows. tuples_of rows ≡ one.now ∷ other.now ∷ []) }
{
    let mut rows = List::new(alloc);
    rows.push((1, one.copied()?))?;
    rows.push((2, other.copied()?))?;
    Ok(rows)
}
