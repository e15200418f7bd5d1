//! The pieces of a table.

ghost use Rattle.std.specs.Prelude.{◌≡◌, ◌++◌, ◌+◌, ◌<◌, ◌^◌, All, IfOk, OnOk};
ghost use Rattle.rule_cover.specs.Pieces.{dep_pieces, deps_in, numbers_in, single, table_pieces};

use crate::fates::Piece;
use cfd_semantics::{Dependency, TableauRow, copied_cells};
use rule_model::{Dep, DepRow};
use schema_core::List;
use std::alloc::{AllocError, Global};

/// Pieces by their numbers, and as dependencies of one tableau row.
#[derive(Drop)]
pub struct Pieces {
    pub numbers: List<Piece>,
    pub deps: List<Dep>,
}

/// The dependency with this tableau row alone, with memory of its own.
fn single(alloc: Global, dep: &Dep, row: &DepRow) -> Result<Dep, AllocError>
    ensures { IfOk result (λ piece. piece ≡ single dep.now row.now) }
{
    let mut rows = List::new(alloc);
    rows.push(TableauRow {
        x: copied_cells(alloc, row.x.as_slice())?,
        a: row.a.copied()?,
    })?;
    Ok(Dep {
        name: dep.name.clone()?,
        table: dep.table,
        rule: Dependency {
            x: List::from(Vec::from_slice(alloc, dep.rule.x.as_slice())?),
            a: dep.rule.a,
            rows,
        },
    })
}

/// Appends the pieces of a dependency.
fn push_pieces(
    alloc: Global,
    pieces: &mut Pieces,
    place: usize,
    dep: &Dep,
) -> Result<(), AllocError>
    requires { All (λ number. number.row + 1 < 2 ^ 64) pieces.old.numbers }
    ensures numbers { OnOk result (pieces.new.numbers ≡ pieces.old.numbers ++ numbers_in (dep_pieces (place, dep.now))) }
    ensures deps { OnOk result (pieces.new.deps ≡ pieces.old.deps ++ deps_in (dep_pieces (place, dep.now))) }
    ensures rows { OnOk result (All (λ number. number.row + 1 < 2 ^ 64) pieces.new.numbers) }
{
    for (row, cells) in dep.rule.rows.as_slice().iter().enumerate() {
        pieces.deps.push(single(alloc, dep, cells)?)?;
        pieces.numbers.push(Piece { dep: place, row })?;
    }
    Ok(())
}

/// The pieces of a table, by dependency and then by tableau row.
pub fn table_pieces(alloc: Global, deps: &[Dep], table: usize) -> Result<Pieces, AllocError>
    ensures numbers { IfOk result (λ pieces. pieces.numbers ≡ numbers_in (table_pieces table deps.now)) }
    ensures deps { IfOk result (λ pieces. pieces.deps ≡ deps_in (table_pieces table deps.now)) }
    ensures rows { IfOk result (λ pieces. All (λ number. number.row + 1 < 2 ^ 64) pieces.numbers) }
{
    let mut pieces = Pieces {
        numbers: List::new(alloc),
        deps: List::new(alloc),
    };
    for (place, dep) in deps.iter().enumerate() {
        if dep.table == table {
            push_pieces(alloc, &mut pieces, place, dep)?;
        }
    }
    Ok(pieces)
}
