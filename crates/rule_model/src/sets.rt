//! Whether dependencies have cells that are sets.

ghost use Rattle.std.specs.Prelude.{◌≡◌};
ghost use Rattle.std.specs.List.{list_any};
ghost use Rattle.cfd_semantics.specs.Pattern.{is_set};
ghost use Rattle.rule_model.specs.Books.{row_has_set, dep_has_set};

use crate::decl::Cell;
use crate::dep::{Dep, DepRow};

fn any_is_set(cells: &[Cell]) -> bool
    ensures { result ≡ list_any is_set cells.now }
{
    cells.iter().any(|cell| cell.is_set())
}

fn row_has_set(row: &DepRow) -> bool
    ensures { result ≡ row_has_set row.now }
{
    any_is_set(row.x.as_slice()) || row.a.is_set()
}

fn dep_has_set(dep: &Dep) -> bool
    ensures { result ≡ dep_has_set dep.now }
{
    dep.rule.rows.as_slice().iter().any(|row| row_has_set(row))
}

pub fn any_has_set(deps: &[Dep]) -> bool
    ensures { result ≡ list_any dep_has_set deps.now }
{
    deps.iter().any(|dep| dep_has_set(dep))
}
