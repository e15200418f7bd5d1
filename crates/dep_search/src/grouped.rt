//! The rows by the classes of some attributes.
ghost use Rattle.std.specs.Prelude.{◌≡◌, ◌<◌, ◌++◌, ◌∷◌, [], length, All, IfOk};
ghost use Rattle.dep_search.specs.Settled.{IsGrouped, IsTable, leads_of};

use crate::classes::{Classes, first_pairs, nexts};
use crate::settled::{large, sizes};
use crate::sides::extended;
use crate::table::Table;
use std::alloc::{AllocError, Global};
use text_lists::List;

/// The attributes, and the classes of rows that agree on them.
#[derive(Drop)]
pub struct Grouped {
    pub x: List<usize>,
    pub classes: Classes,
}

/// The rows by attributes, which are taken one after the other.
#[tactic(auto, using(std::proofs::lemmas::List::take_all))]
pub fn grouped_by(alloc: Global, table: &Table, x: &[usize]) -> Result<Grouped, AllocError>
    requires table { IsTable table.now }
    requires x { All (λ attr. attr < length table.now.columns.now) x.now }
    ensures x { IfOk result (λ grouped. grouped.x ≡ x.now) }
    ensures rows { IfOk result (IsGrouped table.now.rows.now) }
{
    let mut grouped = all_rows(alloc, table)?;
    for attr in x {
        grouped = with_attr(alloc, table, &grouped, *attr)?;
    }
    Ok(grouped)
}

// All rows agree on no attribute.
fn all_rows(alloc: Global, table: &Table) -> Result<Grouped, AllocError>
    ensures x { IfOk result (λ grouped. grouped.x ≡ []) }
    ensures rows { IfOk result (IsGrouped table.now.rows.now) }
{
    let leaders = vec![in alloc; 0; table.rows.len()]?;
    let nexts = nexts(alloc, leaders.as_slice())?;
    Ok(Grouped {
        x: List::new(alloc),
        classes: Classes {
            leaders: List::from(leaders),
            nexts,
        },
    })
}

/// The rows by one attribute more.
pub fn with_attr(
    alloc: Global,
    table: &Table,
    grouped: &Grouped,
    attr: usize,
) -> Result<Grouped, AllocError>
    requires table { IsTable table.now }
    requires grouped { IsGrouped table.now.rows.now grouped.now }
    requires attr { attr < length table.now.columns.now }
    ensures x { IfOk result (λ more. more.x ≡ grouped.now.x ++ attr ∷ []) }
    ensures rows { IfOk result (IsGrouped table.now.rows.now) }
{
    let leaders = first_pairs(alloc, table.columns[attr].as_slice(), &grouped.classes)?;
    let nexts = nexts(alloc, leaders.as_slice())?;
    let x = extended(alloc, grouped.x.as_slice(), attr)?;
    Ok(Grouped {
        x,
        classes: Classes { leaders, nexts },
    })
}

/// The first rows of the classes that have support.
pub fn leads(alloc: Global, table: &Table, grouped: &Grouped) -> Result<List<usize>, AllocError>
    requires { IsGrouped table.now.rows.now grouped.now }
    ensures { IfOk result (λ list. list ≡ leads_of table.now.rows.now table.now.support grouped.now.x) }
{
    let leaders = grouped.classes.leaders.as_slice();
    let sizes = sizes(alloc, leaders)?;
    large(alloc, leaders, sizes.as_slice(), table.support)
}
