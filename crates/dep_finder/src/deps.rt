//! What is found, as rules.
ghost use Rattle.std.specs.Prelude.{◌≡◌, ◌≤◌, ◌<◌, ◌++◌, List, ℕ, Some, length, map, codes, decimal, All, IfErr, IfOk};
ghost use Rattle.dep_search.specs.Found.{left_sides};
ghost use Rattle.dep_search.specs.Keys.{IsCandidate};
ghost use Rattle.dep_search.specs.Rows.{Row, row_at};
ghost use Rattle.dep_search.specs.declared.candidate.Candidate.{Candidate};
ghost use Rattle.dep_search.specs.declared.finder.FindFault.TheVariants.{TooMany};
ghost use Rattle.dep_finder.specs.Deps.{AreFound, AreMore, IsOver, cell_of, cells_of, dep_of, deps_from, rule_of};
ghost use Rattle.dep_finder.specs.Minimal.{AreLeast};
ghost use Rattle.dep_finder.specs.Valid.{AreValid, HasOneRow, HasTexts, HaveNames, IsTextCell};

use cfd_semantics::{Dependency, Pattern, TableauRow};
use dep_search::{Candidate, FindFault, all_found, left_sides, sorted};
use hash_keys::HashKeys;
use rule_model::{Cell, Dep};
use schema_core::{List, Table, Text, Texts};
use std::alloc::{AllocError, Global};

/// The dependencies of at most so many attributes on the left that the rows of a table satisfy, and of which they satisfy no
/// part: plain ones, and constant ones that at least so many rows match. They are named d1, d2 and so on, and are rules of the
/// table wherever the rows keep to its domains.
pub fn find_deps(
    alloc: Global,
    keys: HashKeys,
    table: &Table,
    number: usize,
    rows: &List<Texts>,
    width: usize,
    support: usize,
    most: usize,
) -> Result<List<Dep>, FindFault>
    requires rows { All (λ (row : Row). length row ≡ length table.now.attrs) rows.now }
    requires some { 1 ≤ width }
    requires narrow { width ≤ 3 }
    requires support { 1 ≤ support }
    ensures found { IfOk result (AreFound table.now number rows.now width support) }
    ensures least { IfOk result (λ found. AreLeast rows.now (length table.now.attrs) width support (map (λ dep. dep.rule) found)) }
    ensures over { IfOk result (All (IsOver table.now.attrs)) }
    ensures valid { IfOk result (AreValid table.now number rows.now) }
    ensures one_row { IfOk result (All HasOneRow) }
    ensures names { IfOk result HaveNames }
    ensures few { IfOk result (λ found. length found ≤ most) }
    ensures many { IfErr result (λ fault. fault ≡ TooMany → AreMore table.now rows.now width support most) }
{
    let rows = rows.as_slice();
    let attrs = table.attrs.as_slice().len();
    let sides = left_sides(alloc, attrs, width)?;
    let found = all_found(alloc, keys, rows, attrs, support, sides.as_slice(), most)?;
    let found = sorted(alloc, rows, sides.as_slice(), found.as_slice())?;
    Ok(deps_of(alloc, number, rows, sides.as_slice(), found.as_slice())?)
}

fn deps_of(
    alloc: Global,
    number: usize,
    rows: &[Texts],
    sides: &[List<usize>],
    found: &[Candidate],
) -> Result<List<Dep>, AllocError>
    requires { All (IsCandidate rows.now sides.now) found.now }
    ensures is { IfOk result (λ deps. deps ≡ deps_from number rows.now sides.now 0 found.now) }
    ensures texts { IfOk result (All (λ dep. HasTexts dep.rule)) }
{
    let mut deps = List::new(alloc);
    for place in 0..found.len() {
        deps.push(dep_of(alloc, number, rows, sides, place, &found[place])?)?;
    }
    Ok(deps)
}

fn dep_of(
    alloc: Global,
    number: usize,
    rows: &[Texts],
    sides: &[List<usize>],
    place: usize,
    candidate: &Candidate,
) -> Result<Dep, AllocError>
    requires candidate { IsCandidate rows.now sides.now candidate.now }
    requires place { place < 9223372036854775808 }
    ensures is { IfOk result (λ dep. dep ≡ dep_of number rows.now sides.now place candidate.now) }
    ensures texts { IfOk result (λ dep. HasTexts dep.rule) }
{
    Ok(Dep {
        name: numbered(alloc, place + 1)?,
        table: number,
        rule: rule_of(alloc, rows, sides[candidate.side].as_slice(), candidate)?,
    })
}

fn numbered(alloc: Global, number: usize) -> Result<Text, AllocError>
    ensures { IfOk result (λ name. name ≡ codes "d" ++ decimal number) }
{
    Text::from_string(alloc, format!(in alloc; "d{number}")?)
}

fn rule_of(
    alloc: Global,
    rows: &[Texts],
    x: &[usize],
    candidate: &Candidate,
) -> Result<Dependency<Text>, AllocError>
    requires row { (r : ℕ) → candidate.now.row ≡ Some r → r < length rows.now }
    requires x { (r : ℕ) → candidate.now.row ≡ Some r → All (λ attr. attr < length (row_at rows.now r)) x.now }
    requires a { (r : ℕ) → candidate.now.row ≡ Some r → candidate.now.a < length (row_at rows.now r) }
    ensures is { IfOk result (λ rule. rule ≡ rule_of rows.now x.now candidate.now) }
    ensures texts { IfOk result HasTexts }
{
    let row = TableauRow {
        x: cells_of(alloc, rows, candidate.row, x)?,
        a: cell_of(alloc, rows, candidate.row, candidate.a)?,
    };
    let mut tableau = List::new(alloc);
    tableau.push(row)?;
    Ok(Dependency {
        x: List::from(Vec::from_slice(alloc, x)?),
        a: candidate.a,
        rows: tableau,
    })
}

fn cells_of(
    alloc: Global,
    rows: &[Texts],
    row: Option<usize>,
    attrs: &[usize],
) -> Result<List<Cell>, AllocError>
    requires row { (r : ℕ) → row ≡ Some r → r < length rows.now }
    requires attrs { (r : ℕ) → row ≡ Some r → All (λ attr. attr < length (row_at rows.now r)) attrs.now }
    ensures is { IfOk result (λ cells. cells ≡ cells_of rows.now row attrs.now) }
    ensures texts { IfOk result (All IsTextCell) }
{
    let mut cells = List::new(alloc);
    for attr in attrs {
        cells.push(cell_of(alloc, rows, row, *attr)?)?;
    }
    Ok(cells)
}

/// A text is copied from its `&str`, which is known to be UTF-8.
fn cell_of(
    alloc: Global,
    rows: &[Texts],
    row: Option<usize>,
    attr: usize,
) -> Result<Cell, AllocError>
    requires row { (r : ℕ) → row ≡ Some r → r < length rows.now }
    requires attr { (r : ℕ) → row ≡ Some r → attr < length (row_at rows.now r) }
    ensures is { IfOk result (λ cell. cell ≡ cell_of rows.now row attr) }
    ensures texts { IfOk result IsTextCell }
{
    match row {
        None => Ok(Pattern::Any),
        Some(r) => Ok(Pattern::Is(Text::new(alloc, rows[r].as_slice()[attr].as_str())?)),
    }
}
