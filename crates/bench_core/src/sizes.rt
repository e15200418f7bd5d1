//! How much a bench holds: its rows, and the cells that indexes of these rows have. Both are kept as numbers.

ghost use Rattle.std.specs.Prelude.{◌≡◌, ◌+◌, ◌-◌, ◌*◌, ◌^◌, ◌<◌, ◌≤◌, ◌&&◌, nat_le, if◌then◌else◌, min, length, map, slice_index, sum_by, IfOk};
ghost use Rattle.std.specs.List.{list_any, range_with_len};
ghost use Rattle.text_lists.specs.Limits.{AreLimits};
ghost use Rattle.bench_core.specs.Sizes.{cind_weight, column_lists, columns_of, columns_weight, dep_weight, same_columns, side_weight, stopped_weight};

use rule_model::{Cind, Dep, EditRule, RuleBook};
use schema_core::Limits;
use std::alloc::{AllocError, Global};

/// The rows and cells of all tables together, and what each row of a table weighs.
#[derive(Drop)]
pub struct Counts {
    pub weights: Vec<u64>,
    pub rows: u64,
    pub cells: u64,
}

/// What a row weighs for its table's dependencies. The sum stops at the last number of its type.
fn weight_of_deps(deps: &[Dep], table: usize) -> u64
    ensures { result ≡ min (sum_by (dep_weight table) deps.now) (2 ^ 64 - 1) }
{
    let mut sum: u64 = 0;
    for dep in deps {
        if dep.table == table {
            let width = dep.rule.x.as_slice().len() as u64;
            sum = sum.saturating_add(width.saturating_add(2));
        }
    }
    sum
}

fn weight_of_side(table: usize, stands_on: usize, key: &[usize], pattern: &[usize]) -> u64
    ensures { result ≡ min (side_weight table stands_on key.now pattern.now) (2 ^ 64 - 1) }
{
    if stands_on != table {
        return 0;
    }
    let width = (key.len() as u64).saturating_add(pattern.len() as u64);
    width.saturating_add(2)
}

fn weight_of_cind(cind: &Cind, table: usize) -> u64
    ensures { result ≡ min (cind_weight table cind.now) (2 ^ 64 - 1) }
{
    let rule = &cind.rule;
    let left = weight_of_side(table, cind.left, rule.x.as_slice(), rule.xp.as_slice());
    let right = weight_of_side(table, cind.right, rule.y.as_slice(), rule.yp.as_slice());
    left.saturating_add(right)
}

/// The same for the sides of inclusion dependencies that stand on the table.
fn weight_of_cinds(cinds: &[Cind], table: usize) -> u64
    ensures { result ≡ min (sum_by (cind_weight table) cinds.now) (2 ^ 64 - 1) }
{
    let mut sum: u64 = 0;
    for cind in cinds {
        sum = sum.saturating_add(weight_of_cind(cind, table));
    }
    sum
}

fn has_columns(earlier: &[EditRule], rule: &EditRule) -> bool
    ensures { result ≡ list_any (λ other. same_columns (columns_of other) (columns_of rule.now)) earlier.now }
{
    earlier
        .iter()
        .any(|other| other.master == rule.master && other.xm == rule.xm)
}

/// What the column list of an editing rule adds. A list that stands twice counts once.
fn weight_of_list(earlier: &[EditRule], rule: &EditRule, table: usize) -> u64
    ensures { result ≡ min (if list_any (λ other. same_columns (columns_of other) (columns_of rule.now)) earlier.now then 0 else columns_weight table (columns_of rule.now)) (2 ^ 64 - 1) }
{
    if rule.master == table && !has_columns(earlier, rule) {
        let width = rule.xm.as_slice().len() as u64;
        return width.saturating_add(2);
    }
    0
}

/// The same for the column lists of editing rules on the table.
fn weight_of_lists(edits: &[EditRule], table: usize) -> u64
    ensures { result ≡ min (sum_by (columns_weight table) (column_lists edits.now)) (2 ^ 64 - 1) }
{
    let mut sum: u64 = 0;
    for (place, rule) in edits.iter().enumerate() {
        sum = sum.saturating_add(weight_of_list(&edits[..place], rule, table));
    }
    sum
}

/// What each row of the table weighs. The sum stops at the last number of its type.
fn weight_of(rules: &RuleBook, table: usize) -> u64
    ensures { result ≡ stopped_weight rules.now table }
{
    weight_of_deps(rules.deps().as_slice(), table)
        .saturating_add(weight_of_cinds(rules.cinds().as_slice(), table))
        .saturating_add(weight_of_lists(rules.edits().as_slice(), table))
}

impl Counts {
    /// No rows yet.
    pub(crate) fn new(alloc: Global, rules: &RuleBook) -> Result<Counts, AllocError>
        ensures weights { IfOk result (λ counts. counts.weights.items ≡ map (stopped_weight rules.now) (range_with_len 0 (length rules.now.schema.tables))) }
        ensures none { IfOk result (λ counts. (counts.rows ≡ 0) × (counts.cells ≡ 0)) }
    {
        let mut weights = Vec::new(alloc);
        for table in 0..rules.schema().tables.as_slice().len() {
            weights.push(weight_of(rules, table))?;
        }
        Ok(Counts {
            weights,
            rows: 0,
            cells: 0,
        })
    }

    /// Whether so many more rows of the table are within the limits.
    pub(crate) fn has_room(&self, limits: &Limits, table: usize, more: u64) -> bool
        requires limits { AreLimits limits.now }
        requires table { table < length self.now.weights.items }
        requires rows { self.now.rows ≤ limits.now.rows }
        requires cells { self.now.cells ≤ limits.now.index_cells }
        ensures { result
            ≡ (nat_le (self.now.rows + more) limits.now.rows
            && nat_le (self.now.cells + more * slice_index self.now.weights.items table) limits.now.index_cells) }
    {
        more <= limits.rows - self.rows
            && more.saturating_mul(self.weights[table]) <= limits.index_cells - self.cells
    }

    /// The table has other rows now, `after` in place of `before`.
    pub(crate) fn recount(&mut self, table: usize, before: u64, after: u64)
        requires table { table < length self.old.weights.items }
        requires rows { (before ≤ self.old.rows) × (self.old.rows + after < 2 ^ 64) }
        requires cells { (before * slice_index self.old.weights.items table ≤ self.old.cells) × (self.old.cells + after * slice_index self.old.weights.items table < 2 ^ 64) }
        ensures rows { self.new.rows ≡ self.old.rows - before + after }
        ensures cells { self.new.cells ≡ self.old.cells - before * slice_index self.old.weights.items table + after * slice_index self.old.weights.items table }
        ensures weights { self.new.weights ≡ self.old.weights }
    {
        let weight = self.weights[table];
        self.rows = self.rows - before + after;
        self.cells = self.cells - before * weight + after * weight;
    }
}
