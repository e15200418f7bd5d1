//! Three attributes that feed each other in a ring: two runs of greatest length, and lists of moves that are none.

ghost use Rattle.std.specs.Prelude.{◌≡◌, ◌<◌, length, map, All, IfOk, IsTrue};
ghost use Rattle.row_store.specs.Tuple.{ids_of};
ghost use Rattle.schema_core.specs.Lookups.{attrs_at};
ghost use Rattle.rule_model.specs.declared.edit_rule.EditRule.{EditRule};
ghost use Rattle.rule_model.specs.Books.{IsBook, book_edits};
ghost use Rattle.master_index.specs.declared.column_list.ColumnList.{ColumnList};
ghost use Rattle.rule_runs.specs.Starts.{AreMasters, IsStart};

use hash_keys::HashKeys;
use master_index::{ColumnList, MasterIndex};
use probe_steps::Steps;
use row_store::Tuple;
use rule_model::RuleBook;
use rule_parser::parse_rules;
use rule_runs::{Marks, Move, Run, RunCheck, Start, close_without, run_ok};
use schema_core::{Attr, Limits, List, Schema, parse_schema};
use std::alloc::{AllocError, Global};
use std::marker::Brand;
use std::rc::RcSlice;
use std::sync::ledger::{Blank, Ledger};
use std::test::Fail;
use value_pool::{Pool, ValueId};

const SCHEMA: &[u8] =
    b"table t 't'\nattr K\nattr A\nattr B\nattr D\nmaster m 'm'\nattr k\nattr one\nattr two\n";

const RULES: &[u8] =
    b"edit e1 t using m: K=k gives A=one\nedit e2 t using m: K=k gives B=one\nedit e3 t using m: K=k gives D=one\nedit e4 t using m: B=one gives A=two\nedit e5 t using m: D=one gives B=two\nedit e6 t using m: A=one gives D=two\n";

/// The move of a rule, counted from 1, with the one master row.
fn by(rule: usize) -> Move {
    Move {
        rule: rule.wrapping_sub(1),
        master: 1,
    }
}

/// What the moves are, in the room of a run of no move.
fn checked(alloc: Global, start: &Start<'_>, moves: &[Move]) -> Result<RunCheck, AllocError>
    requires { IsStart start.now }
{
    let mut room = Run::begin(alloc, start)?;
    Ok(run_ok(start, moves, &mut room))
}

/// The first of these lists of moves that isn't what was written down by hand.
fn wrong_check(
    alloc: Global,
    start: &Start<'_>,
    whole: &[Move],
    part: &[Move],
) -> Result<Option<&'static str>, AllocError>
    requires { IsStart start.now }
{
    if checked(alloc, start, whole)? != RunCheck::Maximal {
        return Ok(Some("a run to which nothing can be added"));
    }
    if checked(alloc, start, part)? != RunCheck::NotMaximal {
        return Ok(Some("a run to which a move can be added"));
    }
    if checked(alloc, start, &[by(1), by(4)])? != (RunCheck::Breaks { at: 1 }) {
        return Ok(Some("a move whose target is validated already"));
    }
    Ok(None)
}

/// The first answer that differs from what was written down by hand.
fn wrong_at(alloc: Global, start: &Start<'_>) -> Result<Option<&'static str>, AllocError>
    requires { IsStart start.now }
{
    let whole = close_without(alloc, start, None)?.moves;
    let part = close_without(alloc, start, Some(1))?.moves;
    if whole.as_slice() != [by(1), by(2), by(3)].as_slice() {
        return Ok(Some("the first run"));
    }
    if part.as_slice() != [by(2), by(3)].as_slice() {
        return Ok(Some("the run that leaves A out"));
    }
    wrong_check(alloc, start, whole.as_slice(), part.as_slice())
}

/// The columns that each editing rule matches.
fn column_lists(alloc: Global, rules: &RuleBook) -> Result<Vec<ColumnList>, AllocError>
    ensures lists { IfOk result (λ lists. lists.items ≡ map (λ (rule : EditRule). let list : ColumnList = record { master = rule.master; columns = rule.xm } in list) (book_edits rules.now)) }
    ensures book { IsBook rules.now }
{
    let mut lists = Vec::new(alloc);
    for rule in rules.edits().as_slice() {
        let columns = Vec::from_slice(alloc, rule.xm.as_slice())?;
        lists.push(ColumnList {
            master: rule.master,
            columns: List::from(columns),
        })?;
    }
    Ok(lists)
}

fn pool_of(alloc: Global, texts: &[&str]) -> Result<Pool, AllocError> {
    let mut pool = Pool::new(alloc);
    for text in texts {
        pool.intern(text)?;
    }
    Ok(pool)
}

/// The ids of the texts that the pool has.
fn tuple_of(alloc: Global, pool: &Pool, texts: &[&str]) -> Result<Tuple, AllocError>
    ensures { IfOk result (λ tuple. All (λ id. id < length pool.now) (ids_of tuple)) }
{
    let mut ids: Vec<ValueId> = Vec::new(alloc);
    for text in texts {
        if let Some(id) = pool.find(text) {
            ids.push(id)?;
        }
    }
    RcSlice::from_slice(alloc, ids.as_slice())
}

/// The attributes of a table, or none.
fn attrs_at(schema: &Schema, table: usize) -> &[Attr]
    ensures { result.now ≡ attrs_at schema.now table }
{
    match schema.tables.as_slice().get(table) {
        Some(table) => table.attrs.as_slice(),
        None => &[],
    }
}

fn is_of(rules: &RuleBook, table: usize, tuple: &Tuple) -> bool
    ensures { IsTrue result → length (ids_of tuple.now) ≡ length (attrs_at rules.now.schema table) }
{
    attrs_at(rules.schema(), table).len() == tuple.len()
}

/// The second table with this row alone.
fn masters_of<L: Ledger>(
    alloc: Global,
    rules: &RuleBook,
    pool: &Pool,
    row: &Tuple,
    steps: &mut Steps<L>,
) -> Result<MasterIndex, AllocError>
    requires ids { All (λ id. id < length pool.now) (ids_of row.now) }
    requires wide { length (ids_of row.now) ≡ length (attrs_at rules.now.schema 1) }
    ensures { IfOk result (AreMasters rules.now pool.now) }
{
    let lists = column_lists(alloc, rules)?;
    let mut masters = MasterIndex::new(alloc, HashKeys::fixed(), lists)?;
    masters.add(1, 1, row, steps)?;
    Ok(masters)
}

/// The first wrong answer about a tuple of the first table whose K is vouched for.
fn wrong_over<L: Ledger>(
    alloc: Global,
    rules: &RuleBook,
    pool: &Pool,
    steps: &mut Steps<L>,
) -> Result<Option<&'static str>, AllocError> {
    let row = tuple_of(alloc, pool, &["k", "1", "2"])?;
    let tuple = tuple_of(alloc, pool, &["k", "0", "0", "0"])?;
    let is_there = !rules.schema().tables.as_slice().is_empty();
    if !is_there || !is_of(rules, 0, &tuple) || !is_of(rules, 1, &row) {
        return Ok(Some("a row is as wide as its table"));
    }
    let masters = masters_of(alloc, rules, pool, &row, steps)?;
    let start = Start {
        rules,
        pool,
        masters: &masters,
        table: 0,
        tuple: &tuple,
        vouched: Marks::none().with(0),
    };
    wrong_at(alloc, &start)
}

fn first_wrong<L: Ledger>(alloc: Global, blank: Blank) -> Result<Option<&'static str>, Fail>
    requires name { blank.name ≡ L.name }
    requires parts { blank.parts ≡ L.parts }
    requires some { 0 < blank.parts }
{
    let mut steps = Steps::<L>::open(blank);
    let limits = Limits::standard();
    let schema = parse_schema(alloc, SCHEMA, &limits)?;
    let rules = parse_rules(alloc, schema, RULES, &limits)?;
    let pool = pool_of(alloc, &["k", "0", "1", "2"])?;
    Ok(wrong_over(alloc, &rules, &pool, &mut steps)?)
}

#[test]
fn a_ring(rt: HostRuntime) -> Result<(), Fail> {
    let wrong = first_wrong::<Brand>(rt.alloc(), Blank::new(1))?;
    assert!(rt; wrong.is_none(), "{wrong:?}");
    Ok(())
}
