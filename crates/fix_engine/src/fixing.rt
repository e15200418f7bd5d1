//! The verdict on a tuple.

ghost use Rattle.std.specs.Prelude.{◌≡◌, ◌↔◌, Err, Any, IfOk};
ghost use Rattle.row_store.specs.Tuple.{ids_of};
ghost use Rattle.schema_core.specs.Lookups.{attrs_at};
ghost use Rattle.rule_runs.specs.Starts.{IsStart};
ghost use Rattle.fix_engine.specs.Fixes.{TuplesTellValidated};
ghost use Rattle.fix_engine.specs.MasterRows.{LeadsToRows};
ghost use Rattle.fix_engine.specs.Questions.{CanBeAsked, IsNoAttr, asked_at, question};
ghost use Rattle.fix_engine.specs.Rivals.{IsFound};
ghost use Rattle.fix_engine.specs.Verdicts.{HasTuplesIn, IsVerdictOn};

use crate::fault::FixFault;
use crate::rivals::rival_of;
use crate::verdict::Verdict;
use crate::vouching::marks_of;
use master_index::MasterIndex;
use row_store::Tuple;
use rule_model::RuleBook;
use rule_runs::{Start, close_without};
use schema_core::Texts;
use std::alloc::{AllocError, Global};
use value_pool::Pool;

/// What the fix of the tuple is, where the attributes with these names are vouched for. A name may stand twice.
/// The question is put over texts; ids are how the tuple, the master rows and the verdict name them.
pub fn fix(
    alloc: Global,
    rules: &RuleBook,
    pool: &Pool,
    masters: &MasterIndex,
    table: usize,
    tuple: &Tuple,
    vouched: &Texts,
) -> Result<Verdict, FixFault>
    requires { CanBeAsked rules.now pool.now masters.now table (ids_of tuple.now) }
    ensures unknown { (result ≡ Err FixFault.UnknownAttr) ↔ Any (IsNoAttr (attrs_at rules.now.schema table)) vouched.now }
    ensures verdict { IfOk result (IsVerdictOn pool.now (question rules.now pool.now masters.now table (ids_of tuple.now) vouched.now)) }
    ensures tuples { IfOk result (HasTuplesIn rules.now pool.now table) }
    ensures rows { LeadsToRows rules.now.schema (question rules.now pool.now masters.now table (ids_of tuple.now) vouched.now) }
    ensures law { TuplesTellValidated (question rules.now pool.now masters.now table (ids_of tuple.now) vouched.now) }
{
    // The texts of a pool are distinct, so what is found over ids holds over texts.
    let _texts = pool.len();
    let attrs = &rules.schema().tables.as_slice()[table];
    let Some(vouched) = marks_of(attrs, vouched.as_slice()) else {
        return Err(FixFault::UnknownAttr);
    };
    let start = Start {
        rules,
        pool,
        masters,
        table,
        tuple,
        vouched,
    };
    Ok(verdict_at(alloc, &start)?)
}

/// The verdict at a start.
fn verdict_at(alloc: Global, start: &Start<'_>) -> Result<Verdict, AllocError>
    requires { IsStart start.now }
    ensures found { IfOk result (IsFound (asked_at start.now)) }
    ensures tuples { IfOk result (HasTuplesIn start.now.rules.now start.now.pool.now start.now.table) }
{
    let first = close_without(alloc, start, None)?;
    Ok(match rival_of(alloc, start, &first)? {
        Some(rival) => Verdict::Conflict {
            first,
            second: rival.run,
            attr: rival.attr,
        },
        None => Verdict::Unique {
            tuple: first.tuple,
            covered: first.covered,
            moves: first.moves,
        },
    })
}
