//! The fates of the pieces of a table.

ghost use Rattle.std.specs.Prelude.{◌≡◌, ◌≤◌, ◌<◌, ◌↔◌, [], None, Err, All, length, IfOk, IfSome};
ghost use Rattle.schema_core.specs.Schemas.{IsValidSchema, table_place};
ghost use Rattle.rule_model.specs.Books.{book_deps};
ghost use Rattle.rule_cover.specs.Cover.{IsCover};
ghost use Rattle.rule_cover.specs.Fates.{AreRight, answer_of, numbers_of};
ghost use Rattle.rule_cover.specs.Pieces.{IsPiece};

use crate::fates::{CoverFault, Fate, Piece, PieceFates};
use crate::pieces::table_pieces;
use crate::rounds::Round;
use cfd_implication::{Implication, implies_from};
use rule_model::{Dep, RuleBook};
use schema_core::{List, Schema};
use std::alloc::{AllocError, Global};

/// A fate for each piece of the table of that name, each within a budget of leaves.
pub fn cover(
    alloc: Global,
    rules: &RuleBook,
    table: &str,
    budget: u64,
) -> Result<PieceFates, CoverFault>
    requires some { 1 ≤ budget }
    requires within { budget ≤ 1000000 }
    ensures cover { IfOk result (λ found. IfSome (table_place rules.now.schema table.now) (λ number. IsCover rules.now.schema (book_deps rules.now) number budget found.fates)) }
    ensures unknown { (result ≡ Err CoverFault.UnknownTable) ↔ (table_place rules.now.schema table.now ≡ None) }
{
    let Some(number) = rules.schema().table_named(table) else {
        return Err(CoverFault::UnknownTable);
    };
    Ok(cover_table(alloc, rules, number, budget)?)
}

fn cover_table(
    alloc: Global,
    rules: &RuleBook,
    table: usize,
    budget: u64,
) -> Result<PieceFates, AllocError>
    requires some { 1 ≤ budget }
    requires within { budget ≤ 1000000 }
    ensures { IfOk result (λ found. IsCover rules.now.schema (book_deps rules.now) table budget found.fates) }
{
    let pieces = table_pieces(alloc, rules.deps().as_slice(), table)?;
    let numbers = pieces.numbers;
    let fates = fates_of(
        alloc,
        rules.schema(),
        numbers.as_slice(),
        pieces.deps,
        budget,
    )?;
    Ok(PieceFates { fates })
}

fn fates_of(
    alloc: Global,
    schema: &Schema,
    numbers: &[Piece],
    pieces: List<Dep>,
    budget: u64,
) -> Result<List<(Piece, Fate)>, AllocError>
    requires schema { IsValidSchema schema.now }
    requires pieces { All (IsPiece schema.now) pieces }
    requires numbers { length numbers.now ≡ length pieces }
    requires some { 1 ≤ budget }
    requires within { budget ≤ 1000000 }
    ensures numbers { IfOk result (λ fates. numbers_of fates ≡ numbers.now) }
    ensures right { IfOk result (AreRight schema.now budget [] pieces) }
{
    let mut round = Round::first(pieces);
    let mut fates = List::new(alloc);
    for number in numbers {
        let number = *number;
        let asked = round.ask();
        let answer = implies_from(alloc, schema, asked.others(), asked.piece(), budget)?;
        let fate = fate_of(answer);
        round = asked.settle(fate.stays())?;
        fates.push((number, fate))?;
    }
    Ok(fates)
}

/// What becomes of a piece by the answer to its question.
fn fate_of(answer: Implication) -> Fate
    ensures { answer_of result ≡ answer }
{
    match answer {
        Implication::Implied(tree) => Fate::Dropped(tree),
        Implication::Counter(one, other) => Fate::Kept(one, other),
        Implication::Spent(tree) => Fate::Spent(tree),
    }
}
