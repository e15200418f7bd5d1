//! Whether the texts of a tuple match the cells of a tableau row. The tuple has ids, and the pool tells their texts.

ghost use Rattle.std.specs.Prelude.{◌≡◌, ◌<◌, ◌∷◌, ◌&&◌, not, length, All};
ghost use Rattle.std.specs.List.{list_any};
ghost use Rattle.std.specs.Str.{bytes_eq};
ghost use Rattle.cfd_semantics.specs.Pattern.{all_match, matches};
ghost use Rattle.row_store.specs.Tuple.{ids_of};
ghost use Rattle.row_store.specs.Watch.{IsWide};
ghost use Rattle.bench_index.specs.ByIds.{HasText};
ghost use Rattle.bench_index.specs.Lists.{text_of_cell, texts_at};

use cfd_semantics::{Dependency, Pattern, TableauRow};
use row_store::Tuple;
use schema_core::Text;
use value_pool::Pool;

/// Whether the tuple violates a tableau row by itself: it matches on X, and its A value doesn't match.
pub(crate) fn is_single(
    rule: &Dependency<Text>,
    tableau_row: &TableauRow<Text>,
    pool: &Pool,
    tuple: &Tuple,
) -> bool
    requires wide { IsWide (rule.now.a ∷ rule.now.x) (ids_of tuple.now) }
    requires named { All (HasText pool.now) (ids_of tuple.now) }
    ensures { result ≡ (all_match bytes_eq tableau_row.now.x (texts_at pool.now (ids_of tuple.now) rule.now.x)
        && not (matches bytes_eq tableau_row.now.a (text_of_cell pool.now (ids_of tuple.now) rule.now.a))) }
{
    matches_all(tableau_row.x.as_slice(), rule.x.as_slice(), pool, tuple)
        && !matches_at(&tableau_row.a, rule.a, pool, tuple)
}

// Whether the texts at the attributes match the cells place by place.
fn matches_all(cells: &[Pattern<Text>], x: &[usize], pool: &Pool, tuple: &Tuple) -> bool
    requires wide { IsWide x.now (ids_of tuple.now) }
    requires named { All (HasText pool.now) (ids_of tuple.now) }
    ensures { result ≡ all_match bytes_eq cells.now (texts_at pool.now (ids_of tuple.now) x.now) }
{
    if cells.len() != x.len() {
        return false;
    }
    for (place, attribute) in x.iter().enumerate() {
        if !matches_at(&cells[place], *attribute, pool, tuple) {
            return false;
        }
    }
    true
}

fn matches_at(cell: &Pattern<Text>, attribute: usize, pool: &Pool, tuple: &Tuple) -> bool
    requires wide { attribute < length (ids_of tuple.now) }
    requires named { All (HasText pool.now) (ids_of tuple.now) }
    ensures { result ≡ matches bytes_eq cell.now (text_of_cell pool.now (ids_of tuple.now) attribute) }
{
    matches(cell, pool.text(tuple.as_slice()[attribute]))
}

fn matches(cell: &Pattern<Text>, text: &str) -> bool
    ensures { result ≡ matches bytes_eq cell.now text.now }
{
    match cell {
        Pattern::Any => true,
        Pattern::Is(constant) => constant.is(text),
        Pattern::In(members) => is_among(members.as_slice(), text),
        Pattern::NotIn(members) => !is_among(members.as_slice(), text),
    }
}

fn is_among(members: &[Text], text: &str) -> bool
    ensures { result ≡ list_any (λ member. bytes_eq member text.now) members.now }
{
    members.iter().any(|member| member.is(text))
}
