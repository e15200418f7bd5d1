//! The order of what is found.
ghost use Rattle.std.specs.Prelude.{◌≡◌, ◌<◌, length, map, All, IfOk};
ghost use Rattle.dep_search.specs.Rows.{texts};
ghost use Rattle.dep_search.specs.Found.{IsInOrder};
ghost use Rattle.dep_search.specs.Keys.{IsCandidate, IsKey, candidate_of, kept_texts};

use crate::candidate::Candidate;
use std::alloc::{AllocError, Global};
use text_lists::{List, Texts};

/// What is compared: A, the number of X, the constants of X, and last the row.
type Key = (usize, usize, Option<Vec<Vec<u8>>>, Option<usize>);

/// The candidates in their order.
#[tactic(auto, using(crate::proofs::InOrder::in_order))]
pub fn sorted(
    alloc: Global,
    rows: &[Texts],
    sides: &[List<usize>],
    found: &[Candidate],
) -> Result<List<Candidate>, AllocError>
    requires { All (IsCandidate rows.now sides.now) found.now }
    ensures { IfOk result (IsInOrder rows.now sides.now found.now) }
{
    let mut keys = keys_of(alloc, rows, sides, found)?;
    keys.sort()?;
    candidates_of(alloc, keys.as_slice())
}

fn keys_of(
    alloc: Global,
    rows: &[Texts],
    sides: &[List<usize>],
    found: &[Candidate],
) -> Result<Vec<Key>, AllocError>
    requires { All (IsCandidate rows.now sides.now) found.now }
    ensures same { IfOk result (λ keys. map candidate_of keys.items ≡ found.now) }
    ensures each { IfOk result (λ keys. All (IsKey rows.now sides.now) keys.items) }
{
    let mut keys = Vec::new(alloc);
    for candidate in found {
        keys.push(key_of(alloc, rows, sides, candidate)?)?;
    }
    Ok(keys)
}

fn candidates_of(alloc: Global, keys: &[Key]) -> Result<List<Candidate>, AllocError>
    ensures { IfOk result (λ list. list ≡ map candidate_of keys.now) }
{
    let mut list = List::new(alloc);
    for key in keys {
        list.push(Candidate {
            a: key.0,
            side: key.1,
            row: key.3,
        })?;
    }
    Ok(list)
}

fn key_of(
    alloc: Global,
    rows: &[Texts],
    sides: &[List<usize>],
    candidate: &Candidate,
) -> Result<Key, AllocError>
    requires { IsCandidate rows.now sides.now candidate.now }
    ensures same { IfOk result (λ key. candidate_of key ≡ candidate.now) }
    ensures key { IfOk result (IsKey rows.now sides.now) }
{
    let x = sides[candidate.side].as_slice();
    match candidate.row {
        None => Ok((candidate.a, candidate.side, None, None)),
        Some(r) => {
            let texts = texts_of(alloc, &rows[r], x)?;
            Ok((candidate.a, candidate.side, Some(texts), Some(r)))
        }
    }
}

fn texts_of(alloc: Global, row: &Texts, x: &[usize]) -> Result<Vec<Vec<u8>>, AllocError>
    requires { All (λ attr. attr < length row.now) x.now }
    ensures { IfOk result (λ kept. kept_texts kept ≡ texts row.now x.now) }
{
    let mut texts = Vec::new(alloc);
    for attr in x {
        let text = row.as_slice()[*attr].as_str().as_bytes();
        texts.push(Vec::from_slice(alloc, text)?)?;
    }
    Ok(texts)
}
