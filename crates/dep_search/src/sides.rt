//! The left sides: the lists of at most so many attributes.
ghost use Rattle.std.specs.Prelude.{◌≡◌, ◌≤◌, ◌++◌, [], ◌∷◌, ◌<◌, ℕ, List, All, IfOk, OnOk, nat_lt};
ghost use Rattle.std.specs.List.{list_all};
ghost use Rattle.dep_search.specs.Found.{all_longer, left_sides, longer};

use std::alloc::{AllocError, Global};
use text_lists::List;

/// The lists of at most so many attributes: by how many, then in the order of the lists.
#[tactic(auto, using(crate::proofs::Counted::gathered_more), unfolding(crate::specs::Found::left_sides))]
pub fn left_sides(
    alloc: Global,
    attrs: usize,
    width: usize,
) -> Result<List<List<usize>>, AllocError>
    requires { width ≤ 3 }
    ensures all { IfOk result (λ sides. sides ≡ left_sides attrs width) }
    ensures within { IfOk result (All (λ (side : List ℕ). All (λ attr. attr < attrs) side)) }
{
    let mut sides = List::new(alloc);
    let mut level = List::new(alloc);
    sides.push(List::new(alloc))?;
    level.push(List::new(alloc))?;
    for size in 0..width {
        level = all_longer(alloc, attrs, level.as_slice())?;
        push_all(alloc, &mut sides, level.as_slice())?;
    }
    Ok(sides)
}

#[tactic(auto, using(crate::proofs::Counted::gathered_more))]
fn all_longer(
    alloc: Global,
    attrs: usize,
    sides: &[List<usize>],
) -> Result<List<List<usize>>, AllocError>
    ensures { IfOk result (λ more. more ≡ all_longer attrs sides.now) }
{
    let mut more = List::new(alloc);
    for n in 0..sides.len() {
        push_longer(alloc, &mut more, attrs, sides[n].as_slice())?;
    }
    Ok(more)
}

#[tactic(auto, using(crate::proofs::Counted::gathered_more), unfolding(crate::specs::Found::longer))]
fn push_longer(
    alloc: Global,
    more: &mut List<List<usize>>,
    attrs: usize,
    x: &[usize],
) -> Result<(), AllocError>
    ensures { OnOk result (more.new ≡ more.old ++ longer attrs x.now) }
{
    for attr in 0..attrs {
        if is_behind(x, attr) {
            more.push(extended(alloc, x, attr)?)?;
        }
    }
    Ok(())
}

fn is_behind(x: &[usize], attr: usize) -> bool
    ensures { result ≡ list_all (λ before. nat_lt before attr) x.now }
{
    x.iter().all(|before| *before < attr)
}

/// A left side with one attribute more behind.
pub fn extended(alloc: Global, x: &[usize], attr: usize) -> Result<List<usize>, AllocError>
    ensures { IfOk result (λ more. more ≡ x.now ++ attr ∷ []) }
{
    let mut more = List::from(Vec::from_slice(alloc, x)?);
    more.push(attr)?;
    Ok(more)
}

fn push_all(
    alloc: Global,
    sides: &mut List<List<usize>>,
    level: &[List<usize>],
) -> Result<(), AllocError>
    ensures { OnOk result (sides.new ≡ sides.old ++ level.now) }
{
    for side in level {
        sides.push(List::from(Vec::from_slice(alloc, side.as_slice())?))?;
    }
    Ok(())
}
