//! The parts of a left side.
ghost use Rattle.std.specs.Prelude.{◌≡◌, ℕ, ◌<◌, ◌+◌, ◌++◌, ◌∷◌, List, length, drop, map, IfOk, OnOk};
ghost use Rattle.dep_search.specs.Found.{proper_parts};

use std::alloc::{AllocError, Global};
use text_lists::List;

/// The lists that are left where attributes are taken away. The attributes are gone through from the last.
pub fn proper_parts(alloc: Global, x: &[usize]) -> Result<List<List<usize>>, AllocError>
    ensures { IfOk result (λ parts. parts ≡ proper_parts x.now) }
{
    let mut parts = List::new(alloc);
    for i in 0..x.len() {
        parts = with_attr(alloc, parts.as_slice(), x, x.len() - 1 - i)?;
    }
    Ok(parts)
}

// The parts from one place back: those from this one, then those with the attribute there, then all behind it.
fn with_attr(
    alloc: Global,
    parts: &[List<usize>],
    x: &[usize],
    place: usize,
) -> Result<List<List<usize>>, AllocError>
    requires place { place < length x.now }
    requires parts { parts.now ≡ proper_parts (drop (place + 1) x.now) }
    ensures { IfOk result (λ more. more ≡ proper_parts (drop place x.now)) }
{
    let mut more = List::new(alloc);
    push_copies(alloc, &mut more, parts)?;
    push_longer(alloc, &mut more, x[place], parts)?;
    more.push(List::from(Vec::from_slice(alloc, &x[place + 1..])?))?;
    Ok(more)
}

fn push_copies(
    alloc: Global,
    more: &mut List<List<usize>>,
    parts: &[List<usize>],
) -> Result<(), AllocError>
    ensures { OnOk result (more.new ≡ more.old ++ parts.now) }
{
    for part in parts {
        more.push(List::from(Vec::from_slice(alloc, part.as_slice())?))?;
    }
    Ok(())
}

fn push_longer(
    alloc: Global,
    more: &mut List<List<usize>>,
    attr: usize,
    parts: &[List<usize>],
) -> Result<(), AllocError>
    ensures { OnOk result (more.new ≡ more.old ++ map (λ (part : List ℕ). attr ∷ part) parts.now) }
{
    for part in parts {
        let mut longer = List::new(alloc);
        longer.push(attr)?;
        push_all(&mut longer, part.as_slice())?;
        more.push(longer)?;
    }
    Ok(())
}

fn push_all(list: &mut List<usize>, items: &[usize]) -> Result<(), AllocError>
    ensures { OnOk result (list.new ≡ list.old ++ items.now) }
{
    for item in items {
        list.push(*item)?;
    }
    Ok(())
}
