//! How many violations there are.
ghost use Rattle.std.specs.Prelude.{◌≡◌, ◌+◌, IfOk, max, sum};
ghost use Rattle.page_text.specs.Totals.{cind_totals, counts_of, dep_totals, largest};

use std::alloc::{AllocError, Global};
use text_lists::List;
use violation_groups::{Findings, Group, Missing, groups_size, missing_size, sum_of};

/// The violations of each dependency, those of each inclusion, how many the rule has that has the most, and how many
/// there are of all rules.
#[derive(Drop)]
pub struct Counts {
    pub deps: List<usize>,
    pub cinds: List<usize>,
    pub largest: usize,
    pub all: usize,
}

pub fn counts_of(alloc: Global, findings: &Findings) -> Result<Counts, AllocError>
    ensures { IfOk result (λ counts. counts ≡ counts_of findings.now) }
{
    let deps = dep_totals(alloc, findings.deps.as_slice())?;
    let cinds = cind_totals(alloc, findings.cinds.as_slice())?;
    let largest = largest_of(deps.as_slice(), cinds.as_slice());
    let all = total_of(deps.as_slice(), cinds.as_slice())?;
    Ok(Counts {
        deps,
        cinds,
        largest,
        all,
    })
}

fn largest_of(deps: &[usize], cinds: &[usize]) -> usize
    ensures { result ≡ max (largest deps.now) (largest cinds.now) }
{
    largest(deps).max(largest(cinds))
}

fn largest(counts: &[usize]) -> usize
    ensures { result ≡ largest counts.now }
{
    let mut most: usize = 0;
    for count in counts {
        most = most.max(*count);
    }
    most
}

fn total_of(deps: &[usize], cinds: &[usize]) -> Result<usize, AllocError>
    ensures { IfOk result (λ all. all ≡ sum deps.now + sum cinds.now) }
{
    let deps = total(deps)?;
    let cinds = total(cinds)?;
    sum_of(deps, cinds)
}

fn total(counts: &[usize]) -> Result<usize, AllocError>
    ensures { IfOk result (λ all. all ≡ sum counts.now) }
{
    let mut all: usize = 0;
    for count in counts {
        all = sum_of(all, *count)?;
    }
    Ok(all)
}

fn dep_totals(alloc: Global, all: &[List<Group>]) -> Result<List<usize>, AllocError>
    ensures { IfOk result (λ totals. totals ≡ dep_totals all.now) }
{
    let mut totals = List::new(alloc);
    for groups in all {
        totals.push(groups_size(groups.as_slice())?)?;
    }
    Ok(totals)
}

fn cind_totals(alloc: Global, all: &[List<Missing>]) -> Result<List<usize>, AllocError>
    ensures { IfOk result (λ totals. totals ≡ cind_totals all.now) }
{
    let mut totals = List::new(alloc);
    for missing in all {
        totals.push(missing_size(missing.as_slice())?)?;
    }
    Ok(totals)
}
