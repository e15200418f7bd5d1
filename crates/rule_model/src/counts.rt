//! How many rules of each kind and how many tableau rows there are, and the limits on them.

ghost use Rattle.std.specs.Prelude.{◌≡◌, []};
ghost use Rattle.text_lists.specs.Limits.{AreLimits};
ghost use Rattle.rule_model.specs.Counts.{counts_of, counts_with, AreWithin};
ghost use Rattle.rule_model.specs.Faults.{Finds, over_limit, too_many};

use crate::decl::Decl;
use crate::fault::{AddFault, RuleFault};
use schema_core::{Limit, Limits};

#[derive(Clone, Copy, PartialEq, Eq)]
pub struct Counts {
    pub deps: u64,
    pub cinds: u64,
    pub edits: u64,
    pub tableau_rows: u64,
}

fn keeps_limit(limit: Limit, most: u64, count: u64) -> Result<(), AddFault>
    ensures { Finds result (over_limit limit most count) }
{
    if count > most {
        return Err(AddFault::Rule(RuleFault::TooMany(limit)));
    }
    Ok(())
}

impl Counts {
    pub fn none() -> Counts
        ensures { result ≡ counts_of [] }
    {
        Counts {
            deps: 0,
            cinds: 0,
            edits: 0,
            tableau_rows: 0,
        }
    }

    /// The counts with one more declaration.
    pub fn with(&self, limits: &Limits, decl: &Decl) -> Counts
        requires limits { AreLimits limits.now }
        requires within { AreWithin limits.now self.now }
        ensures { result ≡ counts_with self.now decl.now }
    {
        let mut counts = *self;
        match decl {
            Decl::Cfd(cfd) => {
                counts.deps += cfd.y.as_slice().len() as u64;
                counts.tableau_rows += cfd.rows.as_slice().len() as u64;
            }
            Decl::Cind(cind) => {
                counts.cinds += 1;
                counts.tableau_rows += cind.rows.as_slice().len() as u64;
            }
            Decl::Edit(_) => counts.edits += 1,
        }
        counts
    }

    /// None is above its limit.
    pub fn keep(&self, limits: &Limits) -> Result<(), AddFault>
        ensures { Finds result (too_many limits.now self.now) }
    {
        keeps_limit(Limit::Deps, limits.deps, self.deps)?;
        keeps_limit(Limit::Cinds, limits.cinds, self.cinds)?;
        keeps_limit(Limit::Edits, limits.edits, self.edits)?;
        keeps_limit(Limit::TableauRows, limits.tableau_rows, self.tableau_rows)
    }
}
