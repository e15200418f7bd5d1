//! Whether any rule is violated, told by how many groups and keys are dirty. None of them is gone over.

ghost use Rattle.std.specs.Prelude.{◌≡◌, ◌↔◌, [], IsTrue};
ghost use Rattle.bench_core.specs.DirtyCounts.{cind_dirty, dep_dirty};
ghost use Rattle.violation_report.specs.Listing.{IsSatisfied, listing};
ghost use Rattle.violation_report.specs.RuleNumbers.{IsRuleOf, number_at};

use crate::rules::{Rule, rule_at, rule_count};
use bench_core::BenchQueries;

/// Whether no rule is violated. The indexes of the bench know it, and nothing is counted or listed.
pub fn is_clean(bench: &BenchQueries<'_>) -> bool
    ensures empty { IsTrue result ↔ (listing bench.now.rules bench.now.history.present ≡ []) }
    ensures law { IsTrue result ↔ IsSatisfied bench.now.rules bench.now.history.present }
{
    for place in 0..rule_count(bench) {
        let dirty = dirty_of(bench, rule_at(bench, place));
        if dirty != 0 {
            return false;
        }
    }
    true
}

/// How many groups or keys of a rule are dirty.
fn dirty_of(bench: &BenchQueries<'_>, rule: Rule) -> usize
    requires { IsRuleOf bench.now.rules rule }
    ensures { result ≡ number_at (dep_dirty bench.now.history.present) (cind_dirty bench.now.history.present) bench.now.rules rule }
{
    match rule {
        Rule::Dep(number) => bench.dirty_groups(number),
        Rule::Cind(number) => bench.dirty_keys(number),
    }
}
