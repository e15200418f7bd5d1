//! The rules of a bench, one after another: its dependencies, and then its inclusion dependencies.

ghost use Rattle.std.specs.Prelude.{◌≡◌, ◌<◌};
ghost use Rattle.violation_report.specs.RuleNumbers.{IsRuleOf, rule_at, rule_count};

use bench_core::BenchQueries;

/// A rule, by its number among those of its kind.
#[derive(Clone, Copy, PartialEq, Eq)]
pub(crate) enum Rule {
    Dep(usize),
    Cind(usize),
}

/// How many rules there are.
pub(crate) fn rule_count(bench: &BenchQueries<'_>) -> usize
    ensures { result ≡ rule_count bench.now.rules }
{
    let rules = bench.rules();
    rules.deps().as_slice().len() + rules.cinds().as_slice().len()
}

/// The rule at a place among all of them.
pub(crate) fn rule_at(bench: &BenchQueries<'_>, place: usize) -> Rule
    requires { place < rule_count bench.now.rules }
    ensures is { result ≡ rule_at bench.now.rules place }
    ensures there { IsRuleOf bench.now.rules result }
{
    let deps = bench.dep_count();
    if place < deps {
        Rule::Dep(place)
    } else {
        Rule::Cind(place - deps)
    }
}
