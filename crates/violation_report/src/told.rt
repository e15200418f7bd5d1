//! What a line tells of its rule and its rows, from which its text and its object are written.
ghost use Rattle.std.specs.Prelude.{◌≡◌};
ghost use Rattle.violation_report.specs.Text.{HasCindRow, HasDepRow, IsLineOf, cind_told, dep_told, told_of};
ghost use Rattle.violation_report.specs.Told.{as_told};

use crate::line::Line;
use row_store::RowId;
use rule_model::RuleBook;

#[derive(Drop)]
pub(crate) struct Told<'a> {
    pub kind: &'a str,
    pub rule: &'a str,
    /// of the tableau row, from 1
    pub number: usize,
    /// that on the right of a dependency
    pub attr: Option<&'a str>,
    /// the left one of an inclusion dependency
    pub table: &'a str,
    pub row: RowId,
    /// of a pair
    pub partner: Option<RowId>,
}

impl<'a> Told<'a> {
    pub(crate) fn of(rules: &'a RuleBook, line: &Line) -> Told<'a>
        requires { IsLineOf rules.now line.now }
        ensures { as_told result ≡ told_of rules.now line.now }
    {
        match line {
            Line::Single { dep, k, row } => Told::of_dep(rules, "single", *dep, *k, *row, None),
            Line::Pair {
                dep,
                k,
                row,
                partner,
            } => Told::of_dep(rules, "pair", *dep, *k, *row, Some(*partner)),
            Line::Orphan { cind, k, row } => Told::of_cind(rules, *cind, *k, *row),
        }
    }

    fn of_dep(
        rules: &'a RuleBook,
        kind: &'a str,
        dep: usize,
        k: usize,
        row: RowId,
        partner: Option<RowId>,
    ) -> Told<'a>
        requires { HasDepRow rules.now dep k }
        ensures { as_told result ≡ dep_told rules.now kind.now dep k row partner }
    {
        let dep = &rules.deps().as_slice()[dep];
        prove!(k < dep.rule.rows.as_slice().len());
        let table = &rules.schema().tables.as_slice()[dep.table];
        let attr = &table.attrs.as_slice()[dep.rule.a];
        Told {
            kind,
            rule: dep.name.as_str(),
            number: k + 1,
            attr: Some(attr.name.as_str()),
            table: table.name.as_str(),
            row,
            partner,
        }
    }

    fn of_cind(rules: &'a RuleBook, cind: usize, k: usize, row: RowId) -> Told<'a>
        requires { HasCindRow rules.now cind k }
        ensures { as_told result ≡ cind_told rules.now cind k row }
    {
        let cind = &rules.cinds().as_slice()[cind];
        prove!(k < cind.rule.rows.as_slice().len());
        let table = &rules.schema().tables.as_slice()[cind.left];
        Told {
            kind: "orphan",
            rule: cind.name.as_str(),
            number: k + 1,
            attr: None,
            table: table.name.as_str(),
            row,
            partner: None,
        }
    }
}
