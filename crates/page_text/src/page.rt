//! The page.
ghost use Rattle.std.specs.Prelude.{◌≡◌, ◌++◌, IfOk, OnOk};
ghost use Rattle.page_text.specs.Markup.{markup, style};
ghost use Rattle.page_text.specs.Page.{head_text, overview_text, page_text, sections_text, state_piece, styled};
ghost use Rattle.page_text.specs.Parts.{IsMadeOfParts};

use crate::checks::push_checks;
use crate::markup::{Piece, markup, push, style};
use crate::overview::{push_rules, push_tables};
use crate::rows::RowCounts;
use crate::sections::push_sections;
use crate::totals::{Counts, counts_of};
use html_text::{push_between, push_number_between};
use rule_model::RuleBook;
use std::alloc::{AllocError, Global};
use text_lists::{List, Text};
use violation_groups::Findings;

/// How many of each kind are shown, and whether the tables are shown as they were read.
#[derive(Clone, Copy, PartialEq, Eq)]
pub struct Options {
    pub first: usize,
    pub loaded: bool,
}

/// The page of a project of that name: what was read, what is found, and the lines of what `check` finds. Whatever these
/// hold, it is made of markup that is always the same, of escaped texts, and of numbers.
pub fn page_text(
    alloc: Global,
    name: &Text,
    options: Options,
    rules: &RuleBook,
    rows: &RowCounts,
    findings: &Findings,
    checked: &[List<u8>],
) -> Result<Vec<u8>, AllocError>
    ensures text { IfOk result (λ text. text.items ≡ page_text name.now options rules.now rows.now findings.now checked.now) }
    ensures law { IsMadeOfParts (page_text name.now options rules.now rows.now findings.now checked.now) }
{
    whole_page(alloc, name, options, rules, rows, findings, checked)
}

#[tactic(auto, unfolding(crate::specs::Page::page_text))]
fn whole_page(
    alloc: Global,
    name: &Text,
    options: Options,
    rules: &RuleBook,
    rows: &RowCounts,
    findings: &Findings,
    checked: &[List<u8>],
) -> Result<Vec<u8>, AllocError>
    ensures { IfOk result (λ text. text.items ≡ page_text name.now options rules.now rows.now findings.now checked.now) }
{
    let counts = counts_of(alloc, findings)?;
    let mut out = Vec::new(alloc);
    push_head(&mut out, name, options.loaded, counts.all)?;
    push_overview(&mut out, rules, rows, &counts)?;
    push_all_sections(&mut out, rules, rows, options.first, &counts, findings)?;
    push_checks(&mut out, checked, options.first)?;
    push(&mut out, Piece::Foot)?;
    Ok(out)
}

fn push_head(out: &mut Vec<u8>, name: &Text, loaded: bool, all: usize) -> Result<(), AllocError>
    ensures { OnOk result (out.new.items ≡ out.old.items ++ head_text name.now loaded all) }
{
    push_styled(out, name)?;
    push_between(out, b"", name, markup(state_piece(loaded)))?;
    push_number_between(out, b"", all, markup(Piece::Tables))?;
    Ok(())
}

fn push_styled(out: &mut Vec<u8>, name: &Text) -> Result<(), AllocError>
    ensures { OnOk result (out.new.items ≡ out.old.items ++ styled name.now) }
{
    push_between(out, markup(Piece::Head), name, markup(Piece::StyleOpen))?;
    out.extend_from_slice(style())?;
    push(out, Piece::StyleClose)?;
    Ok(())
}

fn state_piece(loaded: bool) -> Piece
    ensures { result ≡ state_piece loaded }
{
    if loaded {
        Piece::AsRead
    } else {
        Piece::AfterScript
    }
}

// The tables, and the rules with their bars.
fn push_overview(
    out: &mut Vec<u8>,
    rules: &RuleBook,
    rows: &RowCounts,
    counts: &Counts,
) -> Result<(), AllocError>
    ensures { OnOk result (out.new.items ≡ out.old.items ++ overview_text rules.now rows.now counts.now) }
{
    let tables = rules.schema().tables.as_slice();
    push_tables(out, tables, rows)?;
    push(out, Piece::Rules)?;
    let largest = counts.largest;
    push_rules(
        out,
        tables,
        rules.deps().as_slice(),
        counts.deps.as_slice(),
        largest,
    )?;
    push_rules(
        out,
        tables,
        rules.cinds().as_slice(),
        counts.cinds.as_slice(),
        largest,
    )?;
    push(out, Piece::RulesEnd)?;
    Ok(())
}

fn push_all_sections(
    out: &mut Vec<u8>,
    rules: &RuleBook,
    rows: &RowCounts,
    first: usize,
    counts: &Counts,
    findings: &Findings,
) -> Result<(), AllocError>
    ensures { OnOk result (out.new.items ≡ out.old.items ++ sections_text rules.now rows.now first counts.now findings.now) }
{
    let tables = rules.schema().tables.as_slice();
    let read = rows.read.as_slice();
    push_sections(
        out,
        tables,
        rules.deps().as_slice(),
        read,
        first,
        counts.deps.as_slice(),
        findings.deps.as_slice(),
    )?;
    push_sections(
        out,
        tables,
        rules.cinds().as_slice(),
        read,
        first,
        counts.cinds.as_slice(),
        findings.cinds.as_slice(),
    )?;
    Ok(())
}
