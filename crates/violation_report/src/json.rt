//! The JSON report of a list.
//!
//! The text is that of one `serde_json` value, but no such value of all lines is built: it would hold each line once more,
//! with its members in memory. Each line is written by itself, in the frame of its rule.

ghost use Rattle.std.specs.Prelude.{◌≡◌, ◌++◌, ◌+◌, ◌*◌, ◌≤◌, [], ◌∷◌, codes, decimal, IfOk, OnOk};
ghost use Rattle.std.specs.List.{concat};
ghost use Rattle.serde_json.specs.Written.{comma_if};
ghost use Rattle.violation_report.specs.Frames.{framed_text, middle_text};
ghost use Rattle.violation_report.specs.Listing.{listing};
ghost use Rattle.bench_core.specs.DirtyCounts.{list_probes};
ghost use Rattle.violation_report.specs.Report.{report_text};
ghost use Rattle.violation_report.specs.Text.{IsLineOf, told_of};
ghost use Rattle.violation_report.specs.Told.{as_told, partner_piece};

use crate::counting::count;
use crate::frame::Frame;
use crate::line::{Line, push_all};
use crate::taker::Taker;
use crate::told::Told;
use crate::walking::walk;
use bench_core::BenchQueries;
use itoa::Buffer;
use line_grammar::push_number;
use probe_steps::Steps;
use row_store::RowId;
use rule_model::RuleBook;
use std::alloc::{AllocError, Global};
use std::sync::ledger::Ledger;

/// The report of the list, as one line of JSON with its end: how many lines it has, and each by its parts. The list isn't
/// made. It is gone over twice, since its length stands before its lines.
pub fn json_report<L: Ledger>(
    alloc: Global,
    bench: &BenchQueries<'_>,
    steps: &mut Steps<L>,
) -> Result<Vec<u8>, AllocError>
    ensures report { IfOk result (λ report. report.items ≡ report_text bench.now.rules (listing bench.now.rules bench.now.history.present)) }
    ensures probes { steps.new ≤ steps.old + 2 * list_probes bench.now.rules bench.now.history.present }
{
    let lines = count(bench, steps)?;
    let text = report_head(alloc, lines)?;
    let mut objects = Objects {
        text,
        frame: Frame::new(alloc),
    };
    walk(bench, &mut objects, steps)?;
    let mut report = objects.text;
    report.extend_from_slice(b"]}\n")?;
    Ok(report)
}

fn report_head(alloc: Global, lines: usize) -> Result<Vec<u8>, AllocError>
    ensures { IfOk result (λ head. head.items ≡ concat (codes "{\"count\":" ∷ decimal lines ∷ codes ",\"lines\":[" ∷ [])) }
{
    let mut head = Vec::new(alloc);
    let mut number = Buffer::new();
    push_all(
        &[
            b"{\"count\":",
            number.format(lines).as_bytes(),
            b",\"lines\":[",
        ],
        &mut head,
    )?;
    Ok(head)
}

/// Appends the objects of the lines with commas between them.
#[derive(Drop)]
pub(crate) struct Objects {
    pub text: Vec<u8>,
    /// of the rule of the last line, and of none where no line was put yet
    pub frame: Frame,
}

impl Taker for Objects {
    ghost use Rattle.violation_report.specs.Written.{AreWritten};

    ghost Took = { AreWritten };

    fn put(&mut self, rules: &RuleBook, line: Line) -> Result<(), AllocError> {
        let later = self.frame.rule.is_some();
        self.frame.fit(rules, &line)?;
        push_object(rules, &self.frame, later, &line, &mut self.text)?;
        Ok(())
    }
}

// Appends the object of a line in the frame of its rule, after a comma where others stand before.
fn push_object(
    rules: &RuleBook,
    frame: &Frame,
    later: bool,
    line: &Line,
    out: &mut Vec<u8>,
) -> Result<(), AllocError>
    requires { IsLineOf rules.now line.now }
    ensures { OnOk result (out.new.items ≡ out.old.items ++ (comma_if later ++ framed_text frame.now.front.items frame.now.back.items (told_of rules.now line.now))) }
{
    let told = Told::of(rules, line);
    out.extend_from_slice(comma(later))?;
    out.extend_from_slice(frame.front.as_slice())?;
    push_middle(&told, out)?;
    out.extend_from_slice(frame.back.as_slice())?;
    push_number(out, told.number as u64)?;
    out.push(b'}')?;
    Ok(())
}

// Appends what stands between the front and the back of a frame.
fn push_middle(told: &Told<'_>, out: &mut Vec<u8>) -> Result<(), AllocError>
    ensures { OnOk result (out.new.items ≡ out.old.items ++ middle_text (as_told told.now)) }
{
    push_all(&[told.kind.as_bytes(), b"\""], out)?;
    push_partner(told.partner, out)?;
    push_member(b",\"row\":", told.row, out)
}

fn push_partner(partner: Option<RowId>, out: &mut Vec<u8>) -> Result<(), AllocError>
    ensures { OnOk result (out.new.items ≡ out.old.items ++ partner_piece partner) }
{
    match partner {
        Some(partner) => push_member(b",\"partner\":", partner, out),
        None => Ok(()),
    }
}

fn push_member(key: &[u8], number: u64, out: &mut Vec<u8>) -> Result<(), AllocError>
    ensures { OnOk result (out.new.items ≡ out.old.items ++ (key.now ++ decimal number)) }
{
    let mut digits = Buffer::new();
    push_all(&[key, digits.format(number).as_bytes()], out)
}

fn comma(later: bool) -> &'static [u8]
    ensures { result.now ≡ comma_if later }
{
    if later { b"," } else { b"" }
}
