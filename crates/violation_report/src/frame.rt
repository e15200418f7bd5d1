//! What the objects of the lines of one rule share. Its names are quoted once, by `serde_json`, and not for each line.

ghost use Rattle.std.specs.Prelude.{◌≡◌, ◌++◌, [], None, codes, option_map, IfOk, OnOk};
ghost use Rattle.serde_json.specs.Data.{string};
ghost use Rattle.serde_json.specs.Written.{compact_text};
ghost use Rattle.violation_report.specs.Frames.{IsFrameOf, IsRight, back_text, front_text, rule_of};
ghost use Rattle.violation_report.specs.Text.{IsLineOf, told_of};
ghost use Rattle.violation_report.specs.Told.{as_told, attr_piece};

use crate::line::{Line, push_all};
use crate::rules::Rule;
use crate::told::Told;
use rule_model::RuleBook;
use serde_json::json;
use std::alloc::{AllocError, Global};

/// The pieces of an object that all lines of a rule have.
#[derive(Drop)]
pub(crate) struct Frame {
    /// whose pieces they are: at first no rule's
    pub rule: Option<Rule>,
    /// what stands before the kind of a line
    pub front: Vec<u8>,
    /// what stands between the number of a row and that of a tableau row
    pub back: Vec<u8>,
}

impl Frame {
    pub(crate) fn new(alloc: Global) -> Frame
        ensures { result.rule ≡ None }
    {
        Frame {
            rule: None,
            front: Vec::new(alloc),
            back: Vec::new(alloc),
        }
    }

    /// Turns to the rule of a line. Where it is that of the line before, nothing is made.
    pub(crate) fn fit(&mut self, rules: &RuleBook, line: &Line) -> Result<(), AllocError>
        requires { IsLineOf rules.now line.now }
        ensures { OnOk result (IsRight rules.now self.old → IsFrameOf rules.now (rule_of line.now) self.new) }
    {
        let rule = rule_of(line);
        if self.rule != Some(rule) {
            *self = Frame::of(rules, line, *self.front.allocator())?;
        }
        Ok(())
    }

    // That of the rule of a line.
    fn of(rules: &RuleBook, line: &Line, alloc: Global) -> Result<Frame, AllocError>
        requires { IsLineOf rules.now line.now }
        ensures { IfOk result (IsFrameOf rules.now (rule_of line.now)) }
    {
        let told = Told::of(rules, line);
        Ok(Frame {
            rule: Some(rule_of(line)),
            front: front(&told, alloc)?,
            back: back(&told, alloc)?,
        })
    }
}

fn rule_of(line: &Line) -> Rule
    ensures { result ≡ rule_of line.now }
{
    match line {
        Line::Single { dep, .. } => Rule::Dep(*dep),
        Line::Pair { dep, .. } => Rule::Dep(*dep),
        Line::Orphan { cind, .. } => Rule::Cind(*cind),
    }
}

fn front(told: &Told<'_>, alloc: Global) -> Result<Vec<u8>, AllocError>
    ensures { IfOk result (λ front. front.items ≡ front_text (as_told told.now)) }
{
    let mut front = Vec::new(alloc);
    front.push(b'{')?;
    push_attr(told.attr, &mut front)?;
    front.extend_from_slice(b"\"kind\":\"")?;
    Ok(front)
}

fn push_attr(attr: Option<&str>, out: &mut Vec<u8>) -> Result<(), AllocError>
    ensures { OnOk result (out.new.items ≡ out.old.items ++ attr_piece (option_map (λ name. name.now) attr.entry)) }
{
    match attr {
        Some(attr) => {
            push_name(b"\"attr\":", attr, out)?;
            out.push(b',')?;
            Ok(())
        }
        None => Ok(()),
    }
}

fn back(told: &Told<'_>, alloc: Global) -> Result<Vec<u8>, AllocError>
    ensures { IfOk result (λ back. back.items ≡ back_text (as_told told.now)) }
{
    let mut back = Vec::new(alloc);
    push_name(b",\"rule\":", told.rule, &mut back)?;
    push_name(b",\"table\":", told.table, &mut back)?;
    back.extend_from_slice(b",\"tableau\":")?;
    Ok(back)
}

// Appends a name as a JSON string behind its key.
fn push_name(key: &[u8], name: &str, out: &mut Vec<u8>) -> Result<(), AllocError>
    ensures { OnOk result (out.new.items ≡ out.old.items ++ (key.now ++ compact_text (string name.now))) }
{
    let quoted = json!(in *out.allocator(); name)?.to_vec(*out.allocator())?;
    push_all(&[key, quoted.as_slice()], out)
}
