//! The text of what is found.
ghost use Rattle.std.specs.Prelude.{◌≡◌, ◌++◌, ◌<◌, map, All, IfOk, OnOk};
ghost use Rattle.std.specs.List.{flat_map};
ghost use Rattle.line_grammar.specs.Spelling.{file_text, line_text};
ghost use Rattle.rule_model.specs.declared.dep.Dep.{Dep};
ghost use Rattle.rule_parser.specs.RuleText.{canonical, cfd_line, cfd_row_line, decl_lines};
ghost use Rattle.dep_finder.specs.Deps.{IsOver};
ghost use Rattle.dep_finder.specs.FoundText.{decl_of, found_text, head_of, row_decl};
ghost use Rattle.dep_finder.specs.ReadAgain.{IsReadAs};

use rule_model::{Cell, Dep, DepRow};
use rule_parser::{Cells, attr_names, push_row, push_sides};
use schema_core::{List, Table, push_number};
use std::alloc::{AllocError, Global};
use std::slice;

/// The rule file of dependencies of a table, with a comment that tells how many there are. Where they are valid, have names of
/// their own, and are as few as the limits allow, it is read as them.
pub fn found_text(alloc: Global, table: &Table, found: &List<Dep>) -> Result<Vec<u8>, AllocError>
    requires { All (IsOver table.now.attrs) found.now }
    ensures text { IfOk result (λ text. text.items ≡ found_text table.now found.now) }
    ensures again { IfOk result (λ text. IsReadAs table.now found.now text.items) }
{
    text_of(alloc, table, found.as_slice())
}

#[tactic(auto, unfolding(rule_parser::specs::RuleText::canonical))]
fn text_of(alloc: Global, table: &Table, found: &[Dep]) -> Result<Vec<u8>, AllocError>
    requires { All (IsOver table.now.attrs) found.now }
    ensures { IfOk result (λ text. text.items ≡ found_text table.now found.now) }
{
    let mut text = Vec::new(alloc);
    push_found(alloc, &mut text, table, found)?;
    text.extend_from_slice(b"# found ")?;
    push_number(&mut text, found.len() as u64)?;
    text.push(b'\n')?;
    Ok(text)
}

fn push_found(
    alloc: Global,
    text: &mut Vec<u8>,
    table: &Table,
    found: &[Dep],
) -> Result<(), AllocError>
    requires { All (IsOver table.now.attrs) found.now }
    ensures { OnOk result (text.new.items ≡ text.old.items ++ file_text (flat_map decl_lines (map (decl_of table.now) found.now))) }
{
    for dep in found {
        push_dep(alloc, text, table, dep)?;
    }
    Ok(())
}

fn push_dep(alloc: Global, text: &mut Vec<u8>, table: &Table, dep: &Dep) -> Result<(), AllocError>
    requires { IsOver table.now.attrs dep.now }
    ensures { OnOk result (text.new.items ≡ text.old.items ++ file_text (decl_lines (decl_of table.now dep.now))) }
{
    push_head(alloc, text, table, dep)?;
    text.push(b'\n')?;
    push_rows(text, dep.rule.rows.as_slice())
}

fn push_head(alloc: Global, text: &mut Vec<u8>, table: &Table, dep: &Dep) -> Result<(), AllocError>
    requires { IsOver table.now.attrs dep.now }
    ensures { OnOk result (text.new.items ≡ text.old.items ++ line_text (cfd_line (head_of table.now dep.now))) }
{
    let attrs = table.attrs.as_slice();
    let left = attr_names(alloc, attrs, dep.rule.x.as_slice())?;
    let right = attr_names(alloc, attrs, slice::from_ref(&dep.rule.a))?;
    text.extend_from_slice(b"cfd ")?;
    text.extend_from_slice(dep.name.as_str().as_bytes())?;
    text.push(b' ')?;
    push_sides(text, &table.name, left.as_slice(), right.as_slice())
}

fn push_rows(text: &mut Vec<u8>, rows: &[DepRow]) -> Result<(), AllocError>
    ensures { OnOk result (text.new.items ≡ text.old.items ++ file_text (map cfd_row_line (map row_decl rows.now))) }
{
    for row in rows {
        push_row::<Cells, Cell>(text, row.x.as_slice(), slice::from_ref(&row.a))?;
        text.push(b'\n')?;
    }
    Ok(())
}
