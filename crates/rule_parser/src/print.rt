//! The canonical text of rules.

ghost use Rattle.std.specs.Prelude.{◌≡◌, ◌<◌, ◌++◌, [], ◌∷◌, length, map, OnOk, IfOk, Ok};
ghost use Rattle.std.specs.List.{flat_map, zip};
ghost use Rattle.line_grammar.specs.Spelling.{line_text, file_text, after_comma, spaced_list};
ghost use Rattle.rule_parser.specs.RuleText.{attr_parts, value_parts, attrs_parts, members_parts, cell_parts, row_line, pair_parts, pattern_parts, cfd_parts, cfd_line, side_parts, cind_line, when_parts, gives_parts, edit_names, edit_line, cfd_row_line, cind_row_line, decl_lines, canonical, table_name, attr_name, dep_row, dep_line};
ghost use Rattle.rule_parser.specs.RuleFiles.{reads, reads_dep};
ghost use Rattle.schema_core.specs.Lookups.{attrs_at};
ghost use Rattle.rule_model.specs.Rules.{IsValidDep, AreAttrsOf};

use cfd_semantics::Pattern;
use rule_model::{
    Cell, CfdDecl, CfdRow, CindDecl, CindRow, Decl, Dep, DepRow, EditCell, EditDecl, RuleBook,
};
use schema_core::{
    Attr, List, Schema, Table, Text, Texts, Writes, push_list, push_quoted, push_spaced_list,
};
use std::alloc::{AllocError, Global};
use std::slice;

// ---- parts of lines

/// Names of attributes.
struct Attrs;

impl Writes<Text> for Attrs {
    ghost written = { attr_parts };

    fn push(out: &mut Vec<u8>, attr: &Text) -> Result<(), AllocError> {
        out.extend_from_slice(attr.as_str().as_bytes())
    }
}

/// Constants, as lists of them are written.
pub struct Values;

impl Writes<Text> for Values {
    ghost written = { value_parts };

    fn push(out: &mut Vec<u8>, value: &Text) -> Result<(), AllocError> {
        push_quoted(out, value.as_str())
    }
}

fn push_attrs(out: &mut Vec<u8>, attrs: &[Text]) -> Result<(), AllocError>
    ensures { OnOk result (out.new.items ≡ out.old.items ++ line_text (attrs_parts attrs.now)) }
{
    out.push(b'[')?;
    push_list::<Attrs, Text>(out, attrs)?;
    out.extend_from_slice(b"]")
}

fn push_members(out: &mut Vec<u8>, members: &[Text]) -> Result<(), AllocError>
    ensures { OnOk result (out.new.items ≡ out.old.items ++ line_text (members_parts members.now)) }
{
    out.push(b'{')?;
    push_list::<Values, Text>(out, members)?;
    out.extend_from_slice(b"}")
}

/// Cells of a tableau, as lists of them are written.
pub struct Cells;

impl Writes<Cell> for Cells {
    ghost written = { cell_parts };

    fn push(out: &mut Vec<u8>, cell: &Cell) -> Result<(), AllocError> {
        match cell {
            Pattern::Any => out.extend_from_slice(b"_"),
            Pattern::Is(value) => push_quoted(out, value.as_str()),
            Pattern::In(members) => {
                out.extend_from_slice(b"in ")?;
                push_members(out, members.as_slice())
            }
            Pattern::NotIn(members) => {
                out.extend_from_slice(b"not ")?;
                push_members(out, members.as_slice())
            }
        }
    }
}

/// What an editing rule asks of attributes.
struct Patterns;

impl Writes<(Text, EditCell)> for Patterns {
    ghost written = { pattern_parts };

    fn push(out: &mut Vec<u8>, pattern: &(Text, EditCell)) -> Result<(), AllocError> {
        out.extend_from_slice(pattern.0.as_str().as_bytes())?;
        match &pattern.1 {
            EditCell::Any => out.extend_from_slice(b"=_"),
            EditCell::Is(value) => {
                out.push(b'=')?;
                push_quoted(out, value.as_str())
            }
            EditCell::Not(value) => {
                out.extend_from_slice(b"!=")?;
                push_quoted(out, value.as_str())
            }
        }
    }
}

/// An attribute, and one of the master table.
fn push_pair(out: &mut Vec<u8>, left: &Text, right: &Text) -> Result<(), AllocError>
    ensures { OnOk result (out.new.items ≡ out.old.items ++ line_text (pair_parts (left.now, right.now))) }
{
    out.extend_from_slice(left.as_str().as_bytes())?;
    out.push(b'=')?;
    out.extend_from_slice(right.as_str().as_bytes())
}

/// Further pairs of a list, each behind a comma.
fn push_further_pairs(out: &mut Vec<u8>, left: &[Text], right: &[Text]) -> Result<(), AllocError>
    ensures { OnOk result (out.new.items ≡ out.old.items ++ line_text (flat_map (after_comma pair_parts) (zip left.now right.now))) }
{
    for i in 0..left.len().min(right.len()) {
        out.extend_from_slice(b", ")?;
        push_pair(out, &left[i], &right[i])?;
    }
    Ok(())
}

fn push_pairs(out: &mut Vec<u8>, left: &[Text], right: &[Text]) -> Result<(), AllocError>
    ensures { OnOk result (out.new.items ≡ out.old.items ++ line_text (spaced_list pair_parts (zip left.now right.now))) }
{
    let Some((column, columns)) = left.split_first() else {
        return Ok(());
    };
    let Some((master, masters)) = right.split_first() else {
        return Ok(());
    };
    out.push(b' ')?;
    push_pair(out, column, master)?;
    push_further_pairs(out, columns, masters)
}

// ---- declarations

/// A table with two lists of its attributes, as a dependency names them.
pub fn push_sides(
    out: &mut Vec<u8>,
    table: &Text,
    left: &[Text],
    right: &[Text],
) -> Result<(), AllocError>
    ensures { OnOk result (out.new.items ≡ out.old.items ++ line_text (cfd_parts table.now left.now right.now)) }
{
    out.extend_from_slice(table.as_str().as_bytes())?;
    out.extend_from_slice(b": ")?;
    push_attrs(out, left)?;
    out.extend_from_slice(b" -> ")?;
    push_attrs(out, right)
}

/// The word that a declaration begins with, with its space, and the name and a space.
fn push_front(out: &mut Vec<u8>, word: &[u8], name: &Text) -> Result<(), AllocError>
    ensures { OnOk result (out.new.items ≡ out.old.items ++ (word.now ++ (name.now ++ 32 ∷ []))) }
{
    out.extend_from_slice(word)?;
    out.extend_from_slice(name.as_str().as_bytes())?;
    out.extend_from_slice(b" ")
}

fn push_cfd(out: &mut Vec<u8>, cfd: &CfdDecl) -> Result<(), AllocError>
    ensures { OnOk result (out.new.items ≡ out.old.items ++ line_text (cfd_line cfd.now)) }
{
    push_front(out, b"cfd ", &cfd.name)?;
    push_sides(out, &cfd.table, cfd.x.as_slice(), cfd.y.as_slice())
}

/// A side of an inclusion dependency: a table, its columns, and the attributes that have constants.
fn push_side(
    out: &mut Vec<u8>,
    table: &Text,
    key: &[Text],
    pattern: &[Text],
) -> Result<(), AllocError>
    ensures { OnOk result (out.new.items ≡ out.old.items ++ line_text (side_parts table.now key.now pattern.now)) }
{
    out.extend_from_slice(table.as_str().as_bytes())?;
    out.push(b'[')?;
    push_list::<Attrs, Text>(out, key)?;
    out.extend_from_slice(b"; ")?;
    push_list::<Attrs, Text>(out, pattern)?;
    out.extend_from_slice(b"]")
}

fn push_cind(out: &mut Vec<u8>, cind: &CindDecl) -> Result<(), AllocError>
    ensures { OnOk result (out.new.items ≡ out.old.items ++ line_text (cind_line cind.now)) }
{
    push_front(out, b"cind ", &cind.name)?;
    push_side(out, &cind.left, cind.x.as_slice(), cind.xp.as_slice())?;
    out.extend_from_slice(b" in ")?;
    push_side(out, &cind.right, cind.y.as_slice(), cind.yp.as_slice())
}

fn push_when(out: &mut Vec<u8>, pattern: &[(Text, EditCell)]) -> Result<(), AllocError>
    ensures { OnOk result (out.new.items ≡ out.old.items ++ line_text (when_parts pattern.now)) }
{
    if pattern.is_empty() {
        return Ok(());
    }
    out.extend_from_slice(b" when")?;
    push_spaced_list::<Patterns, (Text, EditCell)>(out, pattern)
}

fn push_gives(out: &mut Vec<u8>, edit: &EditDecl) -> Result<(), AllocError>
    ensures { OnOk result (out.new.items ≡ out.old.items ++ line_text (gives_parts edit.now)) }
{
    out.extend_from_slice(b" gives ")?;
    push_pair(out, &edit.target, &edit.source)?;
    push_when(out, edit.when.as_slice())
}

fn push_edit_names(out: &mut Vec<u8>, edit: &EditDecl) -> Result<(), AllocError>
    ensures { OnOk result (out.new.items ≡ out.old.items ++ line_text (edit_names edit.now)) }
{
    push_front(out, b"edit ", &edit.name)?;
    out.extend_from_slice(edit.table.as_str().as_bytes())?;
    out.extend_from_slice(b" using ")?;
    out.extend_from_slice(edit.master.as_str().as_bytes())?;
    out.extend_from_slice(b":")
}

fn push_edit(out: &mut Vec<u8>, edit: &EditDecl) -> Result<(), AllocError>
    ensures { OnOk result (out.new.items ≡ out.old.items ++ line_text (edit_line edit.now)) }
{
    push_edit_names(out, edit)?;
    push_pairs(out, edit.x.as_slice(), edit.xm.as_slice())?;
    push_gives(out, edit)
}

// ---- rows

/// A tableau row: a list on each side of the bars.
pub fn push_row<W: Writes<T>, T>(
    out: &mut Vec<u8>,
    left: &[T],
    right: &[T],
) -> Result<(), AllocError>
    ensures { OnOk result (out.new.items ≡ out.old.items ++ line_text (row_line W.written left.now right.now)) }
{
    out.extend_from_slice(b"row")?;
    push_spaced_list::<W, T>(out, left)?;
    out.extend_from_slice(b" ||")?;
    push_spaced_list::<W, T>(out, right)
}

fn push_cfd_rows(out: &mut Vec<u8>, rows: &[CfdRow]) -> Result<(), AllocError>
    ensures { OnOk result (out.new.items ≡ out.old.items ++ file_text (map cfd_row_line rows.now)) }
{
    for row in rows {
        push_row::<Cells, Cell>(out, row.x.as_slice(), row.y.as_slice())?;
        out.push(b'\n')?;
    }
    Ok(())
}

fn push_cind_rows(out: &mut Vec<u8>, rows: &[CindRow]) -> Result<(), AllocError>
    ensures { OnOk result (out.new.items ≡ out.old.items ++ file_text (map cind_row_line rows.now)) }
{
    for row in rows {
        push_row::<Values, Text>(out, row.xp.as_slice(), row.yp.as_slice())?;
        out.push(b'\n')?;
    }
    Ok(())
}

fn push_decl(out: &mut Vec<u8>, decl: &Decl) -> Result<(), AllocError>
    ensures { OnOk result (out.new.items ≡ out.old.items ++ file_text (decl_lines decl.now)) }
{
    match decl {
        Decl::Cfd(cfd) => {
            push_cfd(out, cfd)?;
            out.push(b'\n')?;
            push_cfd_rows(out, cfd.rows.as_slice())
        }
        Decl::Cind(cind) => {
            push_cind(out, cind)?;
            out.push(b'\n')?;
            push_cind_rows(out, cind.rows.as_slice())
        }
        Decl::Edit(edit) => {
            push_edit(out, edit)?;
            out.extend_from_slice(b"\n")
        }
    }
}

/// The canonical text of the declarations of a book.
pub fn print_rules(alloc: Global, book: &RuleBook) -> Result<Vec<u8>, AllocError>
    ensures text { IfOk result (λ text. text.items ≡ canonical book.now.decls) }
    ensures read_again { IfOk result (λ text. reads book.now.schema book.now.limits text.items ≡ Ok book.now) }
{
    let mut out = Vec::new(alloc);
    for decl in book.decls().as_slice() {
        push_decl(&mut out, decl)?;
    }
    Ok(out)
}

// ---- one dependency

fn table_at(schema: &Schema, number: usize) -> &Table
    requires { number < length schema.now.tables }
    ensures name { result.now.name ≡ table_name schema.now number }
    ensures attrs { result.now.attrs ≡ attrs_at schema.now number }
{
    &schema.tables.as_slice()[number]
}

/// The name of an attribute of a table, by its number.
pub fn attr_name(attrs: &[Attr], number: usize) -> &Text
    requires { number < length attrs.now }
    ensures { result.now ≡ attr_name attrs.now number }
{
    &attrs[number].name
}

/// Those of several.
pub fn attr_names(alloc: Global, attrs: &[Attr], numbers: &[usize]) -> Result<Texts, AllocError>
    requires { AreAttrsOf attrs.now numbers.now }
    ensures { IfOk result (λ names. names ≡ map (attr_name attrs.now) numbers.now) }
{
    let mut names = List::new(alloc);
    for number in numbers {
        names.push(attr_name(attrs, *number).clone()?)?;
    }
    Ok(names)
}

fn push_dep_rows(out: &mut Vec<u8>, rows: &[DepRow]) -> Result<(), AllocError>
    ensures { OnOk result (out.new.items ≡ out.old.items ++ line_text (flat_map dep_row rows.now)) }
{
    for row in rows {
        out.push(b' ')?;
        push_row::<Cells, Cell>(out, row.x.as_slice(), slice::from_ref(&row.a))?;
    }
    Ok(())
}

fn push_dep(alloc: Global, out: &mut Vec<u8>, schema: &Schema, dep: &Dep) -> Result<(), AllocError>
    requires { IsValidDep schema.now dep.now }
    ensures { OnOk result (out.new.items ≡ out.old.items ++ line_text (dep_line schema.now dep.now)) }
{
    let table = table_at(schema, dep.table);
    let attrs = table.attrs.as_slice();
    let left = attr_names(alloc, attrs, dep.rule.x.as_slice())?;
    let right = attr_names(alloc, attrs, slice::from_ref(&dep.rule.a))?;
    push_sides(out, &table.name, left.as_slice(), right.as_slice())?;
    push_dep_rows(out, dep.rule.rows.as_slice())
}

/// The canonical text of one dependency, on one line without its end and without the dependency's name.
pub fn print_dep(alloc: Global, book: &RuleBook, dep: &Dep) -> Result<Vec<u8>, AllocError>
    requires valid { IsValidDep book.now.schema dep.now }
    requires row { length dep.now.rule.rows ≡ 1 }
    ensures text { IfOk result (λ text. text.items ≡ line_text (dep_line book.now.schema dep.now)) }
    ensures read_again { IfOk result (λ text. reads_dep book.now.schema text.items ≡ Ok (record dep.now { name = [] })) }
{
    let mut out = Vec::new(alloc);
    push_dep(alloc, &mut out, book.schema(), dep)?;
    Ok(out)
}
