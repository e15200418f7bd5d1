//! The canonical text of a schema.

ghost use Rattle.std.specs.Prelude.{◌≡◌, ◌∷◌, [], ◌++◌, IfOk, OnOk, Ok};
ghost use Rattle.text_lists.specs.Limits.{standard};
ghost use Rattle.schema_core.specs.Schemas.{IsValidSchema};
ghost use Rattle.line_grammar.specs.Spelling.{line_text, file_text};
ghost use Rattle.schema_core.specs.SchemaText.{value_parts, domain_parts, attr_line, table_word, head_line, table_lines, file_lines, canonical};
ghost use Rattle.schema_core.specs.SchemaFiles.{reads};

use crate::schema::{Attr, Domain, Schema, Table};
use line_grammar::{Writes, push_quoted, push_spaced_list};
use std::alloc::{AllocError, Global};
use text_lists::Text;

/// The values of a domain.
struct Values;

impl Writes<Text> for Values {
    ghost written = { value_parts };

    fn push(out: &mut Vec<u8>, value: &Text) -> Result<(), AllocError> {
        push_quoted(out, value.as_str())
    }
}

fn push_domain(out: &mut Vec<u8>, domain: &Domain) -> Result<(), AllocError>
    ensures { OnOk result (out.new.items ≡ out.old.items ++ line_text (domain_parts domain.now)) }
{
    match domain {
        Domain::AnyText => Ok(()),
        Domain::Finite(values) => {
            out.extend_from_slice(b" in")?;
            push_spaced_list::<Values, Text>(out, values.as_slice())
        }
    }
}

fn push_attr(out: &mut Vec<u8>, attr: &Attr) -> Result<(), AllocError>
    ensures { OnOk result (out.new.items ≡ out.old.items ++ (line_text (attr_line attr.now) ++ 10 ∷ [])) }
{
    out.extend_from_slice(b"attr ")?;
    out.extend_from_slice(attr.name.as_str().as_bytes())?;
    push_domain(out, &attr.domain)?;
    out.extend_from_slice(b"\n")
}

/// The word that the line of a table begins with.
fn table_word(master: bool) -> &'static str
    ensures { result.now ≡ table_word master }
{
    if master { "master" } else { "table" }
}

fn push_head(out: &mut Vec<u8>, table: &Table) -> Result<(), AllocError>
    ensures { OnOk result (out.new.items ≡ out.old.items ++ (line_text (head_line table.now) ++ 10 ∷ [])) }
{
    out.extend_from_slice(table_word(table.master).as_bytes())?;
    out.extend_from_slice(b" ")?;
    out.extend_from_slice(table.name.as_str().as_bytes())?;
    out.extend_from_slice(b" ")?;
    push_quoted(out, table.file.as_str())?;
    out.extend_from_slice(b"\n")
}

fn push_table(out: &mut Vec<u8>, table: &Table) -> Result<(), AllocError>
    ensures { OnOk result (out.new.items ≡ out.old.items ++ file_text (table_lines table.now)) }
{
    push_head(out, table)?;
    for attr in table.attrs.as_slice() {
        push_attr(out, attr)?;
    }
    Ok(())
}

/// The line of a file, where there is one.
fn push_file(out: &mut Vec<u8>, word: &str, file: &Option<Text>) -> Result<(), AllocError>
    ensures { OnOk result (out.new.items ≡ out.old.items ++ file_text (file_lines word.now file.now)) }
{
    let Some(file) = file else {
        return Ok(());
    };
    out.extend_from_slice(word.as_bytes())?;
    out.extend_from_slice(b" ")?;
    push_quoted(out, file.as_str())?;
    out.extend_from_slice(b"\n")
}

/// The canonical text of the schema.
pub fn print_schema(alloc: Global, schema: &Schema) -> Result<Vec<u8>, AllocError>
    requires { IsValidSchema schema.now }
    ensures text { IfOk result (λ text. text.items ≡ canonical schema.now) }
    ensures read_again { IfOk result (λ text. reads standard text.items ≡ Ok schema.now) }
{
    let mut out = Vec::new(alloc);
    for table in schema.tables.as_slice() {
        push_table(&mut out, table)?;
    }
    push_file(&mut out, "rules", &schema.rules)?;
    push_file(&mut out, "script", &schema.script)?;
    Ok(out)
}
