//! The schema, the rules and the rows of the generated project.

ghost use Rattle.std.specs.Prelude.{◌≡◌, IfOk, Ok, decimal};
ghost use Rattle.text_lists.specs.Limits.{standard};
ghost use Rattle.schema_core.specs.SchemaFiles as schema_files;
ghost use Rattle.schema_core.specs.Schemas.{IsValidSchema};
ghost use Rattle.drawn_project.specs.Project.{AreRules, lettered, master_row, master_rows, row, rows, schema_text};

use crate::draws::Draws;
use rule_model::RuleBook;
use rule_parser::parse_rules;
use schema_core::{Limits, List, Schema, Text, Texts, parse_schema};
use std::alloc::{AllocError, Global};

const SCHEMA: &[u8] =
    b"table g 'g.csv'\nattr k\nattr a\nattr b\nattr f in '0', '1', '2'\nmaster m 'm.csv'\nattr k\nattr a\n";

const RULES: &[u8] =
    b"cfd g1 g: [k] -> [a]\nrow _ || _\ncfd g2 g: [f, k] -> [b]\nrow '0', _ || _\nrow '1', _ || 'b0'\ncind g3 g[k; f] in m[k; ]\nrow '2' ||\nedit g4 g using m: k=k gives a=a\n";

// ---- schema and rules

fn schema(alloc: Global) -> Result<Schema, AllocError>
    ensures spelled { IfOk result (λ schema. schema_files.reads standard schema_text ≡ Ok schema) }
    ensures valid { IfOk result IsValidSchema }
{
    match parse_schema(alloc, SCHEMA, &Limits::standard()) {
        Ok(schema) => Ok(schema),
        // The text is one of a schema, so nothing but memory can be missing.
        Err(_) => Err(AllocError),
    }
}

pub fn rules(alloc: Global) -> Result<RuleBook, AllocError>
    ensures { IfOk result AreRules }
{
    let schema = schema(alloc)?;
    match parse_rules(alloc, schema, RULES, &Limits::standard()) {
        Ok(rules) => Ok(rules),
        // The text is one of rules without fault.
        Err(_) => Err(AllocError),
    }
}

// ---- rows

/// A letter with a number in digits.
pub fn lettered(alloc: Global, letter: &str, number: u64) -> Result<Text, AllocError>
    ensures { IfOk result (λ text. text ≡ lettered letter.now number) }
{
    Text::from_string(alloc, format!(in alloc; "{letter}{number}")?)
}

fn digits(alloc: Global, number: u64) -> Result<Text, AllocError>
    ensures { IfOk result (λ text. text ≡ decimal number) }
{
    Text::from_string(alloc, format!(in alloc; "{number}")?)
}

/// A row of g.
pub fn draw_row(alloc: Global, draws: &mut Draws) -> Result<Texts, AllocError>
    ensures { IfOk result (λ drawn. (drawn, draws.new) ≡ row draws.old) }
{
    let k = draws.draw(5_000);
    let a = draws.draw(7);
    let b = draws.draw(3);
    let f = draws.draw(3);
    let mut row = List::new(alloc);
    row.push(lettered(alloc, "k", k)?)?;
    row.push(lettered(alloc, "a", a)?)?;
    row.push(lettered(alloc, "b", b)?)?;
    row.push(digits(alloc, f)?)?;
    Ok(row)
}

/// The rows of g.
pub fn draw_rows(alloc: Global, draws: &mut Draws) -> Result<List<Texts>, AllocError>
    ensures { IfOk result (λ drawn. (drawn, draws.new) ≡ rows draws.old) }
{
    let mut rows = List::new(alloc);
    for place in 0..20_000u64 {
        rows.push(draw_row(alloc, draws)?)?;
    }
    Ok(rows)
}

fn master_row(alloc: Global, number: u64) -> Result<Texts, AllocError>
    ensures { IfOk result (λ made. made ≡ master_row number) }
{
    let mut row = List::new(alloc);
    row.push(lettered(alloc, "k", number)?)?;
    row.push(lettered(alloc, "a", number % 7)?)?;
    Ok(row)
}

/// So many rows of m.
pub fn master_rows(alloc: Global, count: u64) -> Result<List<Texts>, AllocError>
    ensures { IfOk result (λ made. made ≡ master_rows count) }
{
    let mut rows = List::new(alloc);
    for number in 0..count {
        rows.push(master_row(alloc, number)?)?;
    }
    Ok(rows)
}
