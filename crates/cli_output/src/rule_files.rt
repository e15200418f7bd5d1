//! The schema and the rules of a project, in the order in which they are fetched and read. `left` is everywhere how many
//! bytes the files that are still to come may have together.
ghost use Rattle.std.specs.Prelude.{IfOk};
ghost use Rattle.text_lists.specs.Limits.{AreLimits};
ghost use Rattle.schema_core.specs.Schemas.{IsValidSchema};
ghost use Rattle.schema_core.specs.SchemaFiles as schema_file;
ghost use Rattle.rule_parser.specs.RuleFiles as rule_file;
ghost use Rattle.cli_output.specs.Fetching.{Fetches, Reads, about};
ghost use Rattle.cli_output.specs.RuleFiles.{fetch_book, fetch_rules, fetch_schema, spelled};

use crate::fetching::{Stop, fetch_file, refused};
use crate::refusal::Cause;
use rule_model::RuleBook;
use rule_parser::{ParseFault, parse_rules};
use schema_core::{Limits, Schema, SchemaFault, Text, parse_schema};
use shelf_io::Shelf;
use std::alloc::Global;

/// The rules of the project of the named schema file, and no other file of it.
#[tactic(auto, unfolding(crate::specs::RuleFiles::fetch_book))]
pub fn fetch_book<S: Shelf>(
    alloc: Global,
    shelf: &mut S,
    name: &Text,
    limits: &Limits,
    left: &mut u64,
) -> Result<RuleBook, Stop>
    requires { AreLimits limits.now }
    ensures { Fetches (fetch_book limits.now name.now) (λ rules. rules) 2 result (S.told shelf.old) (S.told shelf.new) left.old left.new }
{
    let schema = fetch_schema(alloc, shelf, name, limits, left)?;
    fetch_rules(alloc, shelf, schema, limits, left)
}

/// The schema of the named file.
#[tactic(auto, unfolding(crate::specs::RuleFiles::fetch_schema))]
pub fn fetch_schema<S: Shelf>(
    alloc: Global,
    shelf: &mut S,
    name: &Text,
    limits: &Limits,
    left: &mut u64,
) -> Result<Schema, Stop>
    requires { AreLimits limits.now }
    ensures schema { Fetches (fetch_schema limits.now name.now) (λ schema. schema) 1 result (S.told shelf.old) (S.told shelf.new) left.old left.new }
    ensures valid { IfOk result IsValidSchema }
{
    let bytes = fetch_file(shelf, name, limits, left)?;
    schema_of(alloc, name, &bytes, limits)
}

/// The rules of the file that the schema names. Where it names none there is no rule.
pub fn fetch_rules<S: Shelf>(
    alloc: Global,
    shelf: &mut S,
    schema: Schema,
    limits: &Limits,
    left: &mut u64,
) -> Result<RuleBook, Stop>
    requires valid { IsValidSchema schema }
    requires limits { AreLimits limits.now }
    ensures { Fetches (fetch_rules limits.now schema) (λ rules. rules) 1 result (S.told shelf.old) (S.told shelf.new) left.old left.new }
{
    let Some(name) = &schema.rules else {
        return Ok(RuleBook::new(alloc, schema, *limits));
    };
    let name = name.clone()?;
    let bytes = fetch_file(shelf, &name, limits, left)?;
    rules_of(alloc, schema, &name, &bytes, limits)
}

// What the bytes of a file spell. A fault refuses the file.

fn schema_of(alloc: Global, name: &Text, bytes: &[u8], limits: &Limits) -> Result<Schema, Stop>
    requires { AreLimits limits.now }
    ensures schema { Reads (about name.now (spelled Cause.Schema (schema_file.reads limits.now bytes.now))) (λ schema. schema) result }
    ensures valid { IfOk result IsValidSchema }
{
    match parse_schema(alloc, bytes, limits) {
        Ok(schema) => Ok(schema),
        Err(SchemaFault::At { line, cause }) => refused(name, Cause::Schema { line, cause }),
        Err(SchemaFault::Memory) => Err(Stop::Memory),
    }
}

fn rules_of(
    alloc: Global,
    schema: Schema,
    name: &Text,
    bytes: &[u8],
    limits: &Limits,
) -> Result<RuleBook, Stop>
    requires valid { IsValidSchema schema }
    requires limits { AreLimits limits.now }
    ensures { Reads (about name.now (spelled Cause.Rules (rule_file.reads schema limits.now bytes.now))) (λ rules. rules) result }
{
    match parse_rules(alloc, schema, bytes, limits) {
        Ok(rules) => Ok(rules),
        Err(ParseFault::At { line, cause }) => refused(name, Cause::Rules { line, cause }),
        Err(ParseFault::Memory) => Err(Stop::Memory),
    }
}
