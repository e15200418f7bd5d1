//! A schema file as a schema.

ghost use Rattle.std.specs.Prelude.{IfOk};
ghost use Rattle.line_grammar.specs.Faults.{IsUnlessMemory, line_tells};
ghost use Rattle.text_lists.specs.Limits.{AreLimits};
ghost use Rattle.schema_core.specs.SchemaFiles.{reads};
ghost use Rattle.schema_core.specs.Schemas.{IsValidSchema};

use crate::schema::{Schema, SchemaFault};
use crate::schema_groups::SchemaGroups;
use line_grammar::read_groups;
use std::alloc::Global;
use text_lists::{Limits, List};

/// The schema that the bytes spell, or the first faulty line with the first cause that it has, in the order of
/// the variants of `SchemaCause`.
#[tactic(auto, unfolding(crate::specs::SchemaFiles::reads))]
pub fn parse_schema(alloc: Global, bytes: &[u8], limits: &Limits) -> Result<Schema, SchemaFault>
    requires { AreLimits limits.now }
    ensures exact { IsUnlessMemory line_tells (reads limits.now bytes.now) result }
    ensures valid { IfOk result IsValidSchema }
{
    let mut groups = SchemaGroups {
        limits: *limits,
        schema: Schema {
            tables: List::new(alloc),
            rules: None,
            script: None,
        },
    };
    read_groups(alloc, &mut groups, "attr", bytes)?;
    Ok(groups.schema)
}
