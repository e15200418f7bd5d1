//! A dependency by itself, of a declaration that joins no book.

ghost use Rattle.std.specs.Prelude.{◌<◌, length, All, IfOk};
ghost use Rattle.rule_model.specs.Declarations.{IsWrittenRow};
ghost use Rattle.rule_model.specs.Faults.{rule_tells, Finds, schema_tests};
ghost use Rattle.line_grammar.specs.Faults.{IsUnlessMemory};
ghost use Rattle.text_lists.specs.Firsts.{first_of};
ghost use Rattle.rule_model.specs.Judged.{judged_dep};
ghost use Rattle.rule_model.specs.Rules.{IsValidDep};

use crate::checks::check_over_schema;
use crate::decl::{CfdDecl, Decl};
use crate::dep::Dep;
use crate::fault::AddFault;
use crate::numbering::dep;
use schema_core::Schema;
use std::alloc::Global;

/// The dependency for the first attribute of the right list of a declaration that has no fault over the schema.
#[tactic(auto, unfolding(crate::specs::Judged::judged_dep))]
pub fn judge_dep(alloc: Global, schema: &Schema, cfd: CfdDecl) -> Result<Dep, AddFault>
    requires right { 0 < length cfd.y }
    requires rows { All IsWrittenRow cfd.rows }
    ensures exact { IsUnlessMemory rule_tells (judged_dep schema.now cfd) result }
    ensures valid { IfOk result (IsValidDep schema.now) }
{
    let dep = dep(alloc, schema, &cfd, 0)?;
    check_cfd(alloc, schema, cfd)?;
    Ok(dep)
}

/// The tests of a declaration of a dependency over a schema alone.
fn check_cfd(alloc: Global, schema: &Schema, cfd: CfdDecl) -> Result<(), AddFault>
    ensures { Finds result (first_of (schema_tests schema.now (Decl.Cfd cfd))) }
{
    let decl = Decl::Cfd(cfd);
    let checked = check_over_schema(alloc, schema, &decl);
    drop(decl);
    checked
}
