//! The rule book.

ghost use Rattle.std.specs.Prelude.{◌≡◌, ◌++◌, [], ◌∷◌, OnOk, OnErr};
ghost use Rattle.text_lists.specs.Limits.{AreLimits};
ghost use Rattle.schema_core.specs.Schemas.{IsValidSchema};
ghost use Rattle.rule_model.specs.Declarations.{IsWritten};
ghost use Rattle.rule_model.specs.Rules.{with_rules_of};
ghost use Rattle.rule_model.specs.Counts.{counts_of};
ghost use Rattle.rule_model.specs.Faults.{Finds};
ghost use Rattle.rule_model.specs.Books.{IsBook, book_deps, book_cinds, book_edits, book_has_set, book_fault, with_decl};

use crate::checks::check;
use crate::cind::Cind;
use crate::counts::Counts;
use crate::decl::Decl;
use crate::dep::Dep;
use crate::edit_rule::EditRule;
use crate::fault::AddFault;
use crate::numbering::append_rules;
use crate::rules::Rules;
use crate::sets::any_has_set;
use schema_core::{Limits, List, Schema};
use std::alloc::{AllocError, Global};
use std::marker::Model;

/// Declarations without fault over a schema, and the rules that they stand for.
pub struct RuleBook {
    alloc: Global,
    schema: Schema,
    limits: Limits,
    decls: List<Decl>,
    rules: Rules,
    counts: Counts,
}

// By hand, so that whatever drops a book calls this, and isn't proved for each of its parts.
impl Drop for RuleBook {
    fn drop(self) {
        let RuleBook {
            alloc: _,
            schema: _,
            limits: _,
            decls: _,
            rules: _,
            counts: _,
        } = self;
    }
}

impl Model for RuleBook {
    ghost use Rattle.rule_model.specs.Books.{Book, IsKept};

    ghost Value = { Book };

    ghost view = { λ b. record { schema = b.schema; limits = b.limits; decls = b.decls } };

    ghost invariant = { λ b. IsKept (record { schema = b.schema; limits = b.limits; decls = b.decls }) b.rules b.counts };
}

impl RuleBook {
    /// A book with no declaration.
    pub fn new(alloc: Global, schema: Schema, limits: Limits) -> RuleBook
        requires schema { IsValidSchema schema }
        requires limits { AreLimits limits }
        ensures { result ≡ record { schema = schema; limits = limits; decls = [] } }
    {
        RuleBook {
            alloc,
            schema,
            limits,
            decls: List::new(alloc),
            rules: Rules::none(alloc),
            counts: Counts::none(),
        }
    }

    /// Adds a declaration that has no fault over the book.
    pub fn add(&mut self, decl: Decl) -> Result<(), AddFault>
        requires { IsWritten decl }
        // The fault that is told is the first one, and without a fault only memory refuses.
        ensures test { Finds result (book_fault self.old decl) }
        ensures ok { OnOk result (self.new ≡ with_decl self.old decl) }
        ensures err { OnErr result (self.new ≡ self.old) }
    {
        let counts = self.counts.with(&self.limits, &decl);
        if let Err(fault) = self.test(&counts, &decl) {
            drop(decl);
            return Err(fault);
        }
        join(
            self.alloc,
            &self.schema,
            &mut self.decls,
            &mut self.rules,
            decl,
        )?;
        self.counts = counts;
        Ok(())
    }

    /// The tests of a declaration over the book.
    #[tactic(auto, unfolding(crate::specs::Books::book_fault))]
    fn test(&self, counts: &Counts, decl: &Decl) -> Result<(), AddFault>
        requires { counts.now ≡ counts_of (self.now.decls ++ decl.now ∷ []) }
        ensures { Finds result (book_fault self.now decl.now) }
    {
        check(
            self.alloc,
            &self.schema,
            &self.limits,
            self.decls.as_slice(),
            counts,
            decl,
        )
    }

    pub fn schema(&self) -> &Schema
        ensures schema { result.now ≡ self.now.schema }
        ensures valid { IsBook self.now }
    {
        &self.schema
    }

    pub fn limits(&self) -> &Limits
        ensures limits { result.now ≡ self.now.limits }
        ensures valid { IsBook self.now }
    {
        &self.limits
    }

    /// The declarations, in the order in which they joined.
    pub fn decls(&self) -> &List<Decl>
        ensures decls { result.now ≡ self.now.decls }
        ensures valid { IsBook self.now }
    {
        &self.decls
    }

    /// The dependencies of all declarations, in order: one for each attribute on a right side.
    pub fn deps(&self) -> &List<Dep>
        ensures deps { result.now ≡ book_deps self.now }
        ensures valid { IsBook self.now }
    {
        &self.rules.deps
    }

    /// The inclusion dependencies of all declarations, in order.
    pub fn cinds(&self) -> &List<Cind>
        ensures cinds { result.now ≡ book_cinds self.now }
        ensures valid { IsBook self.now }
    {
        &self.rules.cinds
    }

    /// The editing rules of all declarations, in order.
    pub fn edits(&self) -> &List<EditRule>
        ensures edits { result.now ≡ book_edits self.now }
        ensures valid { IsBook self.now }
    {
        &self.rules.edits
    }

    /// Whether a cell of a dependency is a set or the complement of one.
    pub fn has_sets(&self) -> bool
        ensures { result ≡ book_has_set self.now }
    {
        any_has_set(self.rules.deps.as_slice())
    }
}

/// Appends the declaration and its rules, both or neither.
fn join(
    alloc: Global,
    schema: &Schema,
    decls: &mut List<Decl>,
    rules: &mut Rules,
    decl: Decl,
) -> Result<(), AllocError>
    ensures decls { OnOk result (decls.new ≡ decls.old ++ decl ∷ []) }
    ensures rules { OnOk result (rules.new ≡ with_rules_of schema.now decl rules.old) }
    ensures err_decls { OnErr result (decls.new ≡ decls.old) }
    ensures err_rules { OnErr result (rules.new ≡ rules.old) }
{
    let deps = rules.deps.as_slice().len();
    let cinds = rules.cinds.as_slice().len();
    let edits = rules.edits.as_slice().len();
    if let Err(error) = append_rules(alloc, schema, &decl, rules) {
        drop(decl);
        rules.truncate(deps, cinds, edits);
        return Err(error);
    }
    if let Err(error) = decls.push(decl) {
        rules.truncate(deps, cinds, edits);
        return Err(error);
    }
    Ok(())
}
