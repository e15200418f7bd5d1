//! A rule file as a rule book.

ghost use Rattle.std.specs.Prelude.{All, IfOk};
ghost use Rattle.line_grammar.specs.Faults.{IsUnlessMemory, GivesUnlessMemory, line_tells};
ghost use Rattle.text_lists.specs.Limits.{AreLimits};
ghost use Rattle.schema_core.specs.Schemas.{IsValidSchema};
ghost use Rattle.rule_model.specs.Books.{Book as AnyBook, with_decl, book_fault};
ghost use Rattle.rule_model.specs.Declarations.{IsWritten, IsWrittenRow, IsWrittenInclusionRow};
ghost use Rattle.rule_model.specs.declared.decl.Decl.TheVariants.{Cfd, Cind};
ghost use Rattle.rule_model.specs.FewRows.{cfd_row_tests, cind_row_tests};
ghost use Rattle.schema_core.specs.Lookups.{attrs_of};
ghost use Rattle.rule_parser.specs.ReadRules.{IsReadHead, HoldsUnlessMemory, joined};
ghost use Rattle.rule_parser.specs.RuleLines.{row_at, inclusion_row_at};
ghost use Rattle.rule_parser.specs.RuleFiles.{rows_of, some_rows, with_rows, unless_rule, add_group, reads};

use crate::fault::{ParseCause, ParseFault};
use crate::heads::HeadLine;
use crate::rows::{InclusionRowLine, RowLine};
use rule_model::{
    AddFault, CfdDecl, CfdRow, CfdTests, CindDecl, CindRow, CindTests, Decl, HeldRows, RuleBook,
    TestsRows,
};
use schema_core::{
    Gather, Group, Limits, Line, LineFault, List, Phrase, Schema, no_lines, read_groups,
};
use std::alloc::Global;

/// The rows of lines. Each line is read, and of more rows than so many only those are held that have a say in what is
/// told of the declaration.
fn rows_of<P: Phrase, T: TestsRows<P::Value>>(
    alloc: Global,
    tests: &T,
    most: u64,
    lines: List<Line<'_>>,
) -> Result<HeldRows<P::Value>, ParseFault>
    ensures exact { HoldsUnlessMemory (T.tests tests.now) most (rows_of P.reads lines.entry) result }
    ensures fit { IfOk result (λ held. All P.is_fit held.rows) }
{
    let mut held = HeldRows::new(alloc);
    for line in lines.into_vec() {
        held.add(tests, most, line.read::<P, ParseCause>(alloc)?)?;
    }
    Ok(held)
}

/// The rows behind a head of that number; one at least.
fn some_rows<P: Phrase, T: TestsRows<P::Value>>(
    alloc: Global,
    tests: &T,
    most: u64,
    number: usize,
    members: List<Line<'_>>,
) -> Result<HeldRows<P::Value>, ParseFault>
    ensures exact { HoldsUnlessMemory (T.tests tests.now) most (some_rows P.reads number members.entry) result }
    ensures fit { IfOk result (λ held. All P.is_fit held.rows) }
{
    if members.as_slice().is_empty() {
        return Err(LineFault::At {
            line: number,
            cause: ParseCause::BadLine,
        });
    }
    rows_of::<P, T>(alloc, tests, most, members)
}

/// The rows behind the head of a `cfd` that is to join a book.
fn cfd_rows(
    alloc: Global,
    book: &RuleBook,
    cfd: &CfdDecl,
    number: usize,
    members: List<Line<'_>>,
) -> Result<HeldRows<CfdRow>, ParseFault>
    ensures exact { HoldsUnlessMemory (cfd_row_tests (attrs_of book.now.schema cfd.now.table) cfd.now) book.now.limits.tableau_rows (some_rows row_at number members.entry) result }
    ensures fit { IfOk result (λ held. All IsWrittenRow held.rows) }
{
    let tests = CfdTests::new(book.schema(), cfd);
    let most = book.limits().tableau_rows;
    some_rows::<RowLine, CfdTests<'_>>(alloc, &tests, most, number, members)
}

/// The rows behind the head of a `cind` that is to join a book.
fn cind_rows(
    alloc: Global,
    book: &RuleBook,
    cind: &CindDecl,
    number: usize,
    members: List<Line<'_>>,
) -> Result<HeldRows<CindRow>, ParseFault>
    ensures exact { HoldsUnlessMemory (cind_row_tests (attrs_of book.now.schema cind.now.left) (attrs_of book.now.schema cind.now.right) cind.now) book.now.limits.tableau_rows (some_rows inclusion_row_at number members.entry) result }
    ensures fit { IfOk result (λ held. All IsWrittenInclusionRow held.rows) }
{
    let tests = CindTests::new(book.schema(), cind);
    let most = book.limits().tableau_rows;
    some_rows::<InclusionRowLine, CindTests<'_>>(alloc, &tests, most, number, members)
}

/// A book that groups add to.
#[derive(Drop)]
pub struct RuleGroups {
    pub book: RuleBook,
}

impl RuleGroups {
    /// Adds a declaration whose head has that number.
    fn join(&mut self, number: usize, decl: Decl) -> Result<(), ParseFault>
        requires { IsWritten decl }
        ensures { GivesUnlessMemory line_tells (unless_rule (book_fault self.old.book decl) number (with_decl self.old.book decl)) (λ _. self.new.book) result }
    {
        match self.book.add(decl) {
            Ok(()) => Ok(()),
            Err(AddFault::Memory) => Err(LineFault::Memory),
            Err(AddFault::Rule(fault)) => Err(LineFault::At {
                line: number,
                cause: ParseCause::Rule(fault),
            }),
        }
    }

    /// Adds a `cfd` with the rows behind its head.
    fn join_cfd(
        &mut self,
        alloc: Global,
        number: usize,
        mut cfd: CfdDecl,
        members: List<Line<'_>>,
    ) -> Result<(), ParseFault>
        requires { IsReadHead (Cfd cfd) }
        ensures { GivesUnlessMemory line_tells (joined number self.old.book (with_rows number members.entry (Cfd cfd))) (λ _. self.new.book) result }
    {
        let held = cfd_rows(alloc, &self.book, &cfd, number, members)?;
        cfd.rows = held.rows;
        self.join(number, Decl::Cfd(cfd))
    }

    /// Adds a `cind` with the rows behind its head.
    fn join_cind(
        &mut self,
        alloc: Global,
        number: usize,
        mut cind: CindDecl,
        members: List<Line<'_>>,
    ) -> Result<(), ParseFault>
        requires { IsReadHead (Cind cind) }
        ensures { GivesUnlessMemory line_tells (joined number self.old.book (with_rows number members.entry (Cind cind))) (λ _. self.new.book) result }
    {
        let held = cind_rows(alloc, &self.book, &cind, number, members)?;
        cind.rows = held.rows;
        self.join(number, Decl::Cind(cind))
    }
}

impl<'a> Gather<Group<'a>> for RuleGroups {
    type Cause = ParseCause;

    ghost Gathered = { AnyBook };

    ghost Made = { Unit {0} };

    ghost gathered = { λ groups. groups.book };

    ghost made = { λ _. tt };

    ghost with_item = { λ _. add_group };

    ghost is_fit = { λ _ _. Unit {0} };

    #[tactic(auto, unfolding(crate::specs::RuleFiles::add_group))]
    fn add(&mut self, alloc: Global, group: Group<'a>) -> Result<(), ParseFault> {
        let Group { head, members } = group;
        let number = head.number;
        match head.read::<HeadLine, ParseCause>(alloc)? {
            Decl::Cfd(cfd) => self.join_cfd(alloc, number, cfd, members),
            Decl::Cind(cind) => self.join_cind(alloc, number, cind, members),
            Decl::Edit(edit) => {
                self.join(number, Decl::Edit(edit))?;
                no_lines(members.as_slice())
            }
        }
    }
}

/// The rule book that the bytes spell over a schema, or the first faulty line with its first cause. After a
/// refusal the schema is gone.
#[tactic(auto, unfolding(crate::specs::RuleFiles::reads))]
pub fn parse_rules(
    alloc: Global,
    schema: Schema,
    bytes: &[u8],
    limits: &Limits,
) -> Result<RuleBook, ParseFault>
    requires schema { IsValidSchema schema }
    requires limits { AreLimits limits.now }
    ensures { IsUnlessMemory line_tells (reads schema limits.now bytes.now) result }
{
    let mut groups = RuleGroups {
        book: RuleBook::new(alloc, schema, *limits),
    };
    read_groups(alloc, &mut groups, "row", bytes)?;
    Ok(groups.book)
}
