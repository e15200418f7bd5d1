//! What a book answers to editing rules whose two lists of columns differ in length, which no rule file spells.

ghost use Rattle.std.specs.Prelude.{All, IfOk};
ghost use Rattle.rule_model.specs.Declarations.{IsWritten, IsWrittenEditCell};

use rule_model::{AddFault, Decl, EditCell, EditDecl, RuleBook, RuleFault};
use rule_parser::parse_rules;
use schema_core::{Limits, List, Text, Texts, parse_schema};
use std::alloc::{AllocError, Global};
use std::test::Fail;

const SCHEMA: &[u8] =
    b"table t 't'\nattr A\nattr B in 'x', 'y'\nattr C\nmaster m 'm'\nattr A\nattr B in 'x'\nattr C\n";

/// The book begins with these.
const RULES: &[u8] =
    b"cfd f t: [A] -> [B]\nrow _ || not {'x'}\ncind i t[A; ] in m[A; ]\nrow ||\nedit e t using m: A=A gives C=C\n";

/// Words of a rule: the columns of t and those of m; the target, its source, and an attribute of which 'z' is wanted.
type Words = (
    &'static [&'static str],
    &'static [&'static str],
    [&'static str; 3],
);

/// A fault, and the attribute that it tells.
type Told = (&'static str, &'static str);

const REFUSED: [(Words, Told); 7] = [
    (
        (&["A", "A", "Z"], &["Q", "A"], ["C", "C", "A"]),
        ("UnknownAttr", "Q"),
    ),
    (
        (&["A"], &["A", "B", "Z"], ["Y", "C", "A"]),
        ("UnknownAttr", "Z"),
    ),
    ((&["A"], &["A", "B"], ["Y", "X", "Z"]), ("UnknownAttr", "Y")),
    (
        (&["A", "A"], &["A"], ["A", "C", "B"]),
        ("RepeatedAttr", "A"),
    ),
    ((&[], &["A"], ["B", "B", "B"]), ("NoMatchColumn", "")),
    ((&["B"], &["A", "C"], ["B", "A", "B"]), ("TargetInX", "B")),
    (
        (&["A"], &["A", "C"], ["B", "C", "B"]),
        ("WidthMismatch", ""),
    ),
];

const ACCEPTED: Words = (&["A"], &["A"], ["B", "B", "A"]);

fn texts(alloc: Global, words: &[&str]) -> Result<Texts, AllocError> {
    let mut texts = List::new(alloc);
    for word in words {
        texts.push(Text::new(alloc, word)?)?;
    }
    Ok(texts)
}

fn cell(alloc: Global) -> Result<EditCell, AllocError>
    ensures { IfOk result IsWrittenEditCell }
{
    Ok(EditCell::Is(Text::new(alloc, "z")?))
}

/// It wants 'z' of the attribute.
fn pattern(alloc: Global, attr: &str) -> Result<List<(Text, EditCell)>, AllocError>
    ensures { IfOk result (λ pattern. All (λ p. IsWrittenEditCell p.1) pattern) }
{
    let attr = Text::new(alloc, attr)?;
    let cell = cell(alloc)?;
    let mut pattern = List::new(alloc);
    pattern.push((attr, cell))?;
    Ok(pattern)
}

fn edit(alloc: Global, words: Words) -> Result<Decl, AllocError>
    ensures { IfOk result IsWritten }
{
    let (x, xm, [target, source, attr]) = words;
    Ok(Decl::Edit(EditDecl {
        name: Text::new(alloc, "g")?,
        table: Text::new(alloc, "t")?,
        master: Text::new(alloc, "m")?,
        x: texts(alloc, x)?,
        xm: texts(alloc, xm)?,
        target: Text::new(alloc, target)?,
        source: Text::new(alloc, source)?,
        when: pattern(alloc, attr)?,
    }))
}

/// The fault, and the attribute that it tells.
fn told(fault: &RuleFault) -> (&str, &str) {
    match fault {
        RuleFault::UnknownAttr(attr) => ("UnknownAttr", attr.as_str()),
        RuleFault::RepeatedAttr(attr) => ("RepeatedAttr", attr.as_str()),
        RuleFault::NoMatchColumn => ("NoMatchColumn", ""),
        RuleFault::TargetInX(attr) => ("TargetInX", attr.as_str()),
        RuleFault::WidthMismatch => ("WidthMismatch", ""),
        _ => ("another", ""),
    }
}

fn refuses(book: &mut RuleBook, decl: Decl, want: Told) -> Result<bool, AllocError>
    requires { IsWritten decl }
{
    match book.add(decl) {
        Ok(()) => Ok(false),
        Err(AddFault::Rule(fault)) => Ok(told(&fault) == want),
        Err(AddFault::Memory) => Err(AllocError),
    }
}

/// Whether the book has the rules that it began with, and so many editing rules.
fn has(book: &RuleBook, edits: usize) -> bool {
    book.deps().as_slice().len() == 1
        && book.cinds().as_slice().len() == 1
        && book.edits().as_slice().len() == edits
        && book.has_sets()
}

/// The first fault that isn't told, or after which the book isn't as it was.
fn first_wrong(alloc: Global, book: &mut RuleBook) -> Result<Option<Told>, AllocError> {
    for (words, want) in REFUSED {
        let decl = edit(alloc, words)?;
        if !refuses(book, decl, want)? || !has(book, 1) {
            return Ok(Some(want));
        }
    }
    Ok(None)
}

fn accepts(alloc: Global, book: &mut RuleBook) -> Result<bool, AllocError> {
    let decl = edit(alloc, ACCEPTED)?;
    Ok(book.add(decl).is_ok() && has(book, 2))
}

fn book(alloc: Global) -> Result<RuleBook, Fail> {
    let limits = Limits::standard();
    let schema = parse_schema(alloc, SCHEMA, &limits)?;
    Ok(parse_rules(alloc, schema, RULES, &limits)?)
}

#[test]
fn lists_of_two_lengths(rt: HostRuntime) -> Result<(), Fail> {
    let mut book = book(rt.alloc())?;
    assert_eq!(rt; first_wrong(rt.alloc(), &mut book)?, None);
    assert!(rt; accepts(rt.alloc(), &mut book)?);
    Ok(())
}
