//! The forms of lines.

ghost use Rattle.std.specs.Prelude.{◌≡◌, ◌++◌, OnOk, find};
ghost use Rattle.std.specs.Option.{option_copied};
ghost use Rattle.std.specs.Str.{bytes_eq};
ghost use Rattle.line_forms.specs.Forms.{form_named, form_words, forms_at, leading, pieces_of, words_told};

use crate::pieces::{Item, Piece, Word};
use crate::place::Place;
use line_grammar::Mark;
use std::alloc::AllocError;
use text_lists::Text;

/// A form, by the first word of its lines.
#[derive(Clone, Copy, PartialEq, Eq)]
pub enum Form {
    Table,
    Master,
    Attr,
    Rules,
    Script,
    Cfd,
    Cind,
    Edit,
    /// A row below a `cfd`.
    CfdRow,
    /// A row below a `cind`.
    CindRow,
    Insert,
    Set,
    Delete,
    Fix,
    Undo,
    Redo,
    List,
    Count,
    Explain,
    Export,
}

// ---- behind the first word

fn push_cfd(out: &mut Vec<Piece>) -> Result<(), AllocError>
    ensures { OnOk result (out.new.items ≡ out.old.items ++ pieces_of Form.Cfd) }
{
    out.extend_from_slice(&[
        Piece::One(Item::Name),
        Piece::One(Item::Name),
        Piece::Sign(Mark::Colon),
        Piece::Sign(Mark::OpenBracket),
        Piece::Any(Item::Name),
        Piece::Sign(Mark::CloseBracket),
        Piece::Sign(Mark::Arrow),
        Piece::Sign(Mark::OpenBracket),
        Piece::One(Item::Name),
        Piece::More(Item::Name),
        Piece::Sign(Mark::CloseBracket),
    ])
}

fn push_cind(out: &mut Vec<Piece>) -> Result<(), AllocError>
    ensures { OnOk result (out.new.items ≡ out.old.items ++ pieces_of Form.Cind) }
{
    out.extend_from_slice(&[
        Piece::One(Item::Name),
        Piece::One(Item::Name),
        Piece::Sign(Mark::OpenBracket),
        Piece::Any(Item::Name),
        Piece::Sign(Mark::Semicolon),
        Piece::Any(Item::Name),
        Piece::Sign(Mark::CloseBracket),
        Piece::Word(Word::In),
        Piece::One(Item::Name),
        Piece::Sign(Mark::OpenBracket),
        Piece::Any(Item::Name),
        Piece::Sign(Mark::Semicolon),
        Piece::Any(Item::Name),
        Piece::Sign(Mark::CloseBracket),
    ])
}

fn push_edit(out: &mut Vec<Piece>) -> Result<(), AllocError>
    ensures { OnOk result (out.new.items ≡ out.old.items ++ pieces_of Form.Edit) }
{
    out.extend_from_slice(&[
        Piece::One(Item::Name),
        Piece::One(Item::Name),
        Piece::Word(Word::Using),
        Piece::One(Item::Name),
        Piece::Sign(Mark::Colon),
        Piece::One(Item::Columns),
        Piece::When,
    ])
}

fn push_cfd_row(out: &mut Vec<Piece>) -> Result<(), AllocError>
    ensures { OnOk result (out.new.items ≡ out.old.items ++ pieces_of Form.CfdRow) }
{
    out.extend_from_slice(&[
        Piece::Any(Item::Cell),
        Piece::Sign(Mark::Bars),
        Piece::One(Item::Cell),
        Piece::More(Item::Cell),
    ])
}

fn push_cind_row(out: &mut Vec<Piece>) -> Result<(), AllocError>
    ensures { OnOk result (out.new.items ≡ out.old.items ++ pieces_of Form.CindRow) }
{
    out.extend_from_slice(&[
        Piece::Any(Item::Value),
        Piece::Sign(Mark::Bars),
        Piece::Any(Item::Value),
    ])
}

fn push_insert(out: &mut Vec<Piece>) -> Result<(), AllocError>
    ensures { OnOk result (out.new.items ≡ out.old.items ++ pieces_of Form.Insert) }
{
    out.extend_from_slice(&[
        Piece::One(Item::Name),
        Piece::One(Item::Text),
        Piece::More(Item::Text),
    ])
}

fn push_set(out: &mut Vec<Piece>) -> Result<(), AllocError>
    ensures { OnOk result (out.new.items ≡ out.old.items ++ pieces_of Form.Set) }
{
    out.extend_from_slice(&[
        Piece::One(Item::Name),
        Piece::One(Item::Id),
        Piece::One(Item::Name),
        Piece::One(Item::Text),
    ])
}

fn push_fix(out: &mut Vec<Piece>) -> Result<(), AllocError>
    ensures { OnOk result (out.new.items ≡ out.old.items ++ pieces_of Form.Fix) }
{
    out.extend_from_slice(&[
        Piece::One(Item::Name),
        Piece::One(Item::Id),
        Piece::Sign(Mark::OpenBracket),
        Piece::Any(Item::Name),
        Piece::Sign(Mark::CloseBracket),
    ])
}

/// Adds the pieces behind the first word.
pub fn push_pieces(out: &mut Vec<Piece>, form: Form) -> Result<(), AllocError>
    ensures { OnOk result (out.new.items ≡ out.old.items ++ pieces_of form) }
{
    match form {
        Form::Table | Form::Master => {
            out.extend_from_slice(&[Piece::One(Item::Name), Piece::One(Item::File)])
        }
        Form::Attr => out.extend_from_slice(&[Piece::One(Item::Name), Piece::Domain]),
        Form::Rules | Form::Script => out.extend_from_slice(&[Piece::One(Item::File)]),
        Form::Cfd => push_cfd(out),
        Form::Cind => push_cind(out),
        Form::Edit => push_edit(out),
        Form::CfdRow => push_cfd_row(out),
        Form::CindRow => push_cind_row(out),
        Form::Insert => push_insert(out),
        Form::Set => push_set(out),
        Form::Delete | Form::Explain => {
            out.extend_from_slice(&[Piece::One(Item::Name), Piece::One(Item::Id)])
        }
        Form::Fix => push_fix(out),
        Form::Undo | Form::Redo | Form::List | Form::Count => Ok(()),
        Form::Export => out.extend_from_slice(&[Piece::One(Item::Name)]),
    }
}

/// How the form is told.
pub fn form_words(form: Form) -> &'static str
    ensures { result.now ≡ form_words form }
{
    match form {
        Form::Table => "table NAME FILE",
        Form::Master => "master NAME FILE",
        Form::Attr => "attr NAME, or: attr NAME in VALUE, VALUE, ..",
        Form::Rules => "rules FILE",
        Form::Script => "script FILE",
        Form::Cfd => "cfd NAME TABLE: [ATTR, ..] -> [ATTR, ..]",
        Form::Cind => "cind NAME TABLE[ATTR, ..; ATTR, ..] in TABLE[ATTR, ..; ATTR, ..]",
        Form::Edit => {
            "edit NAME TABLE using TABLE: ATTR=ATTR, .. gives ATTR=ATTR when PATTERN, .."
        }
        Form::CfdRow => "row CELL, .. || CELL, ..",
        Form::CindRow => "row VALUE, .. || VALUE, ..",
        Form::Insert => "insert TABLE TEXT, TEXT, ..",
        Form::Set => "set TABLE ID ATTR TEXT",
        Form::Delete => "delete TABLE ID",
        Form::Fix => "fix TABLE ID [ATTR, ..]",
        Form::Undo => "undo",
        Form::Redo => "redo",
        Form::List => "list",
        Form::Count => "count",
        Form::Explain => "explain TABLE ID",
        Form::Export => "export TABLE",
    }
}

// ---- by the first word

fn leading(form: Form) -> &'static str
    ensures { result.now ≡ leading form }
{
    match form {
        Form::Table => "table",
        Form::Master => "master",
        Form::Attr => "attr",
        Form::Rules => "rules",
        Form::Script => "script",
        Form::Cfd => "cfd",
        Form::Cind => "cind",
        Form::Edit => "edit",
        Form::CfdRow | Form::CindRow => "row",
        Form::Insert => "insert",
        Form::Set => "set",
        Form::Delete => "delete",
        Form::Fix => "fix",
        Form::Undo => "undo",
        Form::Redo => "redo",
        Form::List => "list",
        Form::Count => "count",
        Form::Explain => "explain",
        Form::Export => "export",
    }
}

fn forms_at(place: Place) -> &'static [Form]
    ensures { result.now ≡ forms_at place }
{
    match place {
        Place::Schema => &[Form::Table, Form::Master, Form::Rules, Form::Script],
        Place::BelowTable => &[
            Form::Table,
            Form::Master,
            Form::Attr,
            Form::Rules,
            Form::Script,
        ],
        Place::Rules => &[Form::Cfd, Form::Cind, Form::Edit],
        Place::BelowCfd => &[Form::Cfd, Form::CfdRow, Form::Cind, Form::Edit],
        Place::BelowCind => &[Form::Cfd, Form::CindRow, Form::Cind, Form::Edit],
        Place::Script => &[
            Form::Insert,
            Form::Set,
            Form::Delete,
            Form::Fix,
            Form::Undo,
            Form::Redo,
            Form::List,
            Form::Count,
            Form::Explain,
            Form::Export,
        ],
    }
}

fn begins(form: Form, word: &Text) -> bool
    ensures { result ≡ bytes_eq word.now (leading form) }
{
    word.is(leading(form))
}

fn named_among<'a>(forms: &'a [Form], word: &Text) -> Option<&'a Form>
    ensures { option_copied result ≡ find (λ form. bytes_eq word.now (leading form)) forms.now }
{
    forms.iter().find(|form| begins(**form, word))
}

/// The form of the lines with that first word at that place.
pub fn form_named(place: Place, word: &Text) -> Option<Form>
    ensures { result ≡ form_named place word.now }
{
    named_among(forms_at(place), word).copied()
}

/// With which words a line begins at that place.
pub fn words_told(place: Place) -> &'static str
    ensures { result.now ≡ words_told place }
{
    match place {
        Place::Schema => "a line begins here with table, master, rules or script",
        Place::BelowTable => "a line begins with table, master, attr, rules or script",
        Place::Rules => "a line begins here with cfd, cind or edit",
        Place::BelowCfd | Place::BelowCind => "a line begins with cfd, row, cind or edit",
        Place::Script => {
            "a line begins with insert, set, delete, fix, undo, redo, list, count, explain or export"
        }
    }
}
