//! What is told below a line that is no line at its place.

ghost use Rattle.std.specs.Prelude.{◌≡◌, ◌++◌, OnOk};
ghost use Rattle.line_forms.specs.Fits.{fit_text, lack_words, leaves_text, told_below};

use crate::fit::{Fit, fit_at};
use crate::form::{Form, form_words, words_told};
use crate::marks::push_mark_line;
use crate::place::Place;
use std::alloc::{AllocError, Global};

/// Writes the mark below the line, which is shown behind its number and a bar, and then the form of such a line, or with
/// which words a line begins there; of a line that has a form, what has to stand below it.
pub fn push_fit(
    alloc: Global,
    out: &mut Vec<u8>,
    place: Place,
    number: usize,
    line: &[u8],
) -> Result<(), AllocError>
    ensures { OnOk result (out.new.items ≡ out.old.items ++ told_below place number line.now) }
{
    match fit_at(alloc, place, line)? {
        Fit::Nowhere => push_nowhere(alloc, out, place, number, line),
        Fit::Leaves { form, at } => push_leaves(alloc, out, number, line, form, at),
        Fit::Whole(form) => out.extend_from_slice(lack_words(form).as_bytes()),
    }
}

fn push_nowhere(
    alloc: Global,
    out: &mut Vec<u8>,
    place: Place,
    number: usize,
    line: &[u8],
) -> Result<(), AllocError>
    ensures { OnOk result (out.new.items ≡ out.old.items ++ fit_text place number line.now Fit.Nowhere) }
{
    push_mark_line(alloc, out, number, 0, line)?;
    out.extend_from_slice(words_told(place).as_bytes())?;
    out.extend_from_slice(b"\n")
}

fn push_leaves(
    alloc: Global,
    out: &mut Vec<u8>,
    number: usize,
    line: &[u8],
    form: Form,
    at: usize,
) -> Result<(), AllocError>
    ensures { OnOk result (out.new.items ≡ out.old.items ++ leaves_text number line.now form at) }
{
    push_mark_line(alloc, out, number, at, line)?;
    out.extend_from_slice(b"such a line is: ")?;
    out.extend_from_slice(form_words(form).as_bytes())?;
    out.extend_from_slice(b"\n")
}

fn lack_words(form: Form) -> &'static str
    ensures { result.now ≡ lack_words form }
{
    match form {
        Form::Table | Form::Master => "no attr line stands below it\n",
        Form::Cfd | Form::Cind => "no row line stands below it\n",
        _ => "",
    }
}
