//! What `check` finds in the tables of a bench.
ghost use Rattle.std.specs.Prelude.{◌≡◌, IfOk};
ghost use Rattle.line_grammar.specs.Lines.{lines};
ghost use Rattle.view_page.specs.PageForm.{IsChecked};

use bench_core::Bench;
use line_grammar::split_line;
use project_flaws::{Counts, told_on};
use std::alloc::{AllocError, Global};
use text_lists::List;

/// What `check` finds in the rules and the tables of a bench, line by line.
pub fn checked(alloc: Global, bench: &Bench) -> Result<List<List<u8>>, AllocError>
    ensures { IfOk result (IsChecked bench.now.rules bench.now.history.present) }
{
    let told = told_on(alloc, bench, Counts::LeftOut)?;
    let found = lines_of(alloc, &told.text)?;
    Ok(found)
}

fn lines_of(alloc: Global, text: &[u8]) -> Result<List<List<u8>>, AllocError>
    ensures { IfOk result (λ found. found ≡ lines text.now) }
{
    let mut found = List::new(alloc);
    let mut rest = text;
    while !rest.is_empty() {
        let (line, behind) = split_line(rest);
        found.push(bytes_of(alloc, line)?)?;
        rest = behind;
    }
    Ok(found)
}

fn bytes_of(alloc: Global, line: &[u8]) -> Result<List<u8>, AllocError>
    ensures { IfOk result (λ bytes. bytes ≡ line.now) }
{
    let mut bytes = Vec::new(alloc);
    bytes.extend_from_slice(line)?;
    Ok(List::from(bytes))
}
