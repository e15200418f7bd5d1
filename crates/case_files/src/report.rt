//! What is told of the cases, and how many they are.
ghost use Rattle.std.specs.Prelude.{◌≡◌, ◌↔◌, IsTrue, IfOk};
ghost use Rattle.shelf_io.specs.Rising.{Rose};

use crate::case::Case;
use crate::differences::first_difference;
use std::io;
use std::io::Write;

/// Tells each failure as it comes, and counts.
#[derive(Drop)]
pub struct Report<W: Write + Drop> {
    out: W,
    cases: u64,
    failures: u64,
}

impl<W: Write + Drop> Report<W> {
    pub fn new(out: W) -> Report<W> {
        Report {
            out,
            cases: 0,
            failures: 0,
        }
    }

    /// How many cases were judged.
    pub fn cases(&self) -> u64 {
        self.cases
    }

    /// Judges a case by how its call ended.
    pub fn judge(&mut self, file: &str, case: &Case, status: u8, written: &[u8]) -> io::Result<()>
        ensures met { (status ≡ case.now.status) × (written.now ≡ case.now.written.items) → self.new.failures ≡ self.old.failures }
        ensures differs { ((status ≡ case.now.status) × (written.now ≡ case.now.written.items) → ⊥) → Rose self.old.failures self.new.failures }
    {
        self.cases = self.cases.saturating_add(1);
        if case.holds(status, written) {
            return Ok(());
        }
        self.failures = self.failures.saturating_add(1);
        let name = case.name.as_str();
        let wanted = case.status;
        writeln!(self.out, "{file}: {name}: status {status}, wanted {wanted}")?;
        tell_difference(&mut self.out, &case.written, written)
    }

    /// A line that can't be read, or an empty one that ends a case which can't.
    pub fn unreadable(&mut self, file: &str, number: usize, line: &[u8]) -> io::Result<()>
        ensures { Rose self.old.failures self.new.failures }
    {
        self.failures = self.failures.saturating_add(1);
        writeln!(self.out, "{file}: a case can't be read at line {number}")?;
        tell_line(&mut self.out, "  line  ", Some(line))
    }

    /// A case under limits that no call takes.
    pub fn wrong_limits(&mut self, file: &str, case: &Case) -> io::Result<()>
        ensures { Rose self.old.failures self.new.failures }
    {
        self.failures = self.failures.saturating_add(1);
        let name = case.name.as_str();
        writeln!(self.out, "{file}: {name}: no call takes these limits")
    }

    /// A case of a program that there isn't.
    pub fn no_program(&mut self, file: &str, case: &Case) -> io::Result<()>
        ensures { Rose self.old.failures self.new.failures }
    {
        self.failures = self.failures.saturating_add(1);
        let name = case.name.as_str();
        writeln!(self.out, "{file}: {name}: there is no such program")
    }

    /// A file or folder in which no case could be judged.
    pub fn no_case(&mut self, name: &str) -> io::Result<()>
        ensures { Rose self.old.failures self.new.failures }
    {
        self.failures = self.failures.saturating_add(1);
        writeln!(self.out, "{name}: no case")
    }

    /// Tells whether all hold, or how many failures there were, and says whether there was none.
    pub fn end(mut self) -> io::Result<bool>
        ensures { IfOk result (λ is_good. IsTrue is_good ↔ (self.failures ≡ 0)) }
    {
        let failures = self.failures;
        if failures == 0 {
            writeln!(self.out, "all cases hold")?;
        } else {
            writeln!(self.out, "failures: {failures}")?;
        }
        Ok(failures == 0)
    }
}

fn tell_difference<W: Write>(out: &mut W, wanted: &[u8], got: &[u8]) -> io::Result<()> {
    match first_difference(wanted, got) {
        Some(difference) => {
            let number = difference.number;
            writeln!(out, "  line {number}")?;
            tell_line(out, "  wanted", difference.wanted)?;
            tell_line(out, "  got   ", difference.got)
        }
        None => Ok(()),
    }
}

fn tell_line<W: Write>(out: &mut W, head: &str, line: Option<&[u8]>) -> io::Result<()> {
    match line {
        Some(line) => {
            write!(out, "{head} |")?;
            out.write_all(line)?;
            out.write_all(b"\n")
        }
        None => writeln!(out, "{head} no such line"),
    }
}
