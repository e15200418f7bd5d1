//! Reads the case files of a folder, and makes the call of each case.
ghost use Rattle.text_lists.specs.Limits.{AreLimits};

use crate::case::Case;
use crate::limits::are_limits;
use crate::reader::{CaseReader, Reading};
use crate::report::Report;
use shelf_io::{FetchFault, FolderShelf, MemoryShelf, MemorySink, Shelf};
use std::alloc::{AllocError, Global};
use std::io::{ErrorKind, Write};
use std::process::ExitCode;
use std::{fs, io};
use text_lists::{Limits, Texts};

/// The programs that cases call, by their names. A case that names none calls the first of them. Each call gives the
/// number of its status.
pub trait Programs {
    /// Whether there is a program of that name.
    fn has(&self, program: Option<&str>) -> bool;

    fn run(
        &self,
        program: Option<&str>,
        alloc: Global,
        words: &Texts,
        shelf: &mut MemoryShelf,
        out: &mut MemorySink,
    ) -> u8;

    /// The same under other limits.
    fn run_with(
        &self,
        program: Option<&str>,
        alloc: Global,
        words: &Texts,
        shelf: &mut MemoryShelf,
        out: &mut MemorySink,
        limits: Limits,
    ) -> u8
        requires { AreLimits limits };
}

/// Judges the cases of all files of the working folder whose names end in `.cases`, by rising names. Failures and the
/// verdict go to standard output, the number of cases to standard error.
pub fn run_folder<P: Programs>(rt: HostRuntime, programs: &P) -> ExitCode {
    match judge_folder(rt, programs) {
        Ok(true) => ExitCode::SUCCESS,
        Ok(false) => ExitCode::from(1),
        Err(error) => {
            let _ = eprintln!(rt; "{error}");
            ExitCode::from(1)
        }
    }
}

fn judge_folder<P: Programs>(rt: HostRuntime, programs: &P) -> io::Result<bool> {
    let names = case_files(rt)?;
    let mut report = Report::new(rt.stdout());
    judge_files(rt, programs, &names, &mut report)?;
    let cases = report.cases();
    eprintln!(rt; "{cases} cases")?;
    report.end()
}

fn judge_files<P: Programs, W: Write + Drop>(
    rt: HostRuntime,
    programs: &P,
    names: &[String],
    report: &mut Report<W>,
) -> io::Result<()> {
    let mut shelf = FolderShelf::new(rt.alloc(), rt);
    for name in names {
        judge_named(rt.alloc(), programs, name.as_str(), &mut shelf, report)?;
    }
    if names.is_empty() {
        report.no_case("*.cases")?;
    }
    Ok(())
}

fn judge_named<P: Programs, S: Shelf, W: Write + Drop>(
    alloc: Global,
    programs: &P,
    name: &str,
    shelf: &mut S,
    report: &mut Report<W>,
) -> io::Result<()> {
    let before = report.cases();
    let bytes = shelf.fetch(name, usize::MAX).map_err(error_of)?;
    judge_file(alloc, programs, name, &bytes, report)?;
    if report.cases() == before {
        return report.no_case(name);
    }
    Ok(())
}

fn case_files(rt: HostRuntime) -> io::Result<Vec<String>> {
    let mut names = Vec::new(rt.alloc());
    for entry in fs::read_dir(&rt, ".")? {
        let entry = entry?;
        let name = entry.file_name();
        if name.ends_with(".cases") {
            names.push(String::from_str(rt.alloc(), name)?)?;
        }
    }
    names.sort()?;
    Ok(names)
}

fn error_of(fault: FetchFault) -> io::Error {
    match fault {
        FetchFault::Absent => io::Error::from(ErrorKind::NotFound),
        FetchFault::Failed => io::Error::from(ErrorKind::Other),
        FetchFault::Memory => io::Error::from(AllocError),
    }
}

fn judge_file<P: Programs, W: Write + Drop>(
    alloc: Global,
    programs: &P,
    name: &str,
    bytes: &[u8],
    report: &mut Report<W>,
) -> io::Result<()> {
    let mut reader = CaseReader::new(alloc);
    judge_lines(alloc, programs, name, bytes, &mut reader, report)
}

fn judge_lines<P: Programs, W: Write + Drop>(
    alloc: Global,
    programs: &P,
    name: &str,
    bytes: &[u8],
    reader: &mut CaseReader,
    report: &mut Report<W>,
) -> io::Result<()> {
    let mut number: usize = 0;
    for line in bytes.split(|byte| *byte == b'\n') {
        number = number.saturating_add(1);
        judge_line(alloc, programs, name, number, line, reader, report)?;
    }
    judge_line(alloc, programs, name, number, b"", reader, report)
}

// Hands a line to the reader, and judges the case that it ends, where it ends one.
fn judge_line<P: Programs, W: Write + Drop>(
    alloc: Global,
    programs: &P,
    name: &str,
    number: usize,
    line: &[u8],
    reader: &mut CaseReader,
    report: &mut Report<W>,
) -> io::Result<()> {
    match reader.take(line)? {
        Reading::More => Ok(()),
        Reading::Case(case) => judge_case(alloc, programs, name, &case, report),
        Reading::Unreadable => report.unreadable(name, number, line),
    }
}

fn judge_case<P: Programs, W: Write + Drop>(
    alloc: Global,
    programs: &P,
    file: &str,
    case: &Case,
    report: &mut Report<W>,
) -> io::Result<()> {
    let program = case.program();
    if !programs.has(program) {
        return report.no_program(file, case);
    }
    let mut shelf = case.shelf(alloc)?;
    let mut out = case.sink(alloc)?;
    let status = match &case.limits {
        None => programs.run(program, alloc, &case.words, &mut shelf, &mut out),
        Some(limits) if are_limits(limits) => {
            programs.run_with(program, alloc, &case.words, &mut shelf, &mut out, *limits)
        }
        Some(_) => return report.wrong_limits(file, case),
    };
    report.judge(file, case, status, out.written())
}
