//! The cases of a folder, made by the calls of this repository's programs.
#![tactic(auto)]

ghost use Rattle.text_lists.specs.Limits.{AreLimits};

use case_files::{Programs, run_folder};
use shelf_io::{MemoryShelf, MemorySink};
use std::alloc::Global;
use std::process::ExitCode;
use text_lists::{Limits, Texts};

/// The programs of this repository.
struct OurPrograms;

impl Programs for OurPrograms {
    fn has(&self, program: Option<&str>) -> bool {
        match program {
            Some(name) => name == "cfdbench" || name == "cfdview",
            None => true,
        }
    }

    fn run(
        &self,
        program: Option<&str>,
        alloc: Global,
        words: &Texts,
        shelf: &mut MemoryShelf,
        out: &mut MemorySink,
    ) -> u8 {
        if program == Some("cfdview") {
            cfd_view::run(alloc, words, shelf, out).number()
        } else {
            cfd_cli::run(alloc, words, shelf, out).number()
        }
    }

    fn run_with(
        &self,
        program: Option<&str>,
        alloc: Global,
        words: &Texts,
        shelf: &mut MemoryShelf,
        out: &mut MemorySink,
        limits: Limits,
    ) -> u8
        requires { AreLimits limits }
    {
        if program == Some("cfdview") {
            cfd_view::run_with(alloc, words, shelf, out, limits).number()
        } else {
            cfd_cli::run_with(alloc, words, shelf, out, limits).number()
        }
    }
}

/// Makes the calls of all cases in the working folder, and tells which of them a program answers otherwise.
pub fn run_cases(rt: HostRuntime) -> ExitCode {
    run_folder(rt, &OurPrograms)
}
