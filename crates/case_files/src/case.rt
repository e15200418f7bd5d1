//! A case: a call of a program, what its devices hold and refuse, and what is wanted of it.
ghost use Rattle.std.specs.Prelude.{◌≡◌, ◌↔◌, IsTrue};

use shelf_io::{MemoryShelf, MemorySink};
use std::alloc::{AllocError, Global};
use text_lists::{Limits, List, Text, Texts};

// How many bytes more than are wanted find room, so that an output that is too long is seen.
const SPARE: usize = 65_536;

/// A file that the call can read.
#[derive(Drop)]
pub struct CaseFile {
    pub name: Text,
    pub bytes: Vec<u8>,
}

/// A call, and what is wanted of it. The fetches and puts with the given numbers, counted from 1, fail.
#[derive(Drop)]
pub struct Case {
    pub name: Text,
    /// None: the first of those that there are.
    pub program: Option<Text>,
    /// None: the standard ones.
    pub limits: Option<Limits>,
    pub failing_fetches: Vec<u64>,
    pub failing_puts: Vec<u64>,
    pub words: Texts,
    pub files: Vec<CaseFile>,
    pub status: u8,
    pub written: Vec<u8>,
}

impl Case {
    /// A call without words or files, of which nothing is wanted.
    pub fn new(alloc: Global, name: &str) -> Result<Case, AllocError> {
        Ok(Case {
            name: Text::new(alloc, name)?,
            program: None,
            limits: None,
            failing_fetches: Vec::new(alloc),
            failing_puts: Vec::new(alloc),
            words: List::new(alloc),
            files: Vec::new(alloc),
            status: 0,
            written: Vec::new(alloc),
        })
    }

    /// The name of the program that is called, where the case names one.
    pub fn program(&self) -> Option<&str> {
        match &self.program {
            Some(program) => Some(program.as_str()),
            None => None,
        }
    }

    /// A shelf with the files.
    pub fn shelf(&self, alloc: Global) -> Result<MemoryShelf, AllocError> {
        let mut shelf = MemoryShelf::new(alloc, self.failing_fetches.clone()?);
        for file in &self.files {
            shelf.hold(file.name.as_str(), &file.bytes)?;
        }
        Ok(shelf)
    }

    /// A sink with room for what is wanted, and for more.
    pub fn sink(&self, alloc: Global) -> Result<MemorySink, AllocError> {
        let room = self.written.len().saturating_add(SPARE);
        MemorySink::with_room(alloc, room, self.failing_puts.clone()?)
    }

    /// Whether a call that ended so did what is wanted.
    pub fn holds(&self, status: u8, written: &[u8]) -> bool
        ensures { IsTrue result ↔ (status ≡ self.now.status) × (written.now ≡ self.now.written.items) }
    {
        status == self.status && written == self.written.as_slice()
    }
}
