//! The real files under the working folder.
ghost use Rattle.std.specs.Prelude.{◌≡◌, ◌+◌, ◌≤◌, ℕ, length, Option, None, Some, IsSome, IfOk, IfSome, IsErrOf};
ghost use Rattle.shelf_io.specs.Counts.{no_counts, counts_after};
ghost use Rattle.shelf_io.specs.Files.{file_at, front_at};
ghost use Rattle.shelf_io.specs.Rising.{Rose};
ghost use Rattle.shelf_io.specs.Shelf.{ShelfTold};

use crate::counts::FetchCounts;
use crate::{FetchFault, Shelf};
use std::alloc::Global;
use std::io::{ErrorKind, Read};
use std::marker::Model;
use std::rt::Files;
use std::{fs, io};

// How many bytes are asked for at a time.
const CHUNK: usize = 65_536;

/// A file that couldn't be read, and what the system says of it.
#[derive(Drop)]
pub struct Unread {
    pub name: String,
    pub error: io::Error,
}

/// The real files under the working folder. It tells no content, and counts each failure and each absence. It remembers
/// which file couldn't be read last, for a person to see; no clause speaks of that.
#[derive(Drop)]
pub struct FolderShelf<R: Files> {
    alloc: Global,
    rt: R,
    counts: FetchCounts,
    unread: Option<Unread>,
}

impl<R: Files> Model for FolderShelf<R> {
    ghost use Rattle.shelf_io.specs.declared.counts.FetchCounts.{FetchCounts};

    ghost Value = { FetchCounts };

    ghost view = { λ shelf. shelf.counts };
}

impl<R: Files> FolderShelf<R> {
    pub fn new(alloc: Global, rt: R) -> Self
        ensures { result ≡ no_counts }
    {
        FolderShelf {
            alloc,
            rt,
            counts: FetchCounts::new(),
            unread: None,
        }
    }

    /// The last file that couldn't be read, where there was memory to remember it. One that isn't there is none.
    pub fn unread(&self) -> Option<&Unread> {
        self.unread.as_ref()
    }

    fn remember(&mut self, name: &str, error: io::Error)
        ensures { self.new ≡ self.old }
    {
        if let Ok(name) = String::from_str(self.alloc, name) {
            self.unread = Some(Unread { name, error });
        }
    }
}

impl<R: Files> Shelf for FolderShelf<R> {
    ghost told = { λ shelf. record {
      holding = None;
      calls = shelf.calls;
      faults = shelf.faults;
      absences = shelf.absences;
    } };

    fn fetch(&mut self, name: &str, most: usize) -> Result<Vec<u8>, FetchFault>
        ensures length { IfOk result (λ bytes. length bytes.items ≤ most) }
        ensures counts { self.new ≡ counts_after result self.old }
    {
        let answer = match read_file(self.alloc, &self.rt, name, most) {
            Ok(bytes) => Ok(bytes),
            Err(error) => {
                let fault = fault_of(error.kind());
                if fault == FetchFault::Failed {
                    self.remember(name, error);
                }
                Err(fault)
            }
        };
        self.counts.add(&answer);
        answer
    }
}

// "No such file" alone is an absence: a name with a NUL or one that is too long, a folder in place of a file and
// a want of rights are failures.
fn fault_of(kind: ErrorKind) -> FetchFault {
    match kind {
        ErrorKind::NotFound => FetchFault::Absent,
        ErrorKind::OutOfMemory => FetchFault::Memory,
        _ => FetchFault::Failed,
    }
}

fn read_file<R: Files>(alloc: Global, rt: &R, name: &str, most: usize) -> io::Result<Vec<u8>>
    ensures { IfOk result (λ bytes. length bytes.items ≤ most) }
{
    read_front(alloc, &mut fs::open(rt, name)?, most)
}

// Reads until the file's end, which is a read that gives nothing, or until there are `most` bytes.
fn read_front(alloc: Global, file: &mut impl Read, most: usize) -> io::Result<Vec<u8>>
    ensures { IfOk result (λ bytes. length bytes.items ≤ most) }
{
    let mut chunk = vec![in alloc; 0u8; CHUNK.min(most)]?;
    let mut bytes = Vec::new(alloc);
    while bytes.len() < most {
        let asked = chunk.len().min(most - bytes.len());
        let got = file.read(&mut chunk[..asked])?;
        if got == 0 {
            break;
        }
        bytes.extend_from_slice(&chunk[..got])?;
    }
    Ok(bytes)
}
