//! The files of a shelf in memory.
ghost use Rattle.std.specs.Prelude.{◌≡◌, OnOk, OnErr, option_copied};
ghost use Rattle.std.specs.FinMap as map;
ghost use Rattle.shelf_io.specs.Files.{file_at, with_file};
ghost use Rattle.shelf_io.specs.Held.{IsAnswer, files_of};

use crate::FetchFault;
use std::alloc::{AllocError, Global};
use std::marker::Model;

#[derive(Drop)]
pub struct HeldFile {
    pub name: String,
    pub bytes: Vec<u8>,
}

/// A finite map from names to bytes, kept as a list in which each name stands once.
#[derive(Drop)]
pub struct HeldFiles {
    alloc: Global,
    files: Vec<HeldFile>,
}

impl Model for HeldFiles {
    ghost use Rattle.shelf_io.specs.Files.{Files, coded_files};

    ghost Value = { Files };

    ghost coded = { coded_files };

    ghost use Rattle.shelf_io.specs.Held.{files_of};

    ghost view = { λ held. files_of held.files.items };
}

impl HeldFiles {
    pub fn new(alloc: Global) -> Self
        ensures { result ≡ map.empty }
    {
        HeldFiles {
            alloc,
            files: Vec::new(alloc),
        }
    }

    /// Adds a file, unless one of that name is there.
    pub fn hold(&mut self, name: &str, bytes: &[u8]) -> Result<(), AllocError>
        ensures ok { OnOk result (self.new ≡ with_file self.old name.now bytes.now) }
        ensures err { OnErr result (self.new ≡ self.old) }
    {
        if bytes_of(&self.files, name).is_some() {
            return Ok(());
        }
        let file = HeldFile {
            name: String::from_str(self.alloc, name)?,
            bytes: Vec::from_slice(self.alloc, bytes)?,
        };
        self.files.push(file)?;
        Ok(())
    }

    /// The first bytes of a file.
    pub fn fetch(&self, name: &str, most: usize) -> Result<Vec<u8>, FetchFault>
        ensures { IsAnswer self.now name.now most result }
    {
        let Some(bytes) = bytes_of(&self.files, name) else {
            return Err(FetchFault::Absent);
        };
        let end = bytes.len().min(most);
        Ok(Vec::from_slice(self.alloc, &bytes[..end])?)
    }
}

fn bytes_of<'a>(files: &'a [HeldFile], name: &str) -> Option<&'a [u8]>
    ensures { option_copied result ≡ file_at (files_of files.now) name.now }
{
    for file in files {
        if name == file.name.as_str() {
            return Some(&file.bytes);
        }
    }
    None
}
