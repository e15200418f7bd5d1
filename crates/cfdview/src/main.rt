//! `cfdview`: answers its words from the files under the working folder on standard output, and ends with the
//! status's number.
#![tactic(auto)]

mod told_shelf;

use crate::told_shelf::ToldShelf;
use cfd_view::{Caller, Status, fault_text, run_in};
use hash_keys::HashKeys;
use shelf_io::{FolderShelf, StdSink};
use std::alloc::AllocError;
use std::io::ErrorKind;
use std::process::ExitCode;
use std::rt::{Env, Files};
use std::{env, io};
use text_lists::{Limits, List, Text, Texts};

// The words after the program's name. Where one of them isn't UTF-8 there are none, which have no form either.
fn words_of<R: Env + AllocGlobal>(rt: &R) -> Result<Texts, AllocError> {
    let mut words = List::new(rt.alloc());
    match env::args(rt) {
        Ok(args) => {
            for word in args.skip(1) {
                words.push(Text::from_string(rt.alloc(), word)?)?;
            }
        }
        Err(e) if e.kind() == ErrorKind::OutOfMemory => return Err(AllocError),
        Err(_) => {}
    }
    Ok(words)
}

// What is wrong with words that ask for nothing that there is.
fn tell_fault(rt: HostRuntime, words: &Texts) -> io::Result<()> {
    match fault_text(rt.alloc(), words.as_slice()) {
        Ok(text) => eprint!(rt; "{text}"),
        Err(AllocError) => eprintln!(rt; "cfdview: the words have no form"),
    }
}

// What is said on standard error where the status alone says how the call ended.
fn tell<R: Files>(rt: HostRuntime, words: &Texts, status: Status, shelf: &FolderShelf<R>) {
    let _told = match (status, shelf.unread()) {
        (Status::Usage, _) => tell_fault(rt, words),
        (Status::ReadFault, Some(unread)) => {
            eprintln!(rt; "cfdview: {}: {}", unread.name, unread.error)
        }
        (Status::ReadFault, None) => eprintln!(rt; "cfdview: a file couldn't be read"),
        (Status::WriteFault, _) => eprintln!(rt; "cfdview: standard output took no more"),
        (Status::Memory, _) => eprintln!(rt; "cfdview: there wasn't enough memory"),
        _ => Ok(()),
    };
}

fn main(rt: HostRuntime) -> ExitCode {
    let alloc = rt.alloc();
    let status = match words_of(&rt) {
        Ok(words) => {
            let mut shelf = ToldShelf::new(FolderShelf::new(alloc, rt), rt);
            let mut out = StdSink::new(rt);
            let caller = Caller::exiting(HashKeys::drawn(&rt));
            let limits = Limits::standard();
            let status = run_in(alloc, caller, &words, &mut shelf, &mut out, limits);
            tell(rt, &words, status, shelf.within());
            status
        }
        Err(AllocError) => Status::Memory,
    };
    ExitCode::from(status.number())
}
