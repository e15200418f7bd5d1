//! `cfdbench`: answers its words from the files under the working folder on standard output, and ends with the
//! status's number.
#![tactic(auto)]

use buffered_sink::BufferedSink;
use cfd_cli::{Caller, Status, run_in};
use hash_keys::HashKeys;
use shelf_io::{FolderShelf, PutFailed, Sink, StdSink};
use std::alloc::AllocError;
use std::env;
use std::io::ErrorKind;
use std::process::ExitCode;
use std::rt::{Env, Files};
use text_lists::{Limits, List, Text, Texts};

// The words after the program's name. Where one of them isn't UTF-8 there are none, which have no form either.
fn words_of<R: Env + AllocGlobal>(rt: &R) -> Result<Texts, AllocError> {
    let mut words = List::new(rt.alloc());
    match env::args(rt) {
        Ok(args) => {
            for word in args.skip(1) {
                words.push(Text::from_string(rt.alloc(), word)?)?;
            }
        }
        Err(e) if e.kind() == ErrorKind::OutOfMemory => return Err(AllocError),
        Err(_) => {}
    }
    Ok(words)
}

// How the call ended, once all that is held back is written.
fn flushed<O: Sink>(out: &mut BufferedSink<O>, status: Status) -> Status {
    match out.flush() {
        Ok(()) => status,
        Err(PutFailed) => Status::WriteFault,
    }
}

// One line on standard error where the status alone says how the call ended.
fn tell<R: Files>(rt: HostRuntime, status: Status, shelf: &FolderShelf<R>) {
    let _told = match (status, shelf.unread()) {
        (Status::ReadFault, Some(unread)) => {
            eprintln!(rt; "cfdbench: {}: {}", unread.name, unread.error)
        }
        (Status::ReadFault, None) => eprintln!(rt; "cfdbench: a file couldn't be read"),
        (Status::WriteFault, _) => eprintln!(rt; "cfdbench: standard output took no more"),
        (Status::Memory, _) => eprintln!(rt; "cfdbench: there wasn't enough memory"),
        _ => Ok(()),
    };
}

fn main(rt: HostRuntime) -> ExitCode {
    let alloc = rt.alloc();
    let status = match words_of(&rt) {
        Ok(words) => {
            let mut shelf = FolderShelf::new(alloc, rt);
            let mut out = BufferedSink::new(alloc, StdSink::new(rt));
            let caller = Caller::exiting(HashKeys::drawn(&rt));
            let limits = Limits::standard();
            let status = run_in(alloc, caller, &words, &mut shelf, &mut out, limits);
            let status = flushed(&mut out, status);
            tell(rt, status, &shelf);
            status
        }
        Err(AllocError) => Status::Memory,
    };
    ExitCode::from(status.number())
}
