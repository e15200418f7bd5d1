//! What is told while a call takes long.
ghost use Rattle.std.specs.Prelude.{◌≡◌};

use shelf_io::{FetchFault, Shelf};
use std::io::IsTerminal;
use std::time::Instant;

// For how many seconds nothing is told.
const QUIET_SECONDS: u64 = 2;

/// A shelf that hands on to the one within. Where standard error is a terminal it tells there what is read, once the call
/// takes longer than two seconds; no clause speaks of that.
#[derive(Drop)]
pub struct ToldShelf<S: Shelf> {
    within: S,
    rt: HostRuntime,

    // When the call began, where anything may be told.
    start: Option<Instant>,
}

impl<S: Shelf> ToldShelf<S> {
    pub fn new(within: S, rt: HostRuntime) -> Self
        ensures { result.within ≡ within }
    {
        let start = if rt.stderr().is_terminal() {
            Instant::now(&rt).ok()
        } else {
            None
        };
        ToldShelf { within, rt, start }
    }

    pub fn within(&self) -> &S
        ensures { result.now ≡ self.now.within }
    {
        &self.within
    }

    fn takes_long(&self) -> bool {
        match self.start {
            Some(start) => match start.elapsed(&self.rt) {
                Ok(time) => time.as_secs() >= QUIET_SECONDS,
                Err(_) => false,
            },
            None => false,
        }
    }
}

impl<S: Shelf> Shelf for ToldShelf<S> {
    ghost told = { λ shelf. S.told shelf.within };

    fn fetch(&mut self, name: &str, most: usize) -> Result<Vec<u8>, FetchFault> {
        let tells = self.takes_long();
        if tells {
            let _told = eprint!(self.rt; "cfdview: reading {name}");
        }
        let answer = self.within.fetch(name, most);
        if tells {
            let _told = match answer {
                Ok(_) => eprintln!(self.rt; ", done; at work"),
                Err(_) => eprintln!(self.rt; ", not read"),
            };
        }
        answer
    }
}
