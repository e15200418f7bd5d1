//! Lines that were read as nodes, by their text.

ghost use Rattle.std.specs.Prelude.{◌≡◌, ◌<◌, ◌∷◌, [], ◌++◌, IfSome, IfOk, OnOk};
ghost use Rattle.std.specs.List.{Contains};

use std::alloc::{AllocError, Global};
use std::marker::Model;
use text_lists::List;

/// How many texts can be found at once.
const SLOTS: usize = 16_384;

/// The text of a line, and the place of a node that was read from it.
#[derive(Drop)]
struct SeenLine<'a> {
    text: &'a [u8],
    place: usize,
}

/// The lines that were seen, of which the latest in each slot can be found.
#[derive(Drop)]
pub struct Seen<'a> {
    lines: List<SeenLine<'a>>,
    slots: Vec<usize>,
}

impl<'a> Model for Seen<'a> {
    ghost use Rattle.std.specs.Prelude.{◌≡◌, ℕ, List, length, map};

    ghost Value = { List (List ℕ × ℕ) };

    ghost view = { λ seen. map (λ line. (line.text.now, line.place)) seen.lines };

    ghost invariant = { λ seen. length seen.slots.items ≡ 16384 };
}

fn slot_of(text: &[u8]) -> usize
    ensures { result < SLOTS }
{
    let mut hash = 0u64;
    for byte in text {
        hash = hash
            .wrapping_mul(0x0100_0000_01b3)
            .wrapping_add(u64::from(*byte));
    }
    (hash % SLOTS as u64) as usize
}

impl<'a> Seen<'a> {
    pub fn new(alloc: Global) -> Result<Seen<'a>, AllocError>
        ensures { IfOk result (λ seen. seen ≡ []) }
    {
        Ok(Seen {
            lines: List::new(alloc),
            slots: vec![in alloc; 0; SLOTS]?,
        })
    }

    /// The place of a node that was read from the same text. It may miss one.
    pub fn find(&self, text: &[u8]) -> Option<usize>
        ensures { IfSome result (λ place. Contains self.now (text.now, place)) }
    {
        let at = self.slots[slot_of(text)];
        let lines = self.lines.as_slice();
        if at < lines.len() && lines[at].text == text {
            Some(lines[at].place)
        } else {
            None
        }
    }

    pub fn remember(&mut self, text: &'a [u8], place: usize) -> Result<(), AllocError>
        ensures { OnOk result (self.new ≡ self.old ++ (text.now, place) ∷ []) }
    {
        self.slots[slot_of(text)] = self.lines.as_slice().len();
        self.lines.push(SeenLine { text, place })?;
        Ok(())
    }
}
