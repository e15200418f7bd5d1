//! A text: what a name, a cell or a constant holds. Clauses see it as its bytes.

ghost use Rattle.std.specs.Prelude.{◌≡◌, ◌≤◌, IfOk, IsTrue, ◌↔◌, length};
ghost use Rattle.std.specs.Cmp;
ghost use Rattle.std.specs.Cmp.Lexicographic.{nat_list_eq_equiv};
ghost use Rattle.std.specs.Cmp.Rules.{hashing};
ghost use Rattle.std.specs.Hash as fed;
ghost use Rattle.std.specs.Str.{IsUtf8, bytes_eq};
ghost use Rattle.std.specs.String.{string_bytes};
ghost use Rattle.text_lists.specs.declared.text.TheConstants.{SHORT_BYTES};
ghost use Rattle.std.proofs.Common.{rules};

use crate::list::List;
use std::alloc::{AllocError, Global};
use std::hash::{Hash, Hasher};
use std::marker::Model;

/// How many bytes a text may have that lies in its own place.
const SHORT_BYTES: usize = 14;

/// A short text.
#[derive(Debug, Drop)]
struct Short {
    len: u8,
    bytes: [u8; SHORT_BYTES],
}

impl Model for Short {
    ghost use Rattle.std.specs.Prelude.{List, ℕ, ◌≤◌, take};
    ghost use Rattle.std.specs.Str.{IsUtf8};

    ghost Value = { List ℕ };

    ghost view = { λ short. take short.len short.bytes };

    ghost invariant = { λ short. (short.len ≤ 14) × IsUtf8 (take short.len short.bytes) };
}

impl Short {
    fn new(text: &str) -> Short
        requires { length text.now ≤ SHORT_BYTES }
        ensures { result ≡ text.now }
    {
        let given = text.as_bytes();
        let mut bytes = [0; SHORT_BYTES];
        bytes[..given.len()].copy_from_slice(given);
        Short {
            len: given.len() as u8,
            bytes,
        }
    }

    fn as_str(&self) -> &str
        ensures bytes { result.now ≡ self.now }
        ensures utf8 { IsUtf8 self.now }
    {
        unsafe { str::from_utf8_unchecked(&self.bytes[..self.len as usize]) }
    }

    fn copied(&self) -> Short
        ensures { result ≡ self.now }
    {
        Short {
            len: self.len,
            bytes: self.bytes,
        }
    }
}

/// Where the bytes of a text lie. Most texts of a table are short, and a line may list millions of them.
#[derive(Debug, Drop)]
enum Place {
    Inside(Short),
    Outside(Box<String>),
}

#[derive(Debug)]
pub struct Text {
    place: Place,
}

// By hand, so that whatever drops a text calls this, and isn't proved for each place where one may lie.
impl Drop for Text {
    fn drop(self) {
        let Text { place: _ } = self;
    }
}

/// Several texts: the values of a domain, the cells of a row.
pub type Texts = List<Text>;

impl Model for Text {
    ghost use Rattle.std.specs.Prelude.{List, ℕ};
    ghost use Rattle.text_lists.specs.Places.{bytes_of};

    ghost Value = { List ℕ };

    ghost view = { λ t. bytes_of t.place };
}

impl Text {
    /// Whether the text is one that takes no memory.
    pub fn is_short(text: &str) -> bool
        ensures { IsTrue result ↔ (length text.now ≤ SHORT_BYTES) }
    {
        text.len() <= SHORT_BYTES
    }

    pub fn new(alloc: Global, text: &str) -> Result<Text, AllocError>
        ensures { IfOk result (λ t. t ≡ text.now) }
    {
        if Text::is_short(text) {
            return Ok(Text::inside(text));
        }
        Ok(Text {
            place: Place::Outside(Box::new(alloc, String::from_str(alloc, text)?)?),
        })
    }

    /// The text of a string, which takes memory only where it is long.
    pub fn from_string(alloc: Global, string: String) -> Result<Text, AllocError>
        ensures { IfOk result (λ t. t ≡ string_bytes string) }
    {
        if string.len() <= SHORT_BYTES {
            return Ok(Text::inside(string.as_str()));
        }
        Ok(Text {
            place: Place::Outside(Box::new(alloc, string)?),
        })
    }

    fn inside(text: &str) -> Text
        requires { length text.now ≤ SHORT_BYTES }
        ensures { result ≡ text.now }
    {
        Text {
            place: Place::Inside(Short::new(text)),
        }
    }

    pub fn as_str(&self) -> &str
        ensures bytes { result.now ≡ self.now }
        ensures utf8 { IsUtf8 self.now }
    {
        match &self.place {
            Place::Inside(short) => short.as_str(),
            Place::Outside(string) => string.as_str(),
        }
    }

    /// Whether this is the given text, byte for byte.
    pub fn is(&self, text: &str) -> bool
        ensures test { result ≡ bytes_eq self.now text.now }
        ensures same { IsTrue result ↔ (self.now ≡ text.now) }
    {
        self.as_str() == text
    }
}

impl List<Text> {
    /// A copy of the texts with memory of its own.
    pub fn copied(&self) -> Result<Texts, AllocError>
        ensures { IfOk result (λ copy. copy ≡ self.now) }
    {
        self.clone()
    }
}

impl Clone for Text {
    ghost is_clone = { λ s t. t ≡ s };

    fn clone(&self) -> Result<Text, AllocError> {
        match &self.place {
            Place::Inside(short) => Ok(Text {
                place: Place::Inside(short.copied()),
            }),
            Place::Outside(string) => Ok(Text {
                place: Place::Outside(string.clone()?),
            }),
        }
    }
}

impl PartialEq for Text {
    ghost eq = { bytes_eq };

    ghost laws = { Cmp.partial_equiv_from_equiv nat_list_eq_equiv };

    fn eq(&self, other: &Text) -> bool {
        self.as_str() == other.as_str()
    }
}

impl Eq for Text {
    ghost laws = { nat_list_eq_equiv };
}

impl Hash for Text {
    ghost hash_input = { fed.str };

    ghost respects_eq = { Prim.search (hashing, rules) };

    fn hash<H: Hasher>(&self, state: &mut H) {
        self.as_str().hash(state);
    }
}
