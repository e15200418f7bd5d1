//! A text that is looked up among the texts of a pool, and lies elsewhere.
ghost use Rattle.std.specs.Cmp;
ghost use Rattle.std.specs.Cmp.{on_equiv, on_per};
ghost use Rattle.std.specs.Cmp.Lexicographic.{bytes_decides, nat_list_eq_equiv};
ghost use Rattle.std.specs.Hash as fed;
ghost use Rattle.std.specs.Str.{bytes_eq};
ghost use Rattle.std.proofs.Common.{ap};

use indexmap::Equivalent;
use std::hash::{Hash, Hasher};
use text_lists::Text;

/// Its bytes are what counts.
#[derive(Clone, Copy)]
pub(crate) struct Sought<'a> {
    pub(crate) text: &'a str,
}

impl PartialEq for Sought<'_> {
    ghost eq = { λ s t. bytes_eq s.text.now t.text.now };

    ghost laws = { on_per (λ s. s.text.now) (Cmp.partial_equiv_from_equiv nat_list_eq_equiv) };

    fn eq(&self, other: &Self) -> bool {
        self.text == other.text
    }
}

impl Eq for Sought<'_> {
    ghost laws = { on_equiv (λ s. s.text.now) nat_list_eq_equiv };
}

impl Hash for Sought<'_> {
    ghost hash_input = { λ s. fed.str s.text.now };

    ghost respects_eq = { λ s t h. ap fed.str ((bytes_decides s.text.now t.text.now).0 h) };

    fn hash<H: Hasher>(&self, state: &mut H) {
        self.text.hash(state);
    }
}

impl Equivalent<Text> for Sought<'_> {
    ghost equivalent = { λ s t. bytes_eq s.text.now t };

    ghost respects_hash = { λ s t h. ap fed.str ((bytes_decides s.text.now t).0 h) };

    ghost respects_eq = { λ s x y. nat_list_eq_equiv.congr s.text.now x y };

    fn equivalent(&self, key: &Text) -> bool {
        self.text == key.as_str()
    }
}
