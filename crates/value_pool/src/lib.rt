//! Interned texts. A pool is a list of distinct texts, and the id of a text is its place in it, so two
//! values are equal exactly where their ids are. An id never changes its text.
#![tactic(auto)]

ghost use Rattle.std.specs.Prelude.{◌≡◌, ◌<◌, [], length, IfSome, IfNone, IfOk, OnOk, OnErr};
ghost use Rattle.value_pool.specs.Pool.{HaveOneId, HasId, Interns, IsNew, KeepsIds};

mod sought;

use hash_keys::HashKeys;
use indexmap::IndexSet;
use sought::Sought;
use std::alloc::{AllocError, Global};
use std::marker::Model;
use text_lists::Text;

/// The place of a text in its pool. Half a word, since tables, keys and groups are made of ids.
pub type ValueId = u32;

// How many texts have an id. So many take hundreds of gigabytes.
const MOST: usize = 4294967296;

/// Texts that are stored once, and named by numbers. A short one lies in the pool's own list, so most look-ups go to one
/// place of memory beside the table of hashes.
///
/// Contracts see the list of its texts, each as its bytes.
#[derive(Drop)]
pub struct Pool {
    texts: IndexSet<Text, HashKeys>,
}

impl Model for Pool {
    ghost use Rattle.std.specs.Prelude.{List, ℕ};
    ghost use Rattle.value_pool.specs.Pool.{IsPool};

    ghost Value = { List (List ℕ) };

    ghost view = { λ pool. pool.texts.keys };

    ghost invariant = { λ pool. IsPool pool.texts.keys };
}

impl Pool {
    /// An empty pool, which takes no memory yet.
    pub fn new(alloc: Global) -> Pool
        ensures { result ≡ [] }
    {
        Pool::with_hasher(alloc, HashKeys::fixed())
    }

    /// An empty pool whose texts are hashed with these keys.
    pub fn with_hasher(alloc: Global, keys: HashKeys) -> Pool
        ensures { result ≡ [] }
    {
        Pool {
            texts: IndexSet::with_hasher(alloc, keys),
        }
    }

    /// The keys with which its texts are hashed, for maps beside it.
    pub fn hash_keys(&self) -> HashKeys {
        *self.texts.hasher()
    }

    /// How many texts there are. Each number below it is the id of one.
    pub fn len(&self) -> usize
        ensures len { result ≡ length self.now }
        ensures distinct { HaveOneId self.now }
    {
        self.texts.len()
    }

    /// Makes room for so many texts, where there is memory.
    pub fn reserve(&mut self, texts: usize)
        ensures { self.new ≡ self.old }
    {
        let _ = self.texts.reserve(texts);
    }

    /// The id of a text, which is added where it is new. A text beyond the last id is told as want of memory.
    pub fn intern(&mut self, text: &str) -> Result<ValueId, AllocError>
        ensures id { IfOk result (HasId self.new text.now) }
        ensures within { IfOk result (λ id. id < length self.new) }
        ensures interned { OnOk result (Interns self.old text.now self.new) }
        ensures err { OnErr result (self.new ≡ self.old) }

        // Whatever the outcome, no id changes its text.
        ensures kept { KeepsIds self.old self.new }
        ensures distinct { HaveOneId self.new }
    {
        if self.texts.len() >= MOST {
            return self.find(text).ok_or(AllocError);
        }
        // A short text takes no memory, so it is hashed once, whether it is new or not.
        if !Text::is_short(text) {
            if let Some(id) = self.find(text) {
                return Ok(id);
            }
        }
        let owned = Text::new(*self.texts.allocator(), text)?;
        let (id, _) = self.texts.insert_full(owned)?;
        Ok(id as ValueId)
    }

    /// The id of a text, if it is there. It takes no memory.
    pub fn find(&self, text: &str) -> Option<ValueId>
        ensures found { IfSome result (HasId self.now text.now) }
        ensures within { IfSome result (λ id. id < length self.now) }
        ensures absent { IfNone result (IsNew self.now text.now) }
        ensures distinct { HaveOneId self.now }
    {
        let id = self.texts.get_index_of(Sought { text })?;
        Some(id as ValueId)
    }

    /// The text with this id. It takes no memory.
    pub fn text(&self, id: ValueId) -> &str
        requires { id < length self.now }
        ensures { HasId self.now result.now id }
    {
        self.text_at(id as usize)
    }

    /// The text at a place, for who goes over all of them.
    pub fn text_at(&self, place: usize) -> &str
        requires { place < length self.now }
        ensures { HasId self.now result.now place }
    {
        self.texts.as_slice()[place].as_str()
    }
}
