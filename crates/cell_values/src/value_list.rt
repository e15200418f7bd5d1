//! Distinct values in the order in which they came.

ghost use Rattle.std.specs.Prelude.{◌≡◌, ◌<◌, [], length, IfSome, IfNone, OnOk, OnErr};
ghost use Rattle.value_pool.specs.Pool.{HasId, HaveOneId, Interns, IsNew};

use hash_keys::HashKeys;
use schema_core::{List, Text};
use std::alloc::{AllocError, Global};
use std::collections::HashMap;
use std::marker::Model;

/// Distinct values of rules, each of which is found by its text. It holds each text twice, in the list and in the map: of
/// the values of tables, which are many, a `Pool` holds one.
///
/// Contracts see the list of its texts, each as its bytes.
#[derive(Drop)]
pub struct ValueList {
    alloc: Global,
    texts: List<Text>,
    places: HashMap<String, usize, HashKeys>,
}

impl Model for ValueList {
    ghost use Rattle.std.specs.Prelude.{List, ℕ};
    ghost use Rattle.std.specs.HashMap.{get_by_text};
    ghost use Rattle.cell_values.specs.Places.{ArePlaces};

    ghost Value = { List (List ℕ) };

    ghost view = { λ list. list.texts };

    ghost invariant = { λ list. ArePlaces list.texts (get_by_text list.places) };
}

impl ValueList {
    /// No values, which take no memory yet.
    pub fn new(alloc: Global) -> ValueList
        ensures { result ≡ [] }
    {
        ValueList {
            alloc,
            texts: List::new(alloc),
            places: HashMap::with_hasher(alloc, HashKeys::fixed()),
        }
    }

    /// How many there are.
    pub fn len(&self) -> usize
        ensures len { result ≡ length self.now }
    {
        self.texts.as_slice().len()
    }

    /// Adds a value where it is new.
    pub fn add(&mut self, text: &str) -> Result<(), AllocError>
        ensures interned { OnOk result (Interns self.old text.now self.new) }
        ensures err { OnErr result (self.new ≡ self.old) }
    {
        let None = self.find(text) else {
            return Ok(());
        };
        let place = self.texts.as_slice().len();
        let key = String::from_str(self.alloc, text)?;
        self.texts.push(Text::new(self.alloc, text)?)?;
        match self.places.insert(key, place) {
            Ok(_) => Ok(()),
            Err(_) => {
                self.texts.truncate(place);
                Err(AllocError)
            }
        }
    }

    /// The place of a value, if it is there.
    pub fn find(&self, text: &str) -> Option<usize>
        ensures found { IfSome result (HasId self.now text.now) }
        ensures within { IfSome result (λ place. place < length self.now) }
        ensures absent { IfNone result (IsNew self.now text.now) }
        ensures distinct { HaveOneId self.now }
    {
        self.places.get(text).copied()
    }

    /// The value at a place.
    pub fn get(&self, place: usize) -> &str
        requires { place < length self.now }
        ensures { HasId self.now result.now place }
    {
        self.texts.as_slice()[place].as_str()
    }
}
