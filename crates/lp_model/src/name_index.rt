// Names that are found by their hashes.
ghost use Rattle.std.specs.Prelude.{◌≡◌, ◌≢◌, ◌<◌, ◌++◌, ◌∷◌, [], All, length, IfSome, OnOk, OnErr};
ghost use Rattle.std.specs.List.{list_any, position};
ghost use Rattle.spec_text.specs.Words.{same};

use indexmap::IndexSet;
use std::alloc::{AllocError, Global};
use std::marker::Model;

/// Distinct names in their order, found by their hashes: the time to find one hardly grows with how many there are.
pub struct NameIndex {
    names: IndexSet<Vec<u8>>,
}

impl Model for NameIndex {
    ghost use Rattle.std.specs.Prelude.{List, ℕ, map};

    ghost Value = { List (List ℕ) };

    ghost view = { λ n. map (λ name. name.items) n.names.keys };
}

impl Drop for NameIndex {
    // Drops the names, and gives their memory back.
    fn drop(self) {
        let NameIndex { names } = self;
        drop(names);
    }
}

impl NameIndex {
    /// The empty list of names.
    pub fn new(alloc: Global) -> Self
        ensures { result ≡ [] }
    {
        NameIndex {
            names: IndexSet::new(alloc),
        }
    }

    /// How many names there are.
    pub fn len(&self) -> usize
        ensures { result ≡ length self.now }
    {
        self.names.len()
    }

    /// Adds a name that the list does not have yet at the end. Without memory the list stays as it was.
    pub fn push(&mut self, name: &[u8]) -> Result<(), AllocError>
        requires { All (λ x. x ≢ name.now) self.old }
        ensures ok { OnOk result (self.new ≡ self.old ++ name.now ∷ []) }
        ensures err { OnErr result (self.new ≡ self.old) }
    {
        let name = Vec::from_slice(*self.names.allocator(), name)?;
        self.names.insert(name)?;
        Ok(())
    }

    /// Whether the list has this name.
    pub fn has(&self, name: &[u8]) -> bool
        ensures { result ≡ list_any (same name.now) self.now }
    {
        self.names.contains(name)
    }

    /// The place of a name, counted from 0, or none where the list does not have it.
    pub fn place_of(&self, name: &[u8]) -> Option<usize>
        ensures value { result ≡ position (λ x. same x name.now) self.now }
        ensures inside { IfSome result (λ i. i < length self.now) }
    {
        self.names.get_index_of(name)
    }
}
