//! Lists that contracts see as plain lists.
//!
//! | Item | What it is | Where |
//! |---|---|---|
//! | `Items` | a list of items of one type, which a contract sees as the plain list of them | src/list |
//!
//! The lists of the crates above are this one at the type of their items, under names of their own.

ghost use Rattle.std.specs.Prelude.{◌≡◌, ◌==◌, ◌<◌, ◌≤◌, [], ◌∷◌, ◌++◌, length, slice_get, slice_set};
ghost use Rattle.std.specs.Prelude.{IfOk, OnOk, OnErr};
ghost use Rattle.std.specs.List.{insert, remove};

use std::alloc::{AllocError, Global};
use std::fmt;
use std::marker::Model;

/// A list of items, which a contract sees as the plain list of them.
pub struct Items<T> {
    items: Vec<T>,
}

impl<T> Model for Items<T> {
    ghost use Rattle.std.specs.Prelude.{List};
    ghost use Rattle.std.specs.Coded.{coded_list};

    ghost Value = { List T };

    ghost coded = { coded_list T.code };

    ghost view = { λ i. i.items.items };
}

// By hand, so that it is proved here once: a derived drop is proved anew by each crate that lets go a list.
impl<T: Drop> Drop for Items<T> {
    /// Drops the items, and frees the memory of the list.
    fn drop(self) {
        let Items { items } = self;
        drop(items);
    }
}

impl<T> Items<T> {
    /// The empty list. It takes no memory until something is put in.
    pub fn new(alloc: Global) -> Self
        ensures { result ≡ [] }
    {
        Items {
            items: Vec::new(alloc),
        }
    }

    /// The list with these items. Nothing is copied.
    pub fn from_vec(items: Vec<T>) -> Self
        ensures { result ≡ items.items }
    {
        Items { items }
    }

    /// Gives up the list and yields its items. Nothing is copied.
    pub fn into_vec(self) -> Vec<T>
        ensures { result.items ≡ self }
    {
        let Items { items } = self;
        items
    }

    /// The items of the list, in order.
    pub fn as_slice(&self) -> &[T]
        ensures { result.now ≡ self.now }
    {
        &self.items
    }

    /// How many items there are.
    pub fn len(&self) -> usize
        ensures { result ≡ length self.now }
    {
        self.items.len()
    }

    /// Whether there is no item.
    pub fn is_empty(&self) -> bool
        ensures { result ≡ (length self.now == 0) }
    {
        self.items.is_empty()
    }

    /// The item at `i`, counted from 0.
    pub fn get(&self, i: usize) -> &T
        requires { i < length self.now }
        ensures { slice_get self.now i ≡ Some result.now }
    {
        &self.items[i]
    }
}

impl<T: Drop> Items<T> {
    /// Adds an item at the end. Without memory the list stays as it was.
    pub fn push(&mut self, item: T) -> Result<(), AllocError>
        ensures ok { OnOk result (self.new ≡ self.old ++ item ∷ []) }
        ensures err { OnErr result (self.new ≡ self.old) }
    {
        self.items.push(item)?;
        Ok(())
    }

    /// Adds an item at `place`; the items from there on move up by one. Without memory the list stays as it was.
    pub fn insert(&mut self, place: usize, item: T) -> Result<(), AllocError>
        requires { place ≤ length self.old }
        ensures ok { OnOk result (self.new ≡ insert self.old place item) }
        ensures err { OnErr result (self.new ≡ self.old) }
    {
        self.items.insert(place, item)?;
        Ok(())
    }

    /// Takes the item at `place` out, drops it, and moves those after it down by one.
    pub fn remove(&mut self, place: usize)
        requires { place < length self.old }
        ensures { self.new ≡ remove self.old place }
    {
        self.items.remove(place);
    }

    /// Replaces the item at `i` by `item`.
    pub fn set(&mut self, i: usize, item: T)
        requires { i < length self.old }
        ensures { self.new ≡ slice_set self.old i item }
    {
        self.items[i] = item;
    }
}

impl<T: Copy> Items<T> {
    /// A list of copies of these items.
    pub fn from_slice(alloc: Global, items: &[T]) -> Result<Self, AllocError>
        ensures { IfOk result (λ copy. copy ≡ items.now) }
    {
        let items = Vec::from_slice(alloc, items)?;
        Ok(Items { items })
    }

    /// The item at `i`, counted from 0.
    pub fn at(&self, i: usize) -> T
        requires { i < length self.now }
        ensures { slice_get self.now i ≡ Some result }
    {
        self.items[i]
    }

    /// Adds copies of the items at the end. Without memory the list stays as it was.
    pub fn extend(&mut self, items: &[T]) -> Result<(), AllocError>
        ensures ok { OnOk result (self.new ≡ self.old ++ items.now) }
        ensures err { OnErr result (self.new ≡ self.old) }
    {
        self.items.extend_from_slice(items)?;
        Ok(())
    }
}

/// A list of bytes as a text in quotes, each byte as the character of its number.
impl fmt::Debug for Items<u8> {
    /// Writes the bytes between quotes, each as the character of its number.
    fn fmt<W: fmt::Write>(&self, f: &mut fmt::Formatter<W>) -> fmt::Result {
        f.write_char('"')?;
        for byte in self.as_slice() {
            f.write_char(char::from(*byte))?;
        }
        f.write_char('"')
    }
}
