// Lists that contracts see as lists.
ghost use Rattle.std.specs.Prelude.{◌≡◌, ◌↔◌, ℕ, List, IsTrue, IfOk};
ghost use Rattle.spec_text.specs.Words.{same};

use crate::list::Items;
use std::alloc::{AllocError, Global};
use std::fmt;
use std::marker::Model;

/// A list of bytes.
pub type Bytes = Items<u8>;

/// A name, which is compared byte by byte.
pub struct Name {
    text: Bytes,
}

impl Model for Name {
    ghost Value = { List ℕ };

    ghost view = { λ n. n.text };
}

impl Drop for Name {
    /// Frees the memory of the name's bytes.
    fn drop(self) {
        let Name { text } = self;
        drop(text);
    }
}

impl Name {
    /// Makes a name of a copy of the bytes.
    pub fn from_slice(alloc: Global, text: &[u8]) -> Result<Self, AllocError>
        ensures { IfOk result (λ name. name ≡ text.now) }
    {
        let text = Bytes::from_slice(alloc, text)?;
        Ok(Name { text })
    }

    /// The bytes of the name.
    pub fn as_slice(&self) -> &[u8]
        ensures { result.now ≡ self.now }
    {
        self.text.as_slice()
    }

    /// A second name with the same bytes.
    pub fn copy(&self, alloc: Global) -> Result<Self, AllocError>
        ensures { IfOk result (λ copy. copy ≡ self.now) }
    {
        Name::from_slice(alloc, self.text.as_slice())
    }
}

impl fmt::Debug for Name {
    /// Writes the name between quotes, each byte as the character of its number.
    fn fmt<W: fmt::Write>(&self, f: &mut fmt::Formatter<W>) -> fmt::Result {
        write!(f, "{:?}", self.text)
    }
}

/// A list of texts, each of them a list of bytes.
pub type Texts = Items<Bytes>;

/// Whether two texts have the same bytes.
pub fn are_same(a: &[u8], b: &[u8]) -> bool
    ensures equal { IsTrue result ↔ (a.now ≡ b.now) }
    ensures value { result ≡ same a.now b.now }
{
    a == b
}
