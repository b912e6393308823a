// Edits, with names and numbers as the code holds them.
ghost use Rattle.std.specs.Prelude.{◌≡◌, ◌==◌, ◌<◌, [], ◌∷◌, ◌++◌, length, slice_get, IfSome, OnOk, OnErr};
ghost use Rattle.spec_model.specs.Kept.{IsBound};
ghost use Rattle.lp_model.specs.declared.edit.EditError.TheVariants.{Fault, NoMemory};

use lp_base::Name;
use lp_frac::Frac;
use std::alloc::{AllocError, Global};
use std::marker::Model;
use thiserror::Error;

/// An edit of a model.
pub type Edit = spec_edit::Edit<Name, Frac, Pairs, ColumnBounds>;

/// Why an edit is refused.
pub type EditFault = spec_edit::EditFault<Name>;

/// Why an edit is not applied.
#[derive(Debug, Drop, Error)]
pub enum EditError {
    #[error("{0}")]
    Fault(EditFault),
    #[error("out of memory")]
    NoMemory,
}

impl From<EditFault> for EditError {
    ghost from_gives = { λ fault e. e ≡ Fault fault };

    // The error that an edit is refused for this fault.
    fn from(fault: EditFault) -> Self {
        EditError::Fault(fault)
    }
}

impl From<AllocError> for EditError {
    ghost from_gives = { λ _ e. e ≡ NoMemory };

    // The error that there is no memory for an edit.
    fn from(_: AllocError) -> Self {
        EditError::NoMemory
    }
}

/// The coefficients of a new column, each with the name of its row.
pub struct Pairs {
    items: Vec<(Name, Frac)>,
}

impl Model for Pairs {
    ghost use Rattle.spec_edit.specs.Edited as edited;

    ghost Value = { edited.Pairs };

    ghost view = { λ p. p.items.items };
}

impl Drop for Pairs {
    // Drops the pairs with their names, and gives their memory back.
    fn drop(self) {
        let Pairs { items } = self;
        drop(items);
    }
}

impl Pairs {
    /// The empty list. It takes no memory until something is put in.
    pub fn new(alloc: Global) -> Self
        ensures { result ≡ [] }
    {
        Pairs {
            items: Vec::new(alloc),
        }
    }

    /// Adds a pair at the end. Without memory the list stays as it was.
    pub fn push(&mut self, row: Name, value: Frac) -> Result<(), AllocError>
        ensures ok { OnOk result (self.new ≡ self.old ++ (row, value) ∷ []) }
        ensures err { OnErr result (self.new ≡ self.old) }
    {
        self.items.push((row, value))?;
        Ok(())
    }

    /// How many pairs there are.
    pub fn len(&self) -> usize
        ensures { result ≡ length self.now }
    {
        self.items.len()
    }

    /// Whether there is no pair.
    pub fn is_empty(&self) -> bool
        ensures { result ≡ (length self.now == 0) }
    {
        self.items.is_empty()
    }

    /// The pairs in the order in which they were added.
    pub fn as_slice(&self) -> &[(Name, Frac)]
        ensures { result.now ≡ self.now }
    {
        &self.items
    }

    /// Takes the pair at `place`, counted from 0, out and gives its name. The last pair moves to its place.
    pub(crate) fn take_name(&mut self, place: usize) -> Name
        requires { place < length self.old }
        ensures { IfSome (slice_get self.old place) (λ p. result ≡ p.0) }
    {
        self.items.swap_remove(place).0
    }
}

/// The bounds of a column. Each is less than 10^20 from 0, or is not there.
#[derive(Drop)]
pub struct ColumnBounds {
    lower: Option<Frac>,
    upper: Option<Frac>,
}

impl Model for ColumnBounds {
    ghost use Rattle.spec_model.specs.Model.{Limits};
    ghost use Rattle.spec_model.specs.Kept.{IsBound};

    ghost Value = { Limits };

    ghost view = { λ b. record { lower = b.lower; upper = b.upper } };

    ghost invariant = { λ b. IsBound b.lower × IsBound b.upper };
}

impl ColumnBounds {
    /// Bounds of these two numbers, each of which may be absent.
    pub fn new(lower: Option<Frac>, upper: Option<Frac>) -> Self
        requires lower { IsBound lower }
        requires upper { IsBound upper }
        ensures { result ≡ record { lower = lower; upper = upper } }
    {
        ColumnBounds { lower, upper }
    }

    /// The lower bound, if there is one.
    pub fn lower(&self) -> Option<Frac>
        ensures value { result ≡ self.now.lower }
        ensures bound { IsBound result }
    {
        self.lower
    }

    /// The upper bound, if there is one.
    pub fn upper(&self) -> Option<Frac>
        ensures value { result ≡ self.now.upper }
        ensures bound { IsBound result }
    {
        self.upper
    }
}
