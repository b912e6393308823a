// The sets of RHS, RANGES and BOUNDS: that of a section's first card is used, and cards of other sets are skipped.
ghost use Rattle.std.specs.Prelude.{◌≡◌, Some, OnOk};
ghost use Rattle.std.specs.Option.{option_copied};
ghost use Rattle.spec_mps.specs.Fields.{texts_of};
ghost use Rattle.spec_mps.specs.Sides as sides;
ghost use Rattle.lp_mps.specs.Draft.{state_of};
ghost use Rattle.lp_mps.specs.Sets.{card_seen, set_of};

use crate::card::Field;
use crate::read::draft::Draft;
use lp_base::{Name, are_same};
use std::alloc::{AllocError, Global};

/// A set or none, and pairs of a row's name and a number.
#[derive(Clone, Copy)]
pub(crate) struct SetAndPairs<'a> {
    pub(crate) set: Option<&'a [u8]>,
    pub(crate) pairs: &'a [Field],
}

impl<'a> SetAndPairs<'a> {
    /// A card's fields as pairs. Where their number is odd, the first is the set's name.
    #[tactic(auto, unfolding(spec_mps::specs::Sides::set_and_pairs))]
    pub(crate) fn new(fields: &'a [Field]) -> Self
        ensures { card_seen result ≡ sides.set_and_pairs (texts_of fields.now) }
    {
        if fields.len() % 2 == 0 {
            return SetAndPairs {
                set: None,
                pairs: fields,
            };
        }
        match fields.split_first() {
            Some((set, pairs)) => SetAndPairs {
                set: Some(set.text()),
                pairs,
            },
            None => SetAndPairs {
                set: None,
                pairs: fields,
            },
        }
    }
}

/// The set of a section's first card. Cards without a set form a set of their own.
#[derive(Drop)]
pub(crate) enum FirstSet {
    /// No card has put a set in use.
    Unseen,
    Unnamed,
    Named(Name),
}

/// Whether a card of this set is read: it is the set in use, or there is none in use yet.
pub(crate) fn is_used(first: &FirstSet, set: Option<&[u8]>) -> bool
    ensures { result ≡ sides.is_used (set_of first.now) (option_copied set.entry) }
{
    match (first, set) {
        (FirstSet::Unseen, _) => true,
        (FirstSet::Unnamed, None) => true,
        (FirstSet::Named(first), Some(set)) => are_same(first.as_slice(), set),
        _ => false,
    }
}

impl Draft {
    /// Makes the set the one that is used, so that cards of other sets of the section are skipped.
    pub(crate) fn use_set(&mut self, alloc: Global, set: Option<&[u8]>) -> Result<(), AllocError>
        ensures { OnOk result
            (state_of self.new ≡ record (state_of self.old) { set = Some (option_copied set.entry) }) }
    {
        self.set = match set {
            Some(name) => FirstSet::Named(Name::from_slice(alloc, name)?),
            None => FirstSet::Unnamed,
        };
        Ok(())
    }
}
