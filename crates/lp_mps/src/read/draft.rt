// What was read of a text so far, and what its names stand for.
ghost use Rattle.std.specs.Prelude.{◌≡◌, Some, OnOk};
ghost use Rattle.spec_mps.specs.Reader as reader;
ghost use Rattle.lp_mps.specs.Draft.{state_of};

use crate::read::column_list::Columns;
use crate::read::row_list::Rows;
use crate::read::sets::FirstSet;
use crate::read::targets::Targets;
use lp_base::{Name, are_same};
use lp_frac::{Frac, zero};
use lp_model::Sense;
use lp_numtext::read;
use spec_mps::{Code, Section, Seen, Target};
use std::alloc::{AllocError, Global};
use std::mem;

/// A model that is read.
#[derive(Drop)]
pub(crate) struct Draft {
    /// The section of the next data card.
    pub(crate) part: Option<Section>,
    pub(crate) seen: Seen,
    pub(crate) name: Option<Name>,
    pub(crate) sense: Option<Sense>,
    pub(crate) objective: Option<Name>,
    pub(crate) rows: Rows,
    pub(crate) offset: Frac,
    pub(crate) columns: Columns,
    /// For each column, whether a card has set its lower bound.
    pub(crate) lowered: Vec<bool>,
    /// What has a number already, in this column or in this section.
    pub(crate) paired: Targets,
    pub(crate) set: FirstSet,
}

impl Draft {
    /// A draft of a model of which nothing has been read.
    pub(crate) fn new(alloc: Global) -> Self
        ensures { state_of result ≡ reader.start }
    {
        Draft {
            part: None,
            seen: Seen {
                name: false,
                sense: false,
                rows: false,
                columns: false,
                right_sides: false,
                ranges: false,
                bounds: false,
            },
            name: None,
            sense: None,
            objective: None,
            rows: Rows::new(alloc),
            offset: zero(),
            columns: Columns::new(alloc),
            lowered: Vec::new(alloc),
            paired: Targets::new(alloc),
            set: FirstSet::Unseen,
        }
    }

    /// Forgets all that was read, so that another text may be read.
    pub(crate) fn restart(&mut self, alloc: Global)
        ensures { state_of self.new ≡ reader.start }
    {
        drop(mem::replace(self, Draft::new(alloc)));
    }

    // Whether the objective has been read and has this name.
    fn is_objective(&self, name: &[u8]) -> bool
        ensures { result ≡ reader.is_objective self.now.objective name.now }
    {
        match &self.objective {
            Some(objective) => are_same(objective.as_slice(), name),
            None => false,
        }
    }

    /// The row or the objective that has this name; none if neither has it.
    #[tactic(auto, unfolding(spec_mps::specs::Reader::place_of))]
    pub(crate) fn place_of(&self, name: &[u8]) -> Option<Target>
        ensures { result ≡ reader.place_of (state_of self.now) name.now }
    {
        if self.is_objective(name) {
            return Some(Target::Objective);
        }
        match self.rows.place_of(name) {
            Some(row) => Some(Target::Row(row)),
            None => None,
        }
    }
}

/// Puts a copy of the name in place of what was stored.
pub(crate) fn set_name(
    place: &mut Option<Name>,
    alloc: Global,
    name: &[u8],
) -> Result<(), AllocError>
    ensures { OnOk result (place.new ≡ Some name.now) }
{
    drop(place.replace(Name::from_slice(alloc, name)?));
    Ok(())
}

/// The number that the text is, or the code of its fault.
#[tactic(auto, unfolding(spec_mps::specs::Reader::number_in))]
pub(crate) fn number_in(text: &[u8]) -> Result<Frac, Code>
    ensures { result ≡ reader.number_in text.now }
{
    Ok(read(text)?)
}
