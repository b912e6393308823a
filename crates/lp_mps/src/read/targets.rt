// What has a number already.
ghost use Rattle.std.specs.Prelude.{◌≡◌, [], ◌∷◌, not, IfOk, if◌then◌else◌};
ghost use Rattle.spec_mps.specs.Reader.{is_among};
ghost use Rattle.lp_mps.specs.Marks.{mark_of};

use indexmap::IndexSet;
use spec_mps::Target;
use std::alloc::{AllocError, Global};
use std::marker::Model;

/// A list of targets without doubles, each found by its hash. What was put in last stands first.
#[derive(Drop)]
pub(crate) struct Targets {
    /// Rows by their numbers, and the objective as none, in the order in which they were put in.
    marks: IndexSet<Option<u32>>,
}

impl Model for Targets {
    ghost use Rattle.std.specs.Prelude.{List, map, reverse};
    ghost use Rattle.spec_mps.specs.declared.target.Target.{Target};
    ghost use Rattle.lp_mps.specs.Marks.{target_of};

    ghost Value = { List Target };

    ghost view = { λ t. reverse (map target_of t.marks.keys) };
}

impl Targets {
    /// A list that has no targets yet.
    pub(crate) fn new(alloc: Global) -> Self
        ensures { result ≡ [] }
    {
        Targets {
            marks: IndexSet::new(alloc),
        }
    }

    /// Adds a target, unless it is in the list. The result says whether it was added.
    pub(crate) fn insert(&mut self, target: Target) -> Result<bool, AllocError>
        ensures value { IfOk result (λ is_new. is_new ≡ not (is_among target self.old)) }
        ensures put { IfOk result (λ is_new. self.new ≡ (if is_new then target ∷ self.old else self.old)) }
    {
        let is_new = self.marks.insert(mark_of(target))?;
        Ok(is_new)
    }

    /// Removes all targets from the list.
    pub(crate) fn clear(&mut self)
        ensures { self.new ≡ [] }
    {
        self.marks.clear();
    }
}

// The number of the row, or none for the objective.
fn mark_of(target: Target) -> Option<u32>
    ensures { result ≡ mark_of target }
{
    match target {
        Target::Objective => None,
        Target::Row(row) => Some(row),
    }
}
