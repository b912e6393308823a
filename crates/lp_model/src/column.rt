// The entries of a new column.
ghost use Rattle.std.specs.Prelude.{◌≡◌, [], All, IfOk};
ghost use Rattle.spec_exact.specs.Narrow.{IsNarrow};
ghost use Rattle.spec_model.specs.Model.{height};
ghost use Rattle.spec_model.specs.Kept.{AreEntries};
ghost use Rattle.spec_edit.specs.Edited as edited;
ghost use Rattle.lp_model.specs.Answer.{GivesEdited};

use crate::edit::{EditError, EditFault, Pairs};
use crate::entries::put_entry;
use crate::model::Model;
use lp_base::{Name, are_same};
use lp_frac::{Entries, Frac};
use std::alloc::Global;

// Whether one of the pairs has this row name.
fn is_given(name: &[u8], pairs: &[(Name, Frac)]) -> bool
    ensures { result ≡ edited.is_given name.now pairs.now }
{
    for pair in pairs {
        if are_same(pair.0.as_slice(), name) {
            return true;
        }
    }
    false
}

/// The entries of a new column by its pairs, in the order of their rows; a pair with 0 gives none. A name that no row
/// has, or that an earlier pair has too, is taken out of the pairs and is the fault. Memory may run out.
pub(crate) fn entries_of(
    alloc: Global,
    model: &Model,
    pairs: &mut Pairs,
) -> Result<Entries, EditError>
    ensures answer { GivesEdited (edited.entries_of model.now [] pairs.old []) result }
    ensures kept { IfOk result (AreEntries (height model.now)) }
    ensures narrow { IfOk result (All (λ e. IsNarrow e.1)) }
{
    let mut entries = Entries::new(alloc);
    for place in 0..pairs.len() {
        let (name, value) = &pairs.as_slice()[place];
        let Some(row) = model.row_of(name.as_slice()) else {
            return Err(EditError::Fault(EditFault::UnknownName(pairs.take_name(place))));
        };
        if is_given(name.as_slice(), &pairs.as_slice()[..place]) {
            return Err(EditError::Fault(EditFault::Repeated(pairs.take_name(place))));
        }
        put_entry(&mut entries, row, *value)?;
    }
    Ok(entries)
}
