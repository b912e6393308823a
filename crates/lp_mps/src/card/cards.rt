// The cards of lines.
ghost use Rattle.spec_mps.specs.Fields as field;
ghost use Rattle.lp_mps.specs.CardAnswer.{GivesCard};

use crate::card::columns::{column_fields, misplaced};
use crate::card::lines::{begins_with_blank, is_skipped};
use crate::card::words::word_fields;
use crate::card::{Card, CardFault};
use std::alloc::Global;

/// The card of a line in free form: skipped, or the words of a section's heading, or those of a data card.
#[tactic(auto, unfolding(spec_mps::specs::Fields::free_fields))]
pub fn free(alloc: Global, line: &[u8]) -> Result<Card, CardFault>
    ensures { GivesCard result (field.free_fields line.now) }
{
    if is_skipped(line) {
        return Ok(Card::Skip);
    }
    let fields = word_fields(alloc, line)?;
    if begins_with_blank(line) {
        Ok(Card::Given(fields))
    } else {
        Ok(Card::Section(fields))
    }
}

/// The card of a line in fixed form. A data card has its fields by columns, and is a fault where a byte is misplaced.
/// Any other line is read as in free form.
#[tactic(auto, unfolding(spec_mps::specs::Fields::free_fields, spec_mps::specs::Fields::fixed_fields))]
pub fn fixed(alloc: Global, line: &[u8]) -> Result<Card, CardFault>
    ensures { GivesCard result (field.fixed_fields line.now) }
{
    // what is no data card is the same in both forms
    if is_skipped(line) || !begins_with_blank(line) {
        return free(alloc, line);
    }
    match misplaced(line) {
        Some(column) => Err(CardFault::Misplaced(column)),
        None => Ok(Card::Given(column_fields(alloc, line)?)),
    }
}
