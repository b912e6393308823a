// The cards of BOUNDS.
ghost use Rattle.std.specs.Prelude.{◌≡◌, ◌||◌, ℕ, false, get_or, slice_get};
ghost use Rattle.std.specs.List.{filter};
ghost use Rattle.std.specs.Option.{option_copied};
ghost use Rattle.spec_mps.specs.Fields.{texts_of};
ghost use Rattle.spec_mps.specs.Bounds as bounds;
ghost use Rattle.spec_mps.specs.Sides.{changed_at};
ghost use Rattle.lp_mps.specs.Answer.{GivesState};
ghost use Rattle.lp_mps.specs.BoundSeen.{texts_seen, texts_made};
ghost use Rattle.lp_mps.specs.BoundSeen as seen;
ghost use Rattle.lp_mps.specs.Draft.{state_of};

use crate::card::{Field, Fields};
use crate::read::bound_card::{bound_card, sets_lower};
use crate::read::draft::Draft;
use crate::read::fault::Fault;
use crate::read::sets::is_used;
use crate::read::shapes::has_bound_shape;
use crate::read::words::bound_kind_of;
use spec_mps::{BoundKind, Code, Style};
use std::alloc::Global;

/// A set or none, a column, and a value, which has no bytes where the kind takes none.
#[derive(Clone, Copy)]
pub(crate) struct BoundTexts<'a> {
    pub(crate) set: Option<&'a [u8]>,
    pub(crate) column: &'a [u8],
    pub(crate) value: &'a [u8],
}

// Whether cards of this kind have a value.
fn takes_value(kind: BoundKind) -> bool
    ensures { result ≡ bounds.takes_value kind }
{
    match kind {
        BoundKind::Up | BoundKind::Lo | BoundKind::Fx => true,
        BoundKind::Fr | BoundKind::Mi | BoundKind::Pl => false,
    }
}

// Whether a card's field of this number is read after its kind. Field 1 is the kind; field 4 is read only for a value.
fn is_read(kind: BoundKind, number: u32) -> bool
    ensures { result ≡ bounds.is_read kind number }
{
    number != 1 && (takes_value(kind) || number != 4)
}

// The text of the field at a place, counted from 0, among the fields that are read after the kind; none past the last.
fn text_read(kind: BoundKind, fields: &[Field], place: usize) -> Option<&[u8]>
    ensures { option_copied result
        ≡ slice_get (texts_of (filter (λ f. bounds.is_read kind f.number) fields.now)) place }
{
    let mut left = place;
    for field in fields {
        if is_read(kind, field.number()) {
            if left == 0 {
                return Some(field.text());
            }
            left -= 1;
        }
    }
    None
}

// The set, the column and the value among the texts after the kind. The set may be left out; the value is empty where
// the kind takes none. Any other number of texts is a fault.
fn texts_by<'a>(
    has_value: bool,
    first: Option<&'a [u8]>,
    second: Option<&'a [u8]>,
    third: Option<&'a [u8]>,
    fourth: Option<&'a [u8]>,
) -> Result<BoundTexts<'a>, Code>
    ensures { texts_made result ≡ seen.texts_by has_value (option_copied first.entry)
        (option_copied second.entry) (option_copied third.entry) (option_copied fourth.entry) }
{
    let (set, column, value): (Option<&'a [u8]>, &'a [u8], &'a [u8]) = match (
        has_value, first, second, third, fourth,
    ) {
        (true, Some(column), Some(value), None, _) => (None, column, value),
        (true, Some(set), Some(column), Some(value), None) => (Some(set), column, value),
        (false, Some(column), None, _, _) => (None, column, &[]),
        (false, Some(set), Some(column), None, _) => (Some(set), column, &[]),
        _ => return Err(Code::CardShape),
    };
    Ok(BoundTexts { set, column, value })
}

// The set, the column and the value of a card of BOUNDS of this kind. Fields of a shape that such a card may not have
// are a fault.
#[tactic(auto, unfolding(spec_mps::specs::Bounds::bound_texts))]
fn bound_texts(style: Style, kind: BoundKind, fields: &[Field]) -> Result<BoundTexts<'_>, Code>
    ensures { texts_made result ≡ bounds.bound_texts style kind fields.now }
{
    if !has_bound_shape(style, kind, fields) {
        return Err(Code::CardShape);
    }
    texts_by(
        takes_value(kind),
        text_read(kind, fields, 0),
        text_read(kind, fields, 1),
        text_read(kind, fields, 2),
        text_read(kind, fields, 3),
    )
}

// Whether a card has set the lower bound of the column at this place; no past the end.
fn is_lowered(lowered: &[bool], place: usize) -> bool
    ensures { result ≡ get_or lowered.now place false }
{
    match lowered.get(place) {
        Some(lowered) => *lowered,
        None => false,
    }
}

// Notes at this place that a card has set the lower bound, if `sets_lower` says so; an earlier note stays. A place past
// the end changes nothing.
fn lower_at(lowered: &mut [bool], place: usize, sets_lower: bool)
    ensures { lowered.new ≡ changed_at place (λ b. b || sets_lower) lowered.old }
{
    if place < lowered.len() {
        lowered[place] |= sets_lower;
    }
}

impl Draft {
    /// Reads a data card of BOUNDS: sets the bounds of its column, unless it belongs to another set than the one in
    /// use. A wrong kind, shape, column or value is a fault.
    #[tactic(auto, unfolding(spec_mps::specs::Bounds::bounds_card))]
    pub(crate) fn bounds_card(
        &mut self,
        alloc: Global,
        style: Style,
        fields: &Fields,
    ) -> Result<(), Fault>
        ensures { GivesState (bounds.bounds_card style (state_of self.old) fields.now) (state_of self.new) result }
    {
        let kind = bound_kind_of(fields.text_at(1))?;
        let texts = bound_texts(style, kind, fields.as_slice())?;
        if !is_used(&self.set, texts.set) {
            return Ok(());
        }
        self.use_bound(alloc, kind, texts)
    }

    // Sets the bounds of the column that the texts name, notes whether that sets its lower one, and makes their set the
    // one in use. An unknown column, or a value that the kind does not take, is a fault.
    #[tactic(auto, unfolding(spec_mps::specs::Bounds::use_bound, spec_mps::specs::Bounds::with_bound))]
    fn use_bound(&mut self, alloc: Global, kind: BoundKind, texts: BoundTexts) -> Result<(), Fault>
        ensures { GivesState (bounds.use_bound (state_of self.old) kind (texts_seen texts.entry))
            (state_of self.new) result }
    {
        let Some(place) = self.columns.place_of(texts.column) else {
            return Err(Fault::Code(Code::UnknownColumn));
        };
        let card = bound_card(kind, texts.value)?;
        self.use_set(alloc, texts.set)?;
        let lowered = is_lowered(&self.lowered, place);
        self.columns.bound_at(place, lowered, &card);
        lower_at(&mut self.lowered, place, sets_lower(&card));
        Ok(())
    }
}
