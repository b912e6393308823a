// Which fields a card of a section has.
ghost use Rattle.std.specs.Prelude.{◌≡◌};
ghost use Rattle.std.specs.List.{list_any};
ghost use Rattle.spec_text.specs.Words.{same};
ghost use Rattle.spec_mps.specs.Fields.{numbers_of};
ghost use Rattle.spec_mps.specs.Shapes as shapes;

use crate::card::Field;
use spec_mps::{BoundKind, Section, Style};

// Entries in free form: a column, and one or two pairs of a row's name and a number.
static FREE_ENTRIES: [&[u32]; 2] = [&[1, 2, 3], &[1, 2, 3, 4, 5]];

// The same in fixed form.
static FIXED_ENTRIES: [&[u32]; 2] = [&[2, 3, 4], &[2, 3, 4, 5, 6]];

// Right sides or ranges in free form: a set or none, and one or two pairs of a row's name and a number.
static FREE_SETS: [&[u32]; 4] = [&[1, 2], &[1, 2, 3], &[1, 2, 3, 4], &[1, 2, 3, 4, 5]];

// The same in fixed form.
static FIXED_SETS: [&[u32]; 4] = [&[3, 4], &[2, 3, 4], &[3, 4, 5, 6], &[2, 3, 4, 5, 6]];

// A bound with a value in free form: a kind, a set or none, a column and the value.
static FREE_VALUED: [&[u32]; 2] = [&[1, 2, 3], &[1, 2, 3, 4]];

// The same in fixed form.
static FIXED_VALUED: [&[u32]; 2] = [&[1, 3, 4], &[1, 2, 3, 4]];

// A bound without a value in free form: a kind, a set or none, and a column.
static FREE_UNVALUED: [&[u32]; 2] = [&[1, 2], &[1, 2, 3]];

// The same in fixed form, where a value may stand that is not read.
static FIXED_UNVALUED: [&[u32]; 4] = [&[1, 3], &[1, 2, 3], &[1, 3, 4], &[1, 2, 3, 4]];

/// Whether the fields of a line are those with these numbers, in this order, and no others: `[1, 2, 3]` for fields 1 to
/// 3.
fn has_numbers(fields: &[Field], numbers: &[u32]) -> bool
    ensures { result ≡ same (numbers_of fields.now) numbers.now }
{
    let mut rest = numbers;
    for field in fields {
        let [number, more @ ..] = rest else {
            return false;
        };
        if field.number() != *number {
            return false;
        }
        rest = more;
    }
    rest.is_empty()
}

// Whether the fields of a line are those of one of these lists of numbers.
fn has_one_of(fields: &[Field], shapes: &[&[u32]]) -> bool
    ensures { result ≡ list_any (λ numbers. same (numbers_of fields.now) numbers.now) shapes.now }
{
    for numbers in shapes {
        if has_numbers(fields, numbers) {
            return true;
        }
    }
    false
}

/// Whether a card of this section may have these fields; of BOUNDS, one with a value.
#[tactic(auto, unfolding(spec_mps::specs::Shapes::has_shape))]
pub(crate) fn has_shape(style: Style, section: Section, fields: &[Field]) -> bool
    ensures { result ≡ shapes.has_shape (shapes.shapes_of style section) fields.now }
{
    match (section, style) {
        (Section::Name | Section::End, _) => false,
        (Section::Sense, _) => has_numbers(fields, &[1]),
        (Section::Rows, _) => has_numbers(fields, &[1, 2]),
        (Section::Columns, Style::Free) => has_one_of(fields, &FREE_ENTRIES),
        (Section::Columns, Style::Fixed) => has_one_of(fields, &FIXED_ENTRIES),
        (Section::RightSides | Section::Ranges, Style::Free) => has_one_of(fields, &FREE_SETS),
        (Section::RightSides | Section::Ranges, Style::Fixed) => has_one_of(fields, &FIXED_SETS),
        (Section::Bounds, Style::Free) => has_one_of(fields, &FREE_VALUED),
        (Section::Bounds, Style::Fixed) => has_one_of(fields, &FIXED_VALUED),
    }
}

/// Whether a card of BOUNDS of this kind may have these fields.
#[tactic(auto, unfolding(spec_mps::specs::Shapes::has_shape))]
pub(crate) fn has_bound_shape(style: Style, kind: BoundKind, fields: &[Field]) -> bool
    ensures { result ≡ shapes.has_shape (shapes.bound_shapes style kind) fields.now }
{
    match (kind, style) {
        (BoundKind::Up | BoundKind::Lo | BoundKind::Fx, _) => {
            has_shape(style, Section::Bounds, fields)
        }
        (BoundKind::Fr | BoundKind::Mi | BoundKind::Pl, Style::Free) => {
            has_one_of(fields, &FREE_UNVALUED)
        }
        (BoundKind::Fr | BoundKind::Mi | BoundKind::Pl, Style::Fixed) => {
            has_one_of(fields, &FIXED_UNVALUED)
        }
    }
}
