// What a card of BOUNDS does.
ghost use Rattle.std.specs.Prelude.{◌≡◌, Option, None};
ghost use Rattle.spec_exact.specs.Fraction.{ℚ};
ghost use Rattle.spec_mps.specs.Bounds as bounds;
ghost use Rattle.spec_mps.specs.Sides.{changed_at};
ghost use Rattle.lp_mps.specs.BoundSeen.{bound_seen, bound_made};

use lp_frac::{Frac, is_negative};
use lp_model::Column;
use lp_numtext::{BoundValue, read_bound};
use spec_mps::{BoundKind, Code};

/// What a card does to the bounds of a column. `None` is no bound.
#[derive(Clone, Copy)]
pub(crate) enum BoundCard {
    SetsUpper(Option<Frac>),
    SetsLower(Option<Frac>),
    SetsBoth(Option<Frac>, Option<Frac>),
}

/// What a card of this kind does to its column's bounds. `text` is its value, which the kinds `FR`, `MI` and `PL` do
/// not read. `UP` sets the upper bound, or takes it away for plus infinity. `LO` sets the lower bound, or takes it away
/// for minus infinity. `FX` sets both. Another infinity is a fault.
#[tactic(auto, unfolding(spec_mps::specs::Bounds::bound_card, spec_mps::specs::Bounds::bound_in))]
pub(crate) fn bound_card(kind: BoundKind, text: &[u8]) -> Result<BoundCard, Code>
    ensures { bound_made result ≡ bounds.bound_card kind text.now }
{
    match kind {
        BoundKind::Up => match read_bound(text)? {
            BoundValue::Finite(upper) => Ok(BoundCard::SetsUpper(Some(upper))),
            BoundValue::PlusInf => Ok(BoundCard::SetsUpper(None)),
            BoundValue::MinusInf => Err(Code::BoundKind),
        },
        BoundKind::Lo => match read_bound(text)? {
            BoundValue::Finite(lower) => Ok(BoundCard::SetsLower(Some(lower))),
            BoundValue::PlusInf => Err(Code::BoundKind),
            BoundValue::MinusInf => Ok(BoundCard::SetsLower(None)),
        },
        BoundKind::Fx => match read_bound(text)? {
            BoundValue::Finite(v) => Ok(BoundCard::SetsBoth(Some(v), Some(v))),
            BoundValue::PlusInf | BoundValue::MinusInf => Err(Code::BoundKind),
        },
        BoundKind::Fr => Ok(BoundCard::SetsBoth(None, None)),
        BoundKind::Mi => Ok(BoundCard::SetsLower(None)),
        BoundKind::Pl => Ok(BoundCard::SetsUpper(None)),
    }
}

// Whether there is a bound and it is below 0.
fn is_below_zero(bound: &Option<Frac>) -> bool
    ensures { result ≡ bounds.is_negative bound.now }
{
    match bound {
        Some(bound) => is_negative(*bound),
        None => false,
    }
}

// Sets the column's bounds that the card gives. A card for the upper bound alone that sets it below 0 also removes the
// lower one, unless `lowered` says that a card has set that before.
fn bound_column(column: &mut Column, lowered: bool, card: &BoundCard)
    ensures { column.new ≡ bounds.bounded lowered (bound_seen card.now) column.old }
{
    match card {
        BoundCard::SetsUpper(upper) => {
            if is_below_zero(upper) && !lowered {
                column.lower = None;
            }
            column.upper = *upper;
        }
        BoundCard::SetsLower(lower) => column.lower = *lower,
        BoundCard::SetsBoth(lower, upper) => {
            column.lower = *lower;
            column.upper = *upper;
        }
    }
}

/// Sets the bounds of the column at a place, as the card gives them; `lowered` says whether an earlier card has set its
/// lower bound. A place past the end changes nothing.
pub(crate) fn bound_at(columns: &mut [Column], place: usize, lowered: bool, card: &BoundCard)
    ensures { columns.new ≡ changed_at place (bounds.bounded lowered (bound_seen card.now)) columns.old }
{
    if place < columns.len() {
        bound_column(&mut columns[place], lowered, card);
    }
}

/// Whether a card itself sets the lower bound, or takes it away. A card for the upper bound alone does not.
pub(crate) fn sets_lower(card: &BoundCard) -> bool
    ensures { result ≡ bounds.sets_lower (bound_seen card.now) }
{
    match card {
        BoundCard::SetsUpper(_) => false,
        BoundCard::SetsLower(_) | BoundCard::SetsBoth(..) => true,
    }
}
