// Bounds from text.
ghost use Rattle.std.specs.Prelude.{◌≡◌, ◌||◌, ◌++◌, Some, Ok};
ghost use Rattle.std.specs.List.{prefix_len};
ghost use Rattle.spec_mps.specs.NumberText.{is_zero, number_by};
ghost use Rattle.spec_mps.specs.BoundText.{bound_of, bound_answer};
ghost use Rattle.spec_mps.specs.BoundText as bound;
ghost use Rattle.lp_numtext.specs.Huge.{is_huge, sign_of};
ghost use Rattle.lp_numtext.specs.Seen.{decimal_seen, quotient_seen, parts_seen};

use crate::digits::Digits;
use crate::parts::{Decimal, Parts, Quotient};
use crate::pieces::{is_negative, without_sign};
use crate::reading::{number, shifted};
use lp_frac::Frac;
use spec_mps::{BoundValue, NumFault};

// The power of ten from which on a size is infinite.
const INFINITE_POWER: u8 = 20;

// Whether the word is `inf` or `infinity`, in any case.
fn is_infinity(word: &[u8]) -> bool
    ensures { result ≡ bound.is_infinity word.now }
{
    word.eq_ignore_ascii_case(b"inf") || word.eq_ignore_ascii_case(b"infinity")
}

// The infinite bound of this sign: minus infinity where `is_negative`, else plus infinity.
fn infinity(is_negative: bool) -> BoundValue<Frac>
    ensures { Ok result ≡ bound_answer (bound.infinity is_negative) }
{
    if is_negative {
        BoundValue::MinusInf
    } else {
        BoundValue::PlusInf
    }
}

// How many zeros stand before the first digit that is not 0, in the digits `front` and then `back`; all digits if none
// is.
fn zeros_in_front(front: Digits, back: Digits) -> usize
    ensures { result ≡ prefix_len is_zero (front.entry.bytes.now ++ back.entry.bytes.now) }
{
    let zeros = front.zeros_in_front();
    if zeros < front.len() {
        zeros
    } else {
        zeros + back.zeros_in_front()
    }
}

// Whether a decimal's size is 10^20 or more: its first digit that is not 0 has the 21st place or a higher one.
fn decimal_is_huge(d: Decimal) -> bool
    ensures { result ≡ is_huge (decimal_seen d.entry) }
{
    let zeros = zeros_in_front(d.front, d.back);
    if zeros == d.front.len() + d.back.len() {
        return false;
    }
    // the place of the first digit that is not 0, counted from the point
    shifted(d.exponent, d.front.len(), zeros) > i128::from(INFINITE_POWER)
}

// Whether a quotient's size is 10^20 or more: its numerator without its last 20 digits is at least the denominator.
fn quotient_is_huge(q: Quotient) -> bool
    ensures { result ≡ is_huge (quotient_seen q.entry) }
{
    q.top
        .without_last(usize::from(INFINITE_POWER))
        .are_at_least(q.bottom)
}

// Whether the number of these parts is 10^20 or more in size, also where 127 bits do not hold it.
fn is_huge(parts: Parts) -> bool
    ensures { result ≡ is_huge (parts_seen parts.entry) }
{
    match parts {
        Parts::Decimal(d) => decimal_is_huge(d),
        Parts::Quotient(q) => quotient_is_huge(q),
    }
}

// The number of these parts as a finite bound, or the fault `Wide` where 127 bits do not hold its numerator or its
// denominator as these stand before the fraction is reduced.
#[tactic(auto, using(crate::proofs::ValueSteps::finite_answer, crate::proofs::ValueSteps::fault_answer))]
fn finite(parts: Parts) -> Result<BoundValue<Frac>, NumFault>
    ensures { result ≡ bound_answer (bound.as_bound (number_by (Some (parts_seen parts.entry)))) }
{
    Ok(BoundValue::Finite(number(parts)?))
}

/// The bound that the text is: infinite where it is `inf` or `infinity` in any case with an optional sign, or a number
/// whose size is 10^20 or more, and else as `read` has it.
pub fn read_bound(text: &[u8]) -> Result<BoundValue<Frac>, NumFault>
    ensures { result ≡ bound_answer (bound_of text.now) }
{
    let Some(parts) = Parts::parse(text) else {
        if is_infinity(without_sign(text)) {
            return Ok(infinity(is_negative(text)));
        }
        return Err(NumFault::Shape);
    };
    if is_huge(parts) {
        return Ok(infinity(parts.is_negative()));
    }
    finite(parts)
}
