// The parts of a number's text.
ghost use Rattle.std.specs.Prelude.{◌≡◌, ◌<◌, ◌++◌};
ghost use Rattle.spec_mps.specs.NumberText as number;

use crate::digits::Digits;
use crate::pieces::{Separator, is_negative, split, without_sign};

// A whole number, as the power of ten by which a decimal is scaled.
#[derive(Clone, Copy)]
pub(crate) struct Exponent<'a> {
    pub(crate) is_negative: bool,
    pub(crate) digits: Digits<'a>,
}

// The digits before and after the point, and the exponent.
#[derive(Clone, Copy)]
pub(crate) struct Decimal<'a> {
    pub(crate) is_negative: bool,
    pub(crate) front: Digits<'a>,
    pub(crate) back: Digits<'a>,
    pub(crate) exponent: Exponent<'a>,
}

// Two whole numbers, the second of which is not 0.
#[derive(Clone, Copy)]
pub(crate) struct Quotient<'a> {
    pub(crate) is_negative: bool,
    pub(crate) top: Digits<'a>,
    pub(crate) bottom: Digits<'a>,
    ghost not_zero: { 0 < number.spelled bottom.bytes.now },
}

// A text that is of a number's shape.
#[derive(Clone, Copy)]
pub(crate) enum Parts<'a> {
    Decimal(Decimal<'a>),
    Quotient(Quotient<'a>),
}

// Whether there is a digit before the point or after it.
fn has_digit(front: Digits, back: Digits) -> bool
    ensures { result ≡ number.are_digits (front.entry.bytes.now ++ back.entry.bytes.now) }
{
    !(front.is_empty() && back.is_empty())
}

impl<'a> Exponent<'a> {
    ghost use Rattle.std.specs.Prelude.{◌≡◌, option_map};
    ghost use Rattle.std.specs.Option.{option_copied};
    ghost use Rattle.spec_mps.specs.NumberText as number;
    ghost use Rattle.lp_numtext.specs.Seen.{exponent_seen};

    // The exponent that the text behind the mark says, and 0 where there is no mark. None where it is no whole number.
    #[tactic(auto, unfolding(spec_mps::specs::NumberText::exponent_of))]
    fn parse(mark: Option<&'a [u8]>) -> Option<Exponent<'a>>
        ensures { option_map exponent_seen result ≡ number.exponent_of (option_copied mark.entry) }
    {
        let text = mark.unwrap_or(b"0");
        match Digits::new(without_sign(text)) {
            Some(digits) if !digits.is_empty() => Some(Exponent {
                is_negative: is_negative(text),
                digits,
            }),
            _ => None,
        }
    }
}

impl<'a> Decimal<'a> {
    ghost use Rattle.std.specs.Prelude.{◌≡◌, option_map};
    ghost use Rattle.std.specs.List.{before_first};
    ghost use Rattle.spec_mps.specs.NumberText as number;
    ghost use Rattle.lp_numtext.specs.Seen.{decimal_seen};

    // The decimal that a text with neither sign nor slash is, or `None` where it is of another shape.
    #[tactic(auto, unfolding(spec_mps::specs::NumberText::mantissa_of, spec_mps::specs::NumberText::decimal_of))]
    fn parse(is_negative: bool, body: &'a [u8]) -> Option<Decimal<'a>>
        ensures { option_map decimal_seen result ≡ number.mantissa_of is_negative
            (before_first number.is_mark body.now) (number.behind number.is_mark body.now) }
    {
        let (mantissa, mark) = split(body, Separator::Mark);
        let (front, back) = split(mantissa, Separator::Point);
        match (
            Digits::new(front),
            Digits::new(back.unwrap_or(&[])),
            Exponent::parse(mark),
        ) {
            (Some(front), Some(back), Some(exponent)) if has_digit(front, back) => Some(Decimal {
                is_negative,
                front,
                back,
                exponent,
            }),
            _ => None,
        }
    }
}

impl<'a> Quotient<'a> {
    ghost use Rattle.std.specs.Prelude.{◌≡◌, option_map};
    ghost use Rattle.spec_mps.specs.NumberText as number;
    ghost use Rattle.lp_numtext.specs.Seen.{quotient_seen};

    // The quotient of two lists of digits, or `None` where one is empty or has another byte, or the second spells 0.
    #[tactic(auto, unfolding(spec_mps::specs::NumberText::quotient_of))]
    fn parse(is_negative: bool, top: &'a [u8], bottom: &'a [u8]) -> Option<Quotient<'a>>
        ensures { option_map quotient_seen result ≡ number.quotient_of is_negative top.now bottom.now }
    {
        match (Digits::new(top), Digits::new(bottom)) {
            (Some(top), Some(bottom)) if !(top.is_empty() || bottom.is_zero()) => Some(Quotient {
                is_negative,
                top,
                bottom,
            }),
            _ => None,
        }
    }
}

impl<'a> Parts<'a> {
    ghost use Rattle.std.specs.Prelude.{◌≡◌, option_map};
    ghost use Rattle.spec_mps.specs.NumberText as number;
    ghost use Rattle.lp_numtext.specs.Huge.{sign_of};
    ghost use Rattle.lp_numtext.specs.Seen.{parts_seen};

    // The parts of the text as a decimal or a quotient; none if it has neither shape.
    #[tactic(auto, unfolding(spec_mps::specs::NumberText::parts_of, spec_mps::specs::NumberText::unsigned_parts))]
    pub(crate) fn parse(text: &'a [u8]) -> Option<Parts<'a>>
        ensures { option_map parts_seen result ≡ number.parts_of text.now }
    {
        let is_negative = is_negative(text);
        match split(without_sign(text), Separator::Slash) {
            (top, Some(bottom)) => Quotient::parse(is_negative, top, bottom).map(Parts::Quotient),
            (body, None) => Decimal::parse(is_negative, body).map(Parts::Decimal),
        }
    }

    // Whether the number of these parts has a minus sign.
    #[tactic(auto, unfolding(spec_mps::specs::NumberText::scaled))]
    pub(crate) fn is_negative(self) -> bool
        ensures { result ≡ sign_of (parts_seen self.entry) }
    {
        match self {
            Parts::Decimal(d) => d.is_negative,
            Parts::Quotient(q) => q.is_negative,
        }
    }
}
