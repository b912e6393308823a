// A text in pieces: its sign, and what stands before and after a byte.
ghost use Rattle.std.specs.Prelude.{◌≡◌};
ghost use Rattle.std.specs.Option.{option_copied};
ghost use Rattle.std.specs.List.{before_first, position};
ghost use Rattle.spec_mps.specs.NumberText as number;
ghost use Rattle.lp_numtext.specs.Separates.{separates};

// What ends a part of a text.
#[derive(Clone, Copy)]
pub(crate) enum Separator {
    Slash,
    Mark,
    Point,
}

// Whether a byte is this separator: `/` between numerator and denominator; `e`, `E`, `d` or `D` before an exponent; or
// `.`.
fn is_separator(separator: Separator, b: u8) -> bool
    ensures { result ≡ separates separator b }
{
    match separator {
        Separator::Slash => b == b'/',
        Separator::Mark => b == b'e' || b == b'E' || b == b'd' || b == b'D',
        Separator::Point => b == b'.',
    }
}

// The place of the first such separator; none if there is none.
fn place(text: &[u8], separator: Separator) -> Option<usize>
    ensures { result ≡ position (separates separator) text.now }
{
    text.iter().position(|b| is_separator(separator, *b))
}

// The text before the first such separator, and the text behind it. Without one, the whole text and `None`.
pub(crate) fn split(text: &[u8], separator: Separator) -> (&[u8], Option<&[u8]>)
    ensures before { result.0.now ≡ before_first (separates separator) text.now }
    ensures behind { option_copied result.1 ≡ number.behind (separates separator) text.now }
{
    match place(text, separator) {
        Some(at) => (&text[..at], Some(&text[at + 1..])),
        None => (text, None),
    }
}

// Whether a text begins with a minus sign.
pub(crate) fn is_negative(text: &[u8]) -> bool
    ensures { result ≡ number.is_negative text.now }
{
    match text {
        [b, ..] => *b == b'-',
        [] => false,
    }
}

// The text without the sign at its start, if it has one.
pub(crate) fn without_sign(text: &[u8]) -> &[u8]
    ensures { result.now ≡ number.without_sign text.now }
{
    match text {
        [b'+' | b'-', rest @ ..] => rest,
        _ => text,
    }
}
