// Fractions as text.
ghost use Rattle.std.specs.Prelude.{◌≡◌, ◌<◌, ◌≤◌, ◌++◌, decimal, OnOk, OnErr, IfOk, IfSome};
ghost use Rattle.spec_mps.specs.NumberWritten as number_written;

use crate::width::product;
use lp_base::Bytes;
use lp_frac::{Frac, den, num};
use std::alloc::{AllocError, Global};

// The most digits after a point.
const MAX_PLACES: u32 = 18;

// Appends the decimal digits of `n`.
fn write_whole(alloc: Global, n: u128, to: &mut Bytes) -> Result<(), AllocError>
    ensures { OnOk result (to.new ≡ to.old ++ decimal n) }
{
    let text = n.to_string(alloc)?;
    to.extend(text.as_bytes())
}

// Appends the last `places` digits of `n`, with zeros in front where it has fewer.
fn write_last_digits(n: u128, places: u32, to: &mut Bytes) -> Result<(), AllocError>
    requires { places ≤ MAX_PLACES }
    ensures { OnOk result (to.new ≡ to.old ++ number_written.last_digits places n) }
{
    for place in (0..places).rev() {
        let digit = n / 10u128.pow(place) % 10;
        to.push(b'0' + digit as u8)?;
    }
    Ok(())
}

// Appends `n / 10^places` as a decimal with `places` digits after its point.
#[tactic(auto, unfolding(spec_mps::specs::NumberWritten::pointed))]
fn write_pointed(alloc: Global, n: u128, places: u32, to: &mut Bytes) -> Result<(), AllocError>
    requires { places ≤ MAX_PLACES }
    ensures { OnOk result (to.new ≡ to.old ++ number_written.pointed places n) }
{
    write_whole(alloc, n / 10u128.pow(places), to)?;
    to.push(b'.')?;
    write_last_digits(n, places, to)
}

// Appends `n`, a slash and `den`.
#[tactic(auto, unfolding(spec_mps::specs::NumberWritten::quotient_text))]
fn write_quotient(alloc: Global, n: u128, den: u128, to: &mut Bytes) -> Result<(), AllocError>
    ensures { OnOk result (to.new ≡ to.old ++ number_written.quotient_text n den) }
{
    write_whole(alloc, n, to)?;
    to.push(b'/')?;
    write_whole(alloc, den, to)
}

// The least number of places after the point that write each fraction with this denominator exactly, or `None` where 18
// are too few.
fn places(den: u128) -> Option<u32>
    requires { 0 < den }
    ensures value { result ≡ number_written.places den }
    ensures bound { IfSome result (λ d. d ≤ MAX_PLACES) }
{
    for d in 0..=MAX_PLACES {
        if 10u128.pow(d) % den == 0 {
            return Some(d);
        }
    }
    None
}

// Appends `n / den`: `n` alone where `den` is 1; an exact decimal, where it has at most 18 places and its digits fit
// 127 bits; else a quotient.
#[tactic(auto, unfolding(spec_mps::specs::NumberWritten::size_text, spec_mps::specs::NumberWritten::placed))]
fn write_size(alloc: Global, n: u128, den: u128, to: &mut Bytes) -> Result<(), AllocError>
    requires { 0 < den }
    ensures { OnOk result (to.new ≡ to.old ++ number_written.size_text n den) }
{
    if den == 1 {
        return write_whole(alloc, n, to);
    }
    if let Some(d) = places(den) {
        if let Some(digits) = product(n, 10u128.pow(d) / den) {
            return write_pointed(alloc, digits, d, to);
        }
    }
    write_quotient(alloc, n, den, to)
}

/// The text of the number: a minus where it is negative, and then a whole number, an exact decimal of at most 18
/// places, or a quotient. `read` reads it as that number.
#[tactic(auto, unfolding(spec_mps::specs::NumberWritten::number_text))]
pub fn number_text(alloc: Global, v: Frac) -> Result<Bytes, AllocError>
    ensures { IfOk result (λ text. text ≡ number_written.number_text v) }
{
    let mut text = Bytes::new(alloc);
    if num(v) < 0 {
        text.push(b'-')?;
    }
    write_size(
        alloc,
        num(v).unsigned_abs(),
        den(v).unsigned_abs(),
        &mut text,
    )?;
    Ok(text)
}

/// Appends to `to` the text of the number, as `number_text` has it. After an error `to` is as it was.
pub fn write(alloc: Global, v: Frac, to: &mut Bytes) -> Result<(), AllocError>
    ensures ok { OnOk result (to.new ≡ to.old ++ number_written.number_text v) }
    ensures err { OnErr result (to.new ≡ to.old) }
{
    let text = number_text(alloc, v)?;
    to.extend(text.as_slice())
}
