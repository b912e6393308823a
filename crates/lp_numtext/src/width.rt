// Numbers within the width, which is the limit of fractions.
ghost use Rattle.std.specs.Prelude.{◌≡◌, ◌*◌};
ghost use Rattle.lp_numtext.specs.Within as width;

use lp_frac::LARGEST;

// The number; none where it is past 127 bits.
pub(crate) fn within(n: u128) -> Option<u128>
    ensures { result ≡ width.within n }
{
    if n <= LARGEST { Some(n) } else { None }
}

// The product of two numbers; none where it is past 127 bits.
pub(crate) fn product(n: u128, k: u128) -> Option<u128>
    ensures { result ≡ width.within (n * k) }
{
    within(n.saturating_mul(k))
}
