// The greatest common divisor, by subtraction and shifts. Of a number and 0 it is that number.
//
// Numbers of 64 bits take steps of 64 bits. Where one of the two is longer, one remainder makes
// it short; where both are, they take steps of 128 bits until one is short.
ghost use Rattle.std.specs.Prelude.{◌≡◌, ◌≢◌, ◌<◌, ◌≤◌, ◌%◌, ◌^◌, ℕ};
ghost use Rattle.std.specs.Int.{abs_diff, trailing_zeros, w64, w128};
ghost use Rattle.spec_exact.specs.Gcd.{gcd};
ghost use Rattle.lp_frac.specs.OddPart.{IsOddPart};

// The largest number of 64 bits.
const SHORT: u128 = u64::MAX as u128;

// A number above 0 without its factors 2.
fn odd_part(n: u64) -> u64
    requires { 0 < n }
    ensures { IsOddPart n (trailing_zeros w64 n) result }
{
    n >> n.trailing_zeros()
}

// The absolute difference of two odd numbers that differ, without its factors 2. These are counted in the wrapping
// difference, so that their count waits for no comparison.
fn odd_gap(x: u64, y: u64) -> u64
    requires x_odd { x % 2 ≡ 1 }
    requires y_odd { y % 2 ≡ 1 }
    requires other { x ≢ y }
    ensures odd { result % 2 ≡ 1 }
    ensures size { result ≤ abs_diff x y }
    ensures common { (a : ℕ) → a % 2 ≡ 1 → gcd a result ≡ gcd a (abs_diff x y) }
{
    x.abs_diff(y) >> x.wrapping_sub(y).trailing_zeros()
}

// The greatest common divisor of odd numbers.
fn odd_common(a: u64, b: u64) -> u64
    requires a_odd { a % 2 ≡ 1 }
    requires b_odd { b % 2 ≡ 1 }
    ensures { result ≡ gcd a b }
{
    let mut x = a;
    let mut y = b;
    while x != y {
        if x == 1 {
            return 1;
        }
        let gap = odd_gap(x, y);
        x = x.min(y);
        y = gap;
    }
    x
}

// The greatest common divisor of two numbers of 64 bits, neither of which is 0.
fn twos_common(a: u64, b: u64) -> u64
    requires a_positive { 0 < a }
    requires b_positive { 0 < b }
    ensures { result ≡ gcd a b }
{
    let twos = a.trailing_zeros().min(b.trailing_zeros());
    odd_common(odd_part(a), odd_part(b)) << twos
}

// The greatest common divisor of two numbers of 64 bits, the second of which is not the larger. Where it is not 0 and
// shorter by more than 7 bits, one remainder is taken first.
fn stepped_common(a: u64, b: u64) -> u64
    requires { b ≤ a }
    ensures { result ≡ gcd a b }
{
    if b == 0 {
        return a;
    }
    if b.leading_zeros() <= a.leading_zeros() + 7 {
        return twos_common(b, a);
    }
    let rest = a % b;
    if rest == 0 {
        return b;
    }
    twos_common(b, rest)
}

// The greatest common divisor of two numbers of 64 bits, of which either may be 0.
fn short_common(a: u64, b: u64) -> u64
    ensures { result ≡ gcd a b }
{
    if a < b {
        return stepped_common(b, a);
    }
    stepped_common(a, b)
}

// The greatest common divisor of a number of 128 bits and one of 64 bits, which may be 0.
fn half_common(a: u128, b: u128) -> u128
    requires { b < 2 ^ 64 }
    ensures { result ≡ gcd a b }
{
    if b == 0 {
        return a;
    }
    if a > SHORT {
        return short_common(b as u64, (a % b) as u64) as u128;
    }
    short_common(a as u64, b as u64) as u128
}

// A number of 128 bits, above 0, without its factors 2.
fn long_odd_part(n: u128) -> u128
    requires { 0 < n }
    ensures { IsOddPart n (trailing_zeros w128 n) result }
{
    n >> n.trailing_zeros()
}

// The greatest common divisor of two numbers of 128 bits, the first of which is odd.
fn long_odd_common(a: u128, b: u128) -> u128
    requires { a % 2 ≡ 1 }
    ensures { result ≡ gcd a b }
{
    let mut x = a;
    let mut y = b;
    while y > SHORT {
        if x <= SHORT {
            return half_common(y, x);
        }
        let z = long_odd_part(y);
        if z < x {
            y = x - z;
            x = z;
        } else {
            y = z - x;
        }
    }
    half_common(x, y)
}

// The greatest common divisor of two numbers of 128 bits, neither of which is 0. It is called where neither fits 64.
fn long_common(a: u128, b: u128) -> u128
    requires a_positive { 0 < a }
    requires b_positive { 0 < b }
    ensures { result ≡ gcd a b }
{
    let twos = a.trailing_zeros().min(b.trailing_zeros());
    long_odd_common(long_odd_part(a), b) << twos
}

// The greatest common divisor of two numbers of 64 bits, at once where one of them is 1.
fn any_short_common(a: u64, b: u64) -> u64
    ensures { result ≡ gcd a b }
{
    if a == 1 {
        return 1;
    }
    if b == 1 {
        return 1;
    }
    short_common(a, b)
}

// The greatest common divisor of two numbers of 128 bits, in the way that suits their sizes.
fn any_common(a: u128, b: u128) -> u128
    ensures { result ≡ gcd a b }
{
    if b <= SHORT {
        if a <= SHORT {
            return any_short_common(a as u64, b as u64) as u128;
        }
        return half_common(a, b);
    }
    if a <= SHORT {
        return half_common(b, a);
    }
    long_common(a, b)
}

// The greatest common divisor of two numbers of 64 bits; of 0 and another number it is the other one.
#[inline(never)]
pub(crate) fn common_of_short(a: u64, b: u64) -> u64
    ensures value { result ≡ gcd a b }
    ensures positive { 0 < b → 0 < result }
    ensures small { 0 < b → result ≤ b }
{
    any_short_common(a, b)
}

// The greatest common divisor of two numbers of 128 bits.
pub(crate) fn common(a: u128, b: u128) -> u128
    ensures value { result ≡ gcd a b }
    ensures positive { 0 < b → 0 < result }
    ensures small { 0 < b → result ≤ b }
{
    any_common(a, b)
}
