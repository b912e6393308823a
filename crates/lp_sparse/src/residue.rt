// Arithmetic modulo a prime.
use crate::field::Field;

/// The largest prime below 2^62.
pub const PRIME: u64 = 4611686018427387847;

// By so much the prime is below 2^62.
const SHORT: u128 = 57;

// The low 62 bits of a number.
const LOW: u128 = 0x3fff_ffff_ffff_ffff;

// The low 64 bits of a number.
const WORD: u128 = 0xffff_ffff_ffff_ffff;

// The prime less 2: by Fermat's little theorem a residue to the power of this is its inverse.
const INVERTING: u64 = 4611686018427387845;

/// A residue modulo the prime.
#[derive(Clone, Copy)]
pub struct Residue {
    word: u64,
}

// A number with the same residue, smaller from 2^62 on: 57 takes the place of 2^62.
#[inline(always)]
fn folded(n: u128) -> u128 {
    (n >> 62).wrapping_mul(SHORT).wrapping_add(n & LOW)
}

/// The residue of a number below 2^125, as a word below the prime.
#[inline(always)]
pub(crate) fn reduced(n: u128) -> u64 {
    let word = (folded(folded(n)) & WORD) as u64;
    if word >= PRIME { word - PRIME } else { word }
}

impl Residue {
    /// The residue of a word.
    #[inline(always)]
    pub fn new(word: u64) -> Self {
        Residue {
            word: reduced(word as u128),
        }
    }

    /// The residue of a number of 127 bits with a sign.
    #[inline(always)]
    pub fn of(n: i128) -> Self {
        let size = reduced(folded(n.unsigned_abs()));
        if n < 0 && size != 0 {
            Residue {
                word: PRIME.wrapping_sub(size),
            }
        } else {
            Residue { word: size }
        }
    }

    /// The least natural number that has this residue.
    #[inline(always)]
    pub fn word(self) -> u64 {
        self.word
    }
}

// `a` times `b` where `is_taken`, else `a`.
fn times_if(a: Residue, b: Residue, is_taken: bool) -> Residue {
    if is_taken { a.times(b) } else { a }
}

// The inverse of a residue, as its power with the exponent `PRIME - 2`. It is 0 for 0.
fn inverted(a: Residue) -> Residue {
    let mut power = a;
    let mut result = Residue { word: 1 };
    let mut bits = INVERTING;
    for _ in 0..62 {
        result = times_if(result, power, bits % 2 == 1);
        power = power.times(power);
        bits /= 2;
    }
    result
}

impl Field for Residue {
    // The residue 0.
    #[inline(always)]
    fn zero() -> Self {
        Residue { word: 0 }
    }

    // Whether the prime divides the number that it stands for.
    #[inline(always)]
    fn is_zero(self) -> bool {
        self.word == 0
    }

    // The product modulo the prime.
    #[inline(always)]
    fn times(self, other: Self) -> Self {
        Residue {
            word: reduced((self.word as u128).wrapping_mul(other.word as u128)),
        }
    }

    // `self - a b` modulo the prime.
    #[inline(always)]
    fn less_product(self, a: Self, b: Self) -> Self {
        let product = reduced((a.word as u128).wrapping_mul(b.word as u128));
        if self.word >= product {
            Residue {
                word: self.word - product,
            }
        } else {
            Residue {
                word: self.word.wrapping_add(PRIME).wrapping_sub(product),
            }
        }
    }

    // The inverse modulo the prime, by a power: 0 for 0.
    fn inverse(self) -> Self {
        inverted(self)
    }

    // Yes: no residue is rounded.
    #[inline(always)]
    fn is_exact() -> bool {
        true
    }

    // The size of a residue for the choice of pivots: 0 for the residue 0, and 1 for any other.
    fn magnitude(self) -> f64 {
        if self.word == 0 { 0.0 } else { 1.0 }
    }

    // Whether the residue is 0.
    #[inline(always)]
    fn is_negligible(self) -> bool {
        self.word == 0
    }
}
