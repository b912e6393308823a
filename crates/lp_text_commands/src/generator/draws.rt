// Draws, one after the other.
ghost use Rattle.std.specs.Prelude.{◌≡◌, ◌<◌, ◌≤◌, pos};
ghost use Rattle.spec_exact.specs.Fraction.{whole};
ghost use Rattle.spec_commands.specs.Draws.{next, draw};
ghost use Rattle.spec_commands.specs.Generated.{number_from};

use lp_frac::Frac;
use std::marker::Model;

// By what a state is multiplied for the next one.
const MULTIPLIER: u64 = 1103515245;

// What is added to that product.
const INCREMENT: u64 = 12345;

// 2^31: the next state is the remainder of that sum by it.
const MODULUS: u64 = 2147483648;

// The upper bits of a state are drawn, since the lower ones repeat too soon.
const DIVISOR: u32 = 65536;

/// What draws numbers; to contracts its state.
#[derive(Drop)]
pub struct Draws {
    state: u32,
}

impl Model for Draws {
    ghost use Rattle.std.specs.Prelude.{ℕ};

    ghost Value = { ℕ };

    ghost view = { λ d. d.state };
}

impl Draws {
    /// Draws from this seed on.
    pub fn new(seed: u32) -> Self
        ensures { result ≡ seed }
    {
        Draws { state: seed }
    }

    /// Draws the next number, from 0 to below 2^15.
    #[tactic(auto, unfolding(spec_commands::specs::Draws::next, spec_commands::specs::Draws::draw))]
    pub fn draw(&mut self) -> u32
        ensures value { result ≡ draw self.old }
        ensures state { self.new ≡ next self.old }
    {
        let state = (MULTIPLIER * u64::from(self.state) + INCREMENT) % MODULUS;
        self.state = state as u32;
        self.state / DIVISOR
    }

    /// Draws one of `many` whole numbers, of which `least` is the least.
    pub fn number_from(&mut self, least: u32, many: u32) -> Frac
        requires least { least ≤ 10 }
        requires some { 0 < many }
        requires few { many ≤ 90 }
        ensures value { result ≡ number_from least many self.old }
        ensures state { self.new ≡ next self.old }
    {
        whole(least + self.draw() % many)
    }
}

// The whole number as a fraction.
fn whole(n: u32) -> Frac
    ensures { result ≡ whole (pos n) }
{
    Frac::new(i128::from(n), 1).unwrap()
}
