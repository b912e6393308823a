// Factors of a basis, and both solves over them.
ghost use Rattle.std.specs.Prelude.{◌≡◌, ◌≢◌, ◌<◌, ◌≤◌, [], Some, IfOk};
ghost use Rattle.std.specs.Prelude.{OnOk, length, get_or, slice_set, replicate};
ghost use Rattle.spec_exact.specs.Fraction.{0ℚ};
ghost use Rattle.spec_exact.specs.Narrow.{number_limit};
ghost use Rattle.spec_factor.specs.Factors.{ftran_run, btran_run, with_pair};
ghost use Rattle.lp_revised.specs.FactorAnswer.{GivesRun};
ghost use Rattle.lp_revised.specs.Eta.{AreFactorsOf};

use crate::eta::Eta;
use crate::solve::{backward_all, forward_all};
use lp_frac::{Fracs, Past};
use std::alloc::{AllocError, Global};
use std::marker::Model;

// Factors of a basis in product form: a list of pairs, each held as the items of its column that
// are not 0, and the basic column of each place.
pub(crate) struct Factors {
    etas: Vec<Eta>,
    basic: Vec<u32>,
}

impl Model for Factors {
    ghost use Rattle.spec_factor.specs.Factors as factoring;
    ghost use Rattle.lp_revised.specs.Eta.{AreFactorsOf};

    ghost Value = { factoring.Factors };

    ghost view = { λ s. record { pairs = s.etas.items; basic = s.basic.items } };

    ghost invariant = { λ s. AreFactorsOf (record { pairs = s.etas.items; basic = s.basic.items }) };
}

impl Drop for Factors {
    // Frees the memory of the pairs and of the list of basic columns.
    fn drop(self) {
        let Factors { etas, basic } = self;
        drop(etas);
        drop(basic);
    }
}

impl Factors {
    // Factors of these pairs, where `basic` has the basic column of each place.
    pub(crate) fn from_parts(etas: Vec<Eta>, basic: Vec<u32>) -> Factors
        requires { AreFactorsOf (record { pairs = etas.items; basic = basic.items }) }
        ensures { result ≡ record { pairs = etas.items; basic = basic.items } }
    {
        Factors { etas, basic }
    }

    // No pairs, and column 0 in each of `rows` places: a stand-in until factors are made.
    pub(crate) fn empty(alloc: Global, rows: u32) -> Result<Factors, AllocError>
        requires { rows ≤ 256 }
        ensures { IfOk result (λ s. s ≡ record { pairs = []; basic = replicate rows 0 }) }
    {
        let basic = Vec::from_elem(alloc, 0, rows as usize)?;
        Ok(Factors {
            etas: Vec::new(alloc),
            basic,
        })
    }

    // The basic column of a place.
    pub(crate) fn basic(&self, place: u32) -> u32
        requires { place < length self.now.basic }
        ensures { result ≡ get_or self.now.basic place 0 }
    {
        self.basic[place as usize]
    }

    // Solves for the basis's columns: `v`, by rows, becomes the list z, by places, with basis * z = v. After a refusal
    // `v` may hold any numbers.
    pub(crate) fn ftran(&self, v: &mut Fracs) -> Result<(), Past>
        requires { length v.old ≡ length self.now.basic }
        ensures run { GivesRun (ftran_run (Some number_limit) (length self.now.basic) self.now.pairs v.old) v.new result }
        ensures all { length v.new ≡ length v.old }
    {
        forward_all(&self.etas, v)
    }

    // Solves for the basis's rows: `v`, by places, becomes the list y, by rows, with y * basis = v. After a refusal `v`
    // may hold any numbers.
    pub(crate) fn btran(&self, v: &mut Fracs) -> Result<(), Past>
        requires { length v.old ≡ length self.now.basic }
        ensures run { GivesRun (btran_run (Some number_limit) (length self.now.basic) self.now.pairs v.old) v.new result }
        ensures all { length v.new ≡ length v.old }
    {
        backward_all(&self.etas, v)
    }

    // Makes column `col`, whose solution by `ftran` is `solved`, the basic one of a place at which `solved` is not 0,
    // and adds its eta pair. After an error the factors are of no more use.
    pub(crate) fn replace_solved(
        &mut self,
        alloc: Global,
        place: u32,
        col: u32,
        solved: &Fracs,
    ) -> Result<(), AllocError>
        requires place { place < length self.old.basic }
        requires all { length solved.now ≡ length self.old.basic }
        requires entry { get_or solved.now place 0ℚ ≢ 0ℚ }
        ensures ok { OnOk result (self.new ≡ record {
          pairs = with_pair self.old.pairs place solved.now;
          basic = slice_set self.old.basic place col;
        }) }
        ensures places { length self.new.basic ≡ length self.old.basic }
    {
        let _places = self.basic.len();
        let eta = Eta::from_list(alloc, place, solved)?;
        if let Err(e) = self.etas.push(eta) {
            return Err(AllocError::from(e));
        }
        self.basic[place as usize] = col;
        Ok(())
    }
}
