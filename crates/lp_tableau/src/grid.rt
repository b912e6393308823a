// Rows of fractions of one width, kept one after the other in one block.
ghost use Rattle.std.specs.Prelude.{◌≡◌, ◌<◌, ◌+◌, ◌*◌, [], length, get_or, slice_set};
ghost use Rattle.spec_simplex.specs.Tableau.{at_place};
ghost use Rattle.lp_tableau.specs.Grid.{IsBlock, IsNarrowGrid, rows_of};

use lp_frac::{Frac, all_within, within};
use std::marker::Model;

#[derive(Drop)]
pub(crate) struct Grid {
    height: usize,
    width: usize,
    block: Vec<Frac>,
}

impl Model for Grid {
    ghost use Rattle.lp_tableau.specs.Grid.{Rows, IsHeld, rows_of};

    ghost Value = { Rows };

    ghost view = { λ g. rows_of g.width g.height g.block.items };

    ghost invariant = { λ g. IsHeld g.height g.width g.block.items };
}

// The index in the block of the entry of row `i` in column `k`. The rows stand one after the other.
fn spot(block: &[Frac], height: usize, width: usize, i: usize, k: usize) -> usize
    requires block { IsBlock height width block.now }
    requires row { i < height }
    requires column { k < width }
    ensures place { result ≡ i * width + k }
    ensures inside { result < length block.now }
{
    i * width + k
}

impl Grid {
    // The grid whose rows stand one after the other in the block.
    pub(crate) fn from_block(height: usize, width: usize, block: Vec<Frac>) -> Grid
        requires { IsBlock height width block.items }
        ensures { result ≡ rows_of width height block.items }
    {
        all_within(&block);
        Grid {
            height,
            width,
            block,
        }
    }

    // The entry of row `i` in column `k`.
    pub(crate) fn at(&self, i: usize, k: usize) -> Frac
        requires row { i < length self.now }
        requires column { k < length (get_or self.now i []) }
        ensures { result ≡ at_place self.now i k }
    {
        self.block[spot(&self.block, self.height, self.width, i, k)]
    }

    // Replaces the entry of row `i` in column `k`.
    pub(crate) fn set(&mut self, i: usize, k: usize, value: Frac)
        requires row { i < length self.old }
        requires column { k < length (get_or self.old i []) }
        ensures { self.new ≡ slice_set self.old i (slice_set (get_or self.old i []) k value) }
    {
        within(value);
        let place = spot(&self.block, self.height, self.width, i, k);
        self.block[place] = value;
    }

    // States that all fractions are within the limit, and changes nothing.
    pub(crate) fn narrow(&self)
        ensures { IsNarrowGrid self.now }
    {
        let _ = &self.block;
    }
}
