// The rows of a tableau without its artificial columns. Each of these is a twin: its row's logical column, or the
// negative of that, all through. An operation on the one gives, up to the sign, what it gives on the other.
ghost use Rattle.std.specs.Prelude.{◌≡◌, ◌≢◌, ◌<◌, ◌≤◌, ◌+◌, [], Some, length, get_or};
ghost use Rattle.spec_exact.specs.Fraction.{0ℚ};
ghost use Rattle.spec_exact.specs.Narrow.{number_limit};
ghost use Rattle.spec_simplex.specs.Tableau.{at_place};
ghost use Rattle.spec_simplex.specs.Step.{turned_run};
ghost use Rattle.lp_tableau.specs.Answer.{GivesRun};
ghost use Rattle.lp_tableau.specs.Grid.{IsGrid};
ghost use Rattle.lp_tableau.specs.Twins.{IsTwinned, twinned};

use crate::elimination::{item, turn};
use crate::grid::Grid;
use crate::pivot::Pivot;
use lp_frac::{Frac, Past};
use std::marker::Model;

#[derive(Drop)]
pub(crate) struct Twins {
    // How many columns have no twin, and how many have one.
    first: u32,
    others: u32,
    grid: Grid,
    // Whether the twin is the negative.
    turned: Vec<bool>,
}

impl Model for Twins {
    ghost use Rattle.lp_tableau.specs.Grid.{Rows};
    ghost use Rattle.lp_tableau.specs.Twins.{IsTwinned, twinned};

    ghost Value = { Rows };

    ghost view = { λ t. twinned t.first t.turned.items t.grid };

    ghost invariant = { λ t. IsTwinned t.first t.others t.turned.items t.grid };
}

impl Twins {
    // Rows in which each column from `first` on gets a twin: itself, or its negative where it is turned.
    pub(crate) fn from_grid(first: u32, others: u32, grid: Grid, turned: Vec<bool>) -> Twins
        requires { IsTwinned first others turned.items grid }
        ensures { result ≡ twinned first turned.items grid }
    {
        Twins {
            first,
            others,
            grid,
            turned,
        }
    }

    // The entry of row `i` in column `k`, which may be a twin.
    pub(crate) fn at(&self, i: usize, k: usize) -> Frac
        requires row { i < length self.now }
        requires column { k < length (get_or self.now i []) }
        ensures { result ≡ at_place self.now i k }
    {
        item(&self.grid, self.first, self.others, &self.turned, i, k)
    }

    // Pivots all rows: afterwards the pivot's column has 1 in the row of its position and 0 in all other rows. Refused
    // where a number is past 127 bits.
    pub(crate) fn turn(&mut self, height: u32, width: u32, at: Pivot) -> Result<(), Past>
        requires shape { IsGrid height width self.old }
        requires place { at.position < height }
        requires column { at.column < width }
        requires entry { at_place self.old at.position at.column ≢ 0ℚ }
        ensures rows { GivesRun (turned_run (Some number_limit) height width self.old at.position at.column) self.new
            result }
        ensures shape { IsGrid height width self.new }
    {
        turn(&mut self.grid, self.first, self.others, &self.turned, at)
    }
}
