// What a run over factors ends with: the certificate and the basis.
ghost use Rattle.std.specs.Prelude.{◌≡◌, ◌<◌, ◌∷◌, ◌++◌, [], All, IfOk, OnOk, length, get_or};
ghost use Rattle.spec_exact.specs.Fraction.{0ℚ};
ghost use Rattle.spec_exact.specs.Narrow.{IsNarrow};
ghost use Rattle.spec_check.specs.Certificate.{IsNarrowCertificate};
ghost use Rattle.spec_simplex.specs.Tableau.{entry_at};
ghost use Rattle.spec_runs.specs.Cold as solves;
ghost use Rattle.spec_factor.specs.Revised.{seen};
ghost use Rattle.spec_factor.specs.Over.{negatives, over_certificate};
ghost use Rattle.lp_revised.specs.Runs.{EndsWith, selection_at};

use crate::select::Column;
use crate::state::{Revised, RowStart};
use crate::steps::StepsEnd;
use lp_form::StatusList;
use lp_frac::{Frac, Fracs, narrow, neg, one, zero};
use lp_tableau::{PrimalEnd, directed};
use spec_pivot::Way;
use std::alloc::{AllocError, Global};

/// The certificate of an end, by columns and rows of the model.
pub type Certificate = spec_check::Certificate<Fracs>;

// Pushes `v` on the list, and tells proofs that its parts have at most 127 bits.
fn push(fracs: &mut Fracs, v: Frac) -> Result<(), AllocError>
    ensures pushed { OnOk result (fracs.new ≡ fracs.old ++ v ∷ []) }
    ensures narrow { IsNarrow v }
{
    let value = narrow(v);
    fracs.push(value)?;
    Ok(())
}

// The multiplier of row `i`, 0 where the list has none.
fn multiplier(y: &Fracs, i: u32) -> Frac
    ensures { result ≡ get_or y.now i 0ℚ }
{
    if (i as usize) < y.len() {
        y.at(i as usize)
    } else {
        zero()
    }
}

// The negatives of the multipliers `y`, one for each of `rows` rows; 0 for a row that `y` does not have.
pub(crate) fn negatives_of(alloc: Global, rows: u32, y: &Fracs) -> Result<Fracs, AllocError>
    ensures value { IfOk result (λ z. z ≡ negatives rows y.now) }
    ensures narrow { IfOk result (All IsNarrow) }
{
    let mut list = Fracs::new(alloc);
    for i in 0..rows {
        push(&mut list, neg(multiplier(y, i)))?;
    }
    Ok(list)
}

impl Revised {
    // The values of the structural columns, in order.
    fn point(&self, alloc: Global) -> Result<Fracs, AllocError>
        ensures value { IfOk result (λ x. x ≡ solves.point self.now.bare) }
        ensures narrow { IfOk result (All IsNarrow) }
    {
        let mut point = Fracs::new(alloc);
        for j in 0..self.cols {
            push(&mut point, self.value(j))?;
        }
        Ok(point)
    }

    // The tableau's entry at a position in the entering column.
    fn entry_in(&self, starts: &[RowStart], column: &Column, place: u32) -> Frac
        requires starts { length starts.now ≡ self.now.bare.rows }
        requires solved { length column.now.solved ≡ self.now.bare.rows }
        requires place { place < self.now.bare.rows }
        ensures { result ≡ entry_at (seen starts.now self.now.bare column.now.number column.now.solved) place
            column.now.number }
    {
        self.entry(starts, column.solved.as_slice(), place)
    }

    // How far column `k` moves when the entering column rises or falls by 1, as `way` says; 0 where `k` is another
    // nonbasic column.
    fn move_of(&self, starts: &[RowStart], column: &Column, way: Way, k: u32) -> Frac
        requires starts { length starts.now ≡ self.now.bare.rows }
        requires solved { length column.now.solved ≡ self.now.bare.rows }
        ensures { result ≡ solves.moves_by (seen starts.now self.now.bare column.now.number column.now.solved)
            column.now.number way k }
    {
        let mut moved = if k == column.number {
            directed(way, one())
        } else {
            zero()
        };
        for i in 0..self.rows() {
            if self.basic(i) == k {
                moved = neg(directed(way, self.entry_in(starts, column, i)));
            }
        }
        moved
    }

    // The ray of an unbounded end: how far each of the model's columns moves when the entering one moves by 1.
    fn direction(
        &self,
        alloc: Global,
        starts: &[RowStart],
        column: &Column,
        way: Way,
    ) -> Result<Fracs, AllocError>
        requires starts { length starts.now ≡ self.now.bare.rows }
        requires solved { length column.now.solved ≡ self.now.bare.rows }
        ensures value { IfOk result (λ r. r ≡ solves.direction
            (seen starts.now self.now.bare column.now.number column.now.solved) column.now.number way) }
        ensures narrow { IfOk result (All IsNarrow) }
    {
        let mut direction = Fracs::new(alloc);
        for k in 0..self.cols {
            push(&mut direction, self.move_of(starts, column, way, k))?;
        }
        Ok(direction)
    }

    // The certificate of an end of phase two: values with multipliers where it is optimal, else values with a ray.
    pub(crate) fn certificate(
        &self,
        alloc: Global,
        starts: &[RowStart],
        end: &StepsEnd,
    ) -> Result<Certificate, AllocError>
        requires starts { length starts.now ≡ self.now.bare.rows }
        requires with { EndsWith self.now.bare end.now.column end.now.end }
        ensures value { IfOk result (λ c. c ≡ over_certificate self.now.bare
            (selection_at starts.now self.now.bare end.now) end.now.end) }
        ensures narrow { IfOk result IsNarrowCertificate }
    {
        let x = self.point(alloc)?;
        match end.end {
            PrimalEnd::Optimal => Ok(Certificate::Optimal {
                x,
                y: negatives_of(alloc, self.rows(), &end.multipliers)?,
            }),
            PrimalEnd::Unbounded { direction, .. } => match &end.column {
                Some(column) => Ok(Certificate::Unbounded {
                    x,
                    r: self.direction(alloc, starts, column, direction)?,
                }),
                None => unreachable!(),
            },
        }
    }

    // The statuses of the basis of an optimal end, where a basic artificial counts as its row's logical; another end
    // has none.
    pub(crate) fn basis_at(
        &self,
        alloc: Global,
        end: PrimalEnd,
    ) -> Result<Option<StatusList>, AllocError>
        ensures { IfOk result (λ b. b ≡ solves.basis_at self.now.bare end) }
    {
        match end {
            PrimalEnd::Optimal => Ok(Some(self.factor_basis(alloc)?)),
            PrimalEnd::Unbounded { .. } => Ok(None),
        }
    }
}
