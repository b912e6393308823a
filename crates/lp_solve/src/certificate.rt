// The certificates of ends.
ghost use Rattle.std.specs.Prelude.{◌≡◌, ◌<◌, [], ◌∷◌, ◌++◌, All, IfOk, OnOk, Some};
ghost use Rattle.spec_exact.specs.Narrow.{IsNarrow};
ghost use Rattle.spec_check.specs.declared.certificate.Certificate.TheVariants as certificates;
ghost use Rattle.spec_check.specs.Certificate.{IsNarrowCertificate};
ghost use Rattle.spec_simplex.specs.Tableau.{all_columns};
ghost use Rattle.spec_runs.specs.Cold as cold;
ghost use Rattle.spec_runs.specs.Warm as warm;
ghost use Rattle.lp_simplex.specs.Starts.{IsPlace};
ghost use Rattle.lp_solve.specs.Ends.{IsInside};

use lp_check::Certificate;
use lp_frac::{Frac, Fracs, LARGEST, den, neg, num, one, zero};
use lp_simplex::dual::DualEnd;
use lp_tableau::{PrimalEnd, Tableau, directed};
use spec_pivot::Way;
use std::alloc::{AllocError, Global};

// Pushes `v` on the list, and tells proofs that its parts have at most 127 bits.
fn push(fracs: &mut Fracs, v: Frac) -> Result<(), AllocError>
    ensures pushed { OnOk result (fracs.new ≡ fracs.old ++ v ∷ []) }
    ensures narrow { IsNarrow v }
{
    prove!(num(v).unsigned_abs() <= LARGEST);
    prove!(den(v).unsigned_abs() <= LARGEST);
    fracs.push(v)?;
    Ok(())
}

// The values of the model's columns.
fn point(alloc: Global, tab: &Tableau) -> Result<Fracs, AllocError>
    ensures value { IfOk result (λ x. x ≡ cold.point tab.now) }
    ensures narrow { IfOk result (All IsNarrow) }
{
    let mut point = Fracs::new(alloc);
    for j in 0..tab.cols() {
        push(&mut point, tab.value(j))?;
    }
    Ok(point)
}

// The multipliers of an optimal end: the reduced costs of the rows' logicals.
fn multipliers(alloc: Global, tab: &Tableau) -> Result<Fracs, AllocError>
    ensures value { IfOk result (λ y. y ≡ cold.multipliers tab.now) }
    ensures narrow { IfOk result (All IsNarrow) }
{
    let mut multipliers = Fracs::new(alloc);
    for i in 0..tab.rows() {
        push(&mut multipliers, tab.reduced(tab.cols() + i))?;
    }
    Ok(multipliers)
}

// How far column `k` moves when the entering column `j` rises or falls by 1.
fn move_of(tab: &Tableau, j: u32, way: Way, k: u32) -> Frac
    requires { j < all_columns tab.now }
    ensures { result ≡ cold.moves_by tab.now j way k }
{
    let mut moved = if k == j { directed(way, one()) } else { zero() };
    for i in 0..tab.rows() {
        if tab.basic(i) == k {
            moved = neg(directed(way, tab.entry(i, j)));
        }
    }
    moved
}

// The ray of an unbounded end: how far each of the model's columns moves when the entering column `j` moves by 1.
fn direction(alloc: Global, tab: &Tableau, j: u32, way: Way) -> Result<Fracs, AllocError>
    requires { j < all_columns tab.now }
    ensures value { IfOk result (λ r. r ≡ cold.direction tab.now j way) }
    ensures narrow { IfOk result (All IsNarrow) }
{
    let mut direction = Fracs::new(alloc);
    for k in 0..tab.cols() {
        push(&mut direction, move_of(tab, j, way, k))?;
    }
    Ok(direction)
}

// Farkas multipliers by a position's row: its entries in the rows' logicals, negated where its column is above its
// upper bound.
fn row_multipliers(
    alloc: Global,
    tab: &Tableau,
    position: u32,
    way: Way,
) -> Result<Fracs, AllocError>
    requires { position < tab.now.rows }
    ensures value { IfOk result (λ y. y ≡ warm.row_multipliers tab.now position way) }
    ensures narrow { IfOk result (All IsNarrow) }
{
    let mut multipliers = Fracs::new(alloc);
    for i in 0..tab.rows() {
        push(
            &mut multipliers,
            directed(way, tab.entry(position, tab.cols() + i)),
        )?;
    }
    Ok(multipliers)
}

// The certificate of an infeasible end of phase one, whose Farkas multipliers are the reduced costs.
pub(crate) fn infeasible(alloc: Global, tab: &Tableau) -> Result<Certificate, AllocError>
    ensures value { IfOk result (λ c. c ≡ certificates.Infeasible (cold.multipliers tab.now)) }
    ensures narrow { IfOk result IsNarrowCertificate }
{
    Ok(Certificate::Infeasible {
        y: multipliers(alloc, tab)?,
    })
}

// The certificate of an end by the primal method, optimal or unbounded.
pub(crate) fn certificate_at(
    alloc: Global,
    tab: &Tableau,
    end: PrimalEnd,
) -> Result<Certificate, AllocError>
    requires { IsInside tab.now (Some end) }
    ensures value { IfOk result (λ c. c ≡ cold.certificate_at tab.now end) }
    ensures narrow { IfOk result IsNarrowCertificate }
{
    let x = point(alloc, tab)?;
    match end {
        PrimalEnd::Optimal => Ok(Certificate::Optimal {
            x,
            y: multipliers(alloc, tab)?,
        }),
        PrimalEnd::Unbounded {
            col,
            direction: way,
        } => Ok(Certificate::Unbounded {
            x,
            r: direction(alloc, tab, col, way)?,
        }),
    }
}

// The certificate of an end by the dual method, optimal or infeasible.
pub(crate) fn dual_certificate(
    alloc: Global,
    tab: &Tableau,
    end: DualEnd,
) -> Result<Certificate, AllocError>
    requires { IsPlace tab.now end }
    ensures value { IfOk result (λ c. c ≡ warm.dual_certificate tab.now end) }
    ensures narrow { IfOk result IsNarrowCertificate }
{
    match end {
        DualEnd::Optimal => certificate_at(alloc, tab, PrimalEnd::Optimal),
        DualEnd::Infeasible {
            position,
            direction,
        } => Ok(Certificate::Infeasible {
            y: row_multipliers(alloc, tab, position, direction)?,
        }),
    }
}
