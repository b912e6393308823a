// The parts of a certificate, put to the rows and columns of a model.
ghost use Rattle.std.specs.Prelude.{◌≡◌, ◌<◌, ◌++◌, ◌∷◌, [], List, length, replicate, IfOk, OnOk, IfSome, Ok};
ghost use Rattle.spec_check.specs.Certificate.{IsFor};
ghost use Rattle.spec_check.specs.Settle as settling;
ghost use Rattle.lp_certificate.specs.Answer.{Settles, Puts, IsPlace, IsInside, IsUnknown, IsRepeated};
ghost use Rattle.lp_certificate.specs.Marks.{HasMarks, AreMarks};
ghost use Rattle.spec_check.specs.Raw.{PartOf as Part};
ghost use Rattle.lp_certificate.specs.declared.settled.SettleError.TheVariants.{NoMemory};

use crate::certificate::{CertificateKind, CertificateOf, PartOf, RawOf, SettleFault};
use crate::given::Given;
use crate::number::Number;
use lp_base::{Items, Name};
use lp_model::Model;
use spec_check::{Certificate, Letter};
use std::alloc::{AllocError, Global};
use thiserror::Error;

/// Why there is no certificate of the model.
#[derive(Debug, Drop, Error)]
pub enum SettleError {
    /// A name does not fit.
    #[error("{0}")]
    Fault(SettleFault),
    #[error("out of memory")]
    NoMemory,
}

impl From<AllocError> for SettleError {
    ghost from_gives = { λ _ e. e ≡ NoMemory };

    // The error that there is no memory for a certificate.
    fn from(_: AllocError) -> Self {
        SettleError::NoMemory
    }
}

// The error that no column or row has this name, or the error that memory ran out.
fn unknown(alloc: Global, name: &Name) -> SettleError
    ensures { IsUnknown name.now result }
{
    match name.copy(alloc) {
        Ok(name) => SettleError::Fault(SettleFault::UnknownName(name)),
        Err(_) => SettleError::NoMemory,
    }
}

// The error that the name was given a number before, or the error that memory ran out.
fn repeated(alloc: Global, name: &Name) -> SettleError
    ensures { IsRepeated name.now result }
{
    match name.copy(alloc) {
        Ok(name) => SettleError::Fault(SettleFault::Repeated(name)),
        Err(_) => SettleError::NoMemory,
    }
}

// A list of `n` zeros.
fn zeros<N: Number>(alloc: Global, n: usize) -> Result<Items<N>, AllocError>
    ensures { IfOk result (λ list. list ≡ replicate n N.nothing) }
{
    let mut list: Items<N> = Items::new(alloc);
    for i in 0..n {
        let zero = N::zero(alloc)?;
        list.push(zero)?;
    }
    Ok(list)
}

// Two lists of zeros, of these lengths.
fn two_zeros<N: Number>(
    alloc: Global,
    first: usize,
    second: usize,
) -> Result<(Items<N>, Items<N>), AllocError>
    ensures { IfOk result (λ lists. lists ≡ (replicate first N.nothing, replicate second N.nothing)) }
{
    let first = zeros(alloc, first)?;
    let second = zeros(alloc, second)?;
    Ok((first, second))
}

// The certificate of this kind in which all numbers are 0, or of the clash of the column that the kind names. That no
// column has this name is an error.
#[tactic(auto, unfolding(spec_check::specs::Settle::blank))]
fn blank<N: Number>(
    alloc: Global,
    model: &Model,
    kind: &CertificateKind,
) -> Result<CertificateOf<N>, SettleError>
    ensures answer { Settles (settling.blank N.nothing model.now kind.now) result }
    ensures fits { IfOk result (IsFor model.now) }
{
    let columns = model.cols() as usize;
    let rows = model.rows() as usize;
    match kind {
        CertificateKind::Optimal => {
            let (x, y) = two_zeros(alloc, columns, rows)?;
            Ok(Certificate::Optimal { x, y })
        }
        CertificateKind::Infeasible => {
            let y = zeros(alloc, rows)?;
            Ok(Certificate::Infeasible { y })
        }
        CertificateKind::Unbounded => {
            let (x, r) = two_zeros(alloc, columns, columns)?;
            Ok(Certificate::Unbounded { x, r })
        }
        CertificateKind::Clash(name) => match model.col_of(name.as_slice()) {
            Some(j) => Ok(Certificate::Clash(j)),
            None => Err(unknown(alloc, name)),
        },
    }
}

// The number of the column with this name, or for `y` of the row, counted from 0; none if nothing has the name.
fn place_of(model: &Model, letter: Letter, name: &[u8]) -> Option<u32>
    ensures value { result ≡ settling.place_of model.now letter name.now }
    ensures inside { IfSome result (IsPlace model.now letter) }
{
    match letter {
        Letter::X | Letter::R => model.col_of(name),
        Letter::Y => model.row_of(name),
    }
}

// Sets the number with this letter at place `k`. A certificate without such numbers stays.
fn set<N: Drop>(cert: &mut CertificateOf<N>, letter: Letter, k: u32, value: N)
    requires { IsInside letter k cert.old }
    ensures { cert.new ≡ settling.with_value letter k value cert.old }
{
    let k = k as usize;
    match (cert, letter) {
        (Certificate::Optimal { x, .. }, Letter::X) => x.set(k, value),
        (Certificate::Optimal { y, .. }, Letter::Y) => y.set(k, value),
        (Certificate::Infeasible { y }, Letter::Y) => y.set(k, value),
        (Certificate::Unbounded { x, .. }, Letter::X) => x.set(k, value),
        (Certificate::Unbounded { r, .. }, Letter::R) => r.set(k, value),
        _ => {}
    }
}

// Sets the number of the certificate that the part gives, and notes that it was given. An unknown name, or a number
// that was given before, is an error, and the certificate stays.
#[tactic(auto, unfolding(spec_check::specs::Settle::put))]
fn put<N: Number>(
    alloc: Global,
    model: &Model,
    given: &mut Given,
    part: &PartOf<N>,
    cert: &mut CertificateOf<N>,
) -> Result<(), SettleError>
    requires places { HasMarks model.now given.old }
    requires fits { IsFor model.now cert.old }
    ensures answer { (before : List (Part N)) → AreMarks model.now before given.old →
        Puts (settling.put model.now before part.now cert.old) cert.new result }
    ensures marks { OnOk result ((before : List (Part N)) → AreMarks model.now before given.old →
        AreMarks model.now (before ++ part.now ∷ []) given.new) }
    ensures places { HasMarks model.now given.new }
    ensures fits { IsFor model.now cert.new }
{
    let Some(k) = place_of(model, part.letter, part.name.as_slice()) else {
        return Err(unknown(alloc, &part.name));
    };
    if given.has(part.letter, k) {
        return Err(repeated(alloc, &part.name));
    }
    let value = part.value.copied(alloc)?;
    given.mark(part.letter, k);
    set(cert, part.letter, k, value);
    Ok(())
}

// Sets the numbers of the certificate that all parts give, in turn. The first unknown name, or number that was given
// before, is an error.
fn put_all<N: Number>(
    alloc: Global,
    model: &Model,
    parts: &[PartOf<N>],
    cert: &mut CertificateOf<N>,
) -> Result<(), SettleError>
    requires { IsFor model.now cert.old }
    ensures answer { Puts (settling.put_all model.now [] parts.now cert.old) cert.new result }
    ensures fits { IsFor model.now cert.new }
{
    let mut given = Given::nothing(alloc, model)?;
    for i in 0..parts.len() {
        if let Err(error) = put(alloc, model, &mut given, &parts[i], cert) {
            return Err(error);
        }
    }
    Ok(())
}

/// The certificate that these parts make for the model. What they do not name is 0. It fails with
/// the first name that is not known, or that stands in an earlier part with the same letter.
pub fn settle<N: Number>(
    alloc: Global,
    model: &Model,
    raw: &RawOf<N>,
) -> Result<CertificateOf<N>, SettleError>
    ensures answer { Settles (settling.certificate_by N.nothing model.now raw.now) result }
    ensures fits { IfOk result (IsFor model.now) }
{
    let mut cert = blank(alloc, model, &raw.kind)?;
    match put_all(alloc, model, raw.parts.as_slice(), &mut cert) {
        Ok(()) => Ok(cert),
        Err(error) => {
            drop(cert);
            Err(error)
        }
    }
}
