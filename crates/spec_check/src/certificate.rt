// Certificates and verdicts, over the type N of names, F of numbers, L of lists of numbers and P of lists of parts.
ghost use Rattle.std.specs.Prelude.{◌≡◌};
ghost use Rattle.spec_check.specs.declared.certificate.CheckStop.TheVariants as stop;

use spec_exact::Past;
use std::fmt::Debug;
use thiserror::Error;

/// What a part of a certificate is a number of: a column's value, a row's multiplier, or a column's part in a ray.
#[derive(Clone, Copy)]
pub enum Letter {
    X,
    Y,
    R,
}

/// One number of a certificate, for the column or the row with a name.
#[derive(Drop)]
pub struct Part<N, F> {
    pub letter: Letter,
    pub name: N,
    pub value: F,
}

/// What a text of a certificate is to show.
#[derive(Drop)]
pub enum CertificateKind<N> {
    Optimal,
    Infeasible,
    Unbounded,
    /// That the bounds of the column with this name clash.
    Clash(N),
}

/// A certificate as its text has it, without a model: what it is to show, and its parts.
#[derive(Drop)]
pub struct RawCertificate<N, P> {
    pub kind: CertificateKind<N>,
    pub parts: P,
}

/// Which name of a certificate does not fit a model.
#[derive(Debug, Drop, Error)]
pub enum SettleFault<N: Debug> {
    /// No column, or no row, has this name.
    #[error("expected the name of a column or a row of the model, but found {0:?}")]
    UnknownName(N),
    /// An earlier part has this name too, for the same letter.
    #[error("expected each name once for a letter, but found {0:?} twice")]
    Repeated(N),
}

/// What is given to show that a point is optimal, that no point is feasible, or that points get better without limit.
#[derive(Drop)]
pub enum Certificate<L> {
    /// A value for each column, and a multiplier for each row.
    Optimal { x: L, y: L },
    /// A multiplier for each row.
    Infeasible { y: L },
    /// The number of a column whose bounds clash.
    Clash(u32),
    /// A value for each column, and for each column its part in a ray.
    Unbounded { x: L, r: L },
}

/// What a certificate shows of a model: its optimal value, that no point is feasible, or that it is unbounded.
#[derive(Clone, Copy)]
pub enum Known<F> {
    /// The optimal value.
    Optimal(F),
    Infeasible,
    Unbounded,
}

/// Why a certificate shows nothing: a condition fails, or an operation is past the limit.
#[derive(Clone, Copy)]
pub enum CheckStop<F: Debug> {
    /// The number of the condition that fails.
    No(u32),
    /// The operation that is past the limit.
    Past(Past<F>),
}

impl<F: Debug> From<Past<F>> for CheckStop<F> {
    ghost from_gives = { λ p e. e ≡ stop.Past p };

    fn from(p: Past<F>) -> Self {
        CheckStop::Past(p)
    }
}

/// What a check of a certificate says: yes with what it shows, no with the number of the condition that fails, or the
/// operation that is past the limit.
#[derive(Clone, Copy)]
pub enum Verdict<F: Debug> {
    Yes(Known<F>),
    No(u32),
    Past(Past<F>),
}
