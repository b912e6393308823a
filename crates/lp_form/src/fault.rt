// Why a model has no form.
ghost use Rattle.std.specs.Prelude.{◌≡◌};
ghost use Rattle.lp_form.specs.Fault.{stop_of};

use lp_frac::{Frac, Stop};
use thiserror::Error;

type FormFault = spec_simplex::FormFault<Frac>;

/// The first column whose lower bound is greater than its upper one.
#[derive(Clone, Copy, Debug, Error)]
#[error("expected bounds with a number between them, but those of column {column} clash")]
pub struct Clash {
    pub column: u32,
}

/// Why a model has no form.
pub type FormStop = Stop<Clash>;

/// The fault of a model's form as a stop of the code: a clash as its cause, or the operation that was refused.
pub(crate) fn stop_of(fault: FormFault) -> FormStop
    ensures { result ≡ stop_of fault }
{
    match fault {
        FormFault::Clash(column) => Stop::Cause(Clash { column }),
        FormFault::Past(past) => Stop::Past(past),
    }
}
