// Certificates and verdicts, with numbers as the code holds them.
use lp_frac::{Frac, Fracs};

/// A certificate of one model, whose lists have a number for each column or row.
pub type Certificate = spec_check::Certificate<Fracs>;

/// What a certificate shows.
pub type Known = spec_check::Known<Frac>;

/// What a check of a certificate says.
pub type Verdict = spec_check::Verdict<Frac>;

/// Why a certificate shows nothing.
pub type CheckStop = spec_check::CheckStop<Frac>;
