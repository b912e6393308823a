// Certificates as texts have them, with names and numbers as the code holds them.
use lp_base::{Items, Name};
use lp_frac::Frac;

/// One number of a certificate, for the column or the row with a name.
pub type PartOf<N> = spec_check::Part<Name, N>;

/// The parts of a certificate, in order.
pub type PartsOf<N> = Items<PartOf<N>>;

/// A certificate as its text has it, without a model.
pub type RawOf<N> = spec_check::RawCertificate<Name, PartsOf<N>>;

/// A certificate as its text has it, with numbers of 127 bits.
pub type RawCertificate = RawOf<Frac>;

/// What a text of a certificate is to show.
pub type CertificateKind = spec_check::CertificateKind<Name>;

/// Which name of a certificate does not fit a model.
pub type SettleFault = spec_check::SettleFault<Name>;

/// What is given to show something of one model.
pub type CertificateOf<N> = spec_check::Certificate<Items<N>>;
