//! Certificates as texts, and how one is matched to a model by names.
//!
//! | Item | What it is | Where |
//! |---|---|---|
//! | `settle` | the certificate of a model that parts with names make | src/settled |
//! | `cert_text` | the lines of a certificate's text | src/text |
//! | `CertReader` | a text of a certificate that is read line by line | src/reader |
//! | `is_end` | whether the words of a line end a text of a certificate | src/words |
//! | `ReaderOf` | the same over the type of numbers | src/reader |
//! | `RawCertificate`, `CertificateKind`, `Letter` | a certificate as its text has it, with names | src/certificate, `spec_check` |
//! | `RawOf`, `PartsOf`, `PartOf`, `CertificateOf` | the same, and a certificate of a model, over the type of numbers | src/certificate |
//! | `Number` | a number of a certificate: of 127 bits, or of any width | src/number, src/narrow, src/wide |
//! | `SettleError`, `SettleFault` | why parts make no certificate of a model | src/settled, src/certificate |
//!
//! That a written certificate is read back is a law of `spec_certificate`; the contracts here are equations with what the law
//! speaks of.
#![tactic(auto)]

mod certificate;
mod given;
mod narrow;
mod number;
mod reader;
mod settled;
mod text;
mod wide;
mod words;

pub use certificate::{
    CertificateKind, CertificateOf, PartOf, PartsOf, RawCertificate, RawOf, SettleFault,
};
pub use number::Number;
pub use reader::{CertReader, ReaderOf};
pub use settled::{SettleError, settle};
pub use spec_check::Letter;
pub use text::cert_text;
pub use words::is_end;
