// The numbers that certificates may have.
ghost use Rattle.std.specs.Prelude.{◌≡◌, ◌++◌, ℕ, List, Option, IfOk, OnOk};
ghost use Rattle.spec_certificate.specs.TextWritten.{Writing};

use lp_base::Bytes;
use std::alloc::{AllocError, Global};

/// A number of a certificate.
pub trait Number: Drop {
    // how a text is read as one
    ghost reading: { List ℕ → Option Self };

    // what it is for a name that no part has
    ghost nothing: { Self };

    // how one is written
    ghost writing: { Writing Self };

    /// The number that a text is; none if it is none of this kind.
    fn read(alloc: Global, text: &[u8]) -> Result<Option<Self>, AllocError>
        ensures { IfOk result (λ value. value ≡ reading text.now) };

    /// The number 0.
    fn zero(alloc: Global) -> Result<Self, AllocError>
        ensures { IfOk result (λ value. value ≡ nothing) };

    /// A copy of the number.
    fn copied(&self, alloc: Global) -> Result<Self, AllocError>
        ensures { IfOk result (λ value. value ≡ self.now) };

    /// Whether the number is 0, so that no line is written for it.
    fn is_none(&self) -> bool
        ensures { result ≡ writing.is_none self.now };

    /// Adds the text of the number.
    fn write(&self, alloc: Global, text: &mut Bytes) -> Result<(), AllocError>
        ensures { OnOk result (text.new ≡ text.old ++ writing.text self.now) };
}
