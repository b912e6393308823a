// Certificates with numbers of 127 bits.
use crate::number::Number;
use lp_base::Bytes;
use lp_frac::{Frac, is_zero, zero};
use std::alloc::{AllocError, Global};

impl Number for Frac {
    ghost use Rattle.spec_exact.specs.Fraction.{0ℚ};
    ghost use Rattle.spec_certificate.specs.NarrowText.{narrow};

    ghost reading = { narrow };

    ghost nothing = { 0ℚ };

    ghost use Rattle.spec_certificate.specs.TextWritten.{narrow_writing};

    ghost writing = { narrow_writing };

    // The number of 127 bits that the text is, if it is one.
    #[tactic(auto, using(crate::proofs::ReadNumbers::narrow_ok, crate::proofs::ReadNumbers::narrow_err))]
    fn read(_: Global, text: &[u8]) -> Result<Option<Frac>, AllocError> {
        match lp_numtext::read(text) {
            Ok(v) => Ok(Some(v)),
            Err(_) => Ok(None),
        }
    }

    // The number 0.
    fn zero(_: Global) -> Result<Frac, AllocError> {
        Ok(zero())
    }

    // A copy of the number, which takes no memory.
    fn copied(&self, _: Global) -> Result<Frac, AllocError> {
        Ok(*self)
    }

    // Whether the number is 0, so that no line is written for it.
    fn is_none(&self) -> bool {
        is_zero(*self)
    }

    // Adds the text of the number.
    fn write(&self, alloc: Global, text: &mut Bytes) -> Result<(), AllocError> {
        lp_numtext::write(alloc, *self, text)
    }
}
