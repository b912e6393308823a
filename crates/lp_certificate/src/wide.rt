// Certificates with numbers of any width.
use crate::number::Number;
use lp_base::Bytes;
use lp_numtext::{WideFault, read_wide, wide_text};
use lp_ratio::Ratio;
use std::alloc::{AllocError, Global};

impl Number for Ratio {
    ghost use Rattle.spec_exact.specs.Fraction.{0ℚ};
    ghost use Rattle.spec_certificate.specs.WideText.{wide};

    ghost reading = { wide };

    ghost nothing = { 0ℚ };

    ghost use Rattle.spec_certificate.specs.TextWritten.{wide_writing};

    ghost writing = { wide_writing };

    // The number of any width that the text is, if it is one, and its exponent is not too large.
    #[tactic(auto, using(crate::proofs::ReadNumbers::wide_ok, crate::proofs::ReadNumbers::wide_shape, crate::proofs::ReadNumbers::wide_far))]
    fn read(alloc: Global, text: &[u8]) -> Result<Option<Ratio>, AllocError> {
        match read_wide(alloc, text) {
            Ok(v) => Ok(Some(v)),
            Err(WideFault::Shape | WideFault::Far) => Ok(None),
            Err(WideFault::NoMemory) => Err(AllocError),
        }
    }

    // The number 0.
    fn zero(alloc: Global) -> Result<Ratio, AllocError> {
        Ratio::zero(alloc)
    }

    // A copy of the number, in memory of its own.
    fn copied(&self, alloc: Global) -> Result<Ratio, AllocError> {
        Ratio::copied(self, alloc)
    }

    // Whether the number is 0, so that no line is written for it.
    fn is_none(&self) -> bool {
        if self.is_positive() {
            return false;
        }
        !self.is_negative()
    }

    // Adds the text of the number.
    fn write(&self, alloc: Global, text: &mut Bytes) -> Result<(), AllocError> {
        let written = wide_text(alloc, self)?;
        text.extend(written.as_slice())
    }
}
