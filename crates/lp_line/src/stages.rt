// The readers of texts and of certificates, as stages.
ghost use Rattle.std.specs.Prelude.{refl};

use crate::hearing::{Stage, Step};
use lp_base::{Feed, Line};
use lp_certificate::{CertReader, RawCertificate};
use lp_model::{Model, UsualModel};
use lp_mps::read::{LargeReader, Reader};
use spec_mps::MpsFault;
use std::alloc::{AllocError, Global};

/// The model that a text spells, or its first wrong line and the fault.
pub type TextSaid = Result<UsualModel, MpsFault>;

/// The same where the model may be large.
pub type LargeSaid = Result<Model, MpsFault>;

/// The certificate that a text spells, or the number of the first line that does not fit.
pub type CertificateSaid = Result<RawCertificate, u32>;

impl Stage for Reader {
    type Said = TextSaid;

    ghost use Rattle.lp_line.specs.Stages.{TextSays};

    ghost says = { TextSays };

    ghost count = { λ reader. reader.lines };

    ghost silent = { λ _. refl };

    // Feeds a line to the reader of a model's text: the reader goes on, or the model or the fault is said.
    fn advance(mut self, alloc: Global, line: &Line) -> Result<Step<Reader, TextSaid>, AllocError> {
        match self.feed(alloc, line) {
            Feed::More => Ok(Step::On(self)),
            Feed::Done(model) => Ok(Step::Says(Ok(model))),
            Feed::Refused(fault) => Ok(Step::Says(Err(fault))),
            Feed::NoMemory => Err(AllocError),
        }
    }
}

impl Stage for LargeReader {
    type Said = LargeSaid;

    ghost use Rattle.lp_line.specs.Stages.{LargeSays};

    ghost says = { LargeSays };

    ghost count = { λ reader. reader.lines };

    ghost silent = { λ _. refl };

    // Feeds a line to the reader of a large model's text: the reader goes on, or the model or the fault is said.
    fn advance(
        mut self,
        alloc: Global,
        line: &Line,
    ) -> Result<Step<LargeReader, LargeSaid>, AllocError> {
        match self.feed(alloc, line) {
            Feed::More => Ok(Step::On(self)),
            Feed::Done(model) => Ok(Step::Says(Ok(model))),
            Feed::Refused(fault) => Ok(Step::Says(Err(fault))),
            Feed::NoMemory => Err(AllocError),
        }
    }
}

impl Stage for CertReader {
    type Said = CertificateSaid;

    ghost use Rattle.lp_line.specs.Stages.{CertificateSays};

    ghost says = { CertificateSays };

    ghost count = { λ reader. reader.lines };

    ghost silent = { λ _. refl };

    // Feeds a line to the reader of a certificate: it goes on, or the certificate or the unfit line is said.
    fn advance(
        mut self,
        alloc: Global,
        line: &Line,
    ) -> Result<Step<CertReader, CertificateSaid>, AllocError> {
        match self.feed(alloc, line) {
            Feed::More => Ok(Step::On(self)),
            Feed::Done(raw) => Ok(Step::Says(Ok(raw))),
            Feed::Refused(unfit) => Ok(Step::Says(Err(unfit))),
            Feed::NoMemory => Err(AllocError),
        }
    }
}
