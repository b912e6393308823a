//! Texts of certificates.
//!
//! | Item | What it is | Where |
//! |---|---|---|
//! | `Progress`, `step_by` | what a line of a certificate's text leads to | src/progress, specs/Text |
//! | `SpellsBy`, `RefusesBy` | what a text of a certificate is, by how the texts of numbers are read | specs/Text |
//! | `step`, `Spells`, `Refuses` | the same, where numbers are of 127 bits | specs/NarrowText |
//! | `wide` | how the texts of numbers of any width are read | specs/WideText |
//! | `certificate_lines_by` | the text that a certificate is written as, by how its numbers are written | specs/TextWritten |
//! | `certificate_lines`, `wide_certificate_lines` | the same with numbers of 127 bits, and of any width | specs/TextWritten |
//!
//! What the parts of a text make for a model is defined in spec_check (specs/Settle). The functions here have the laws as
//! their contracts.
#![tactic(auto)]

mod progress;

ghost use Rattle.std.specs.Prelude.{◌≡◌, ◌+◌, ◌++◌, ◌∷◌, [], ℕ, List, length, Option, Some, None};
ghost use Rattle.spec_text.specs.declared.line.Line.{Line};
ghost use Rattle.spec_exact.specs.Fraction.{ℚ};
ghost use Rattle.spec_model.specs.Model.{Model};
ghost use Rattle.spec_model.specs.Kept.{IsModel};
ghost use Rattle.spec_check.specs.declared.certificate.Certificate.{Certificate};
ghost use Rattle.spec_check.specs.Certificate.{IsFor, IsNarrowCertificate};
ghost use Rattle.spec_check.specs.Raw.{RawOf, ExactRaw};
ghost use Rattle.spec_certificate.specs.declared.progress.Progress.TheVariants.{More, Done, Unfit};
ghost use Rattle.spec_certificate.specs.Text.{Reading, IsJudged, LeadsBy, SpellsBy, RefusesBy, step_by};
ghost use Rattle.spec_certificate.specs.NarrowText.{Spells};
ghost use Rattle.spec_certificate.specs.WideText.{wide};
ghost use Rattle.spec_certificate.specs.TextRead.{IsReadBack, IsWidelyReadBack, AllNumbers, IsShortNumber};

pub use progress::Progress;

/// Each text either spells one certificate, or is refused at one line; never both. This line is the first that does not
/// fit, or the one that would come next, where the lines end before END.
pub fn certificate_texts_are_judged()
    ensures { (read : Reading ℚ) (lines : List (Line (List ℕ))) → IsJudged read lines }
{}

/// The lines that a certificate of a kept model is written as, with numbers of at most 127 bits, are read as that
/// certificate, whatever lines follow.
pub fn written_certificates_are_read()
    ensures { (m : Model) (cert : Certificate (List ℚ)) → IsModel m →
        IsFor m cert → IsNarrowCertificate cert → IsReadBack m cert }
{}

/// The lines that a certificate of a kept model is written as, with numbers of any width, are read as that certificate.
/// No number's text may have more bytes than a power of ten may have zeros.
pub fn written_wide_certificates_are_read()
    ensures { (m : Model) (cert : Certificate (List ℚ)) → IsModel m →
        IsFor m cert → AllNumbers IsShortNumber cert → IsWidelyReadBack m cert }
{}

/// The steps of a text's lines, one by one, are the judgement of the text. After lines that lead on, a line leads
/// further, or ends the text, which spells that certificate whatever follows, or does not fit, and refuses the text
/// there. Where no line follows, the line that would come next does not fit.
pub fn certificate_steps_are_the_judgement()
    ensures longer { (read : Reading ℚ) (lines : List (Line (List ℕ)))
        (line : Line (List ℕ)) (s : Option (RawOf ℚ)) (raw : RawOf ℚ) →
        LeadsBy read None lines s → step_by read s line ≡ More raw → LeadsBy read None (lines ++ line ∷ []) (Some raw) }
    ensures spelled { (read : Reading ℚ) (lines more : List (Line (List ℕ)))
        (line : Line (List ℕ)) (s : Option (RawOf ℚ)) (raw : RawOf ℚ) →
        LeadsBy read None lines s → step_by read s line ≡ Done raw → SpellsBy read (lines ++ line ∷ more) raw }
    ensures refused { (read : Reading ℚ) (lines more : List (Line (List ℕ)))
        (line : Line (List ℕ)) (s : Option (RawOf ℚ)) →
        LeadsBy read None lines s → step_by read s line ≡ Unfit → RefusesBy read (lines ++ line ∷ more) (length lines + 1) }
    ensures cut { (read : Reading ℚ) (lines : List (Line (List ℕ))) (s : Option (RawOf ℚ)) →
        LeadsBy read None lines s → RefusesBy read lines (length lines + 1) }
{}

/// What a text spells where numbers are of 127 bits it spells where they may have any width.
pub fn narrow_certificates_are_read_the_same()
    ensures { (lines : List (Line (List ℕ))) (raw : ExactRaw) → Spells lines raw → SpellsBy wide lines raw }
{}
