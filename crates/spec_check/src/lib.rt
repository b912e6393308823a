//! Certificates, the conditions under which one is accepted, and that what an accepted one shows is true.
//!
//! | Item | What it is | Where |
//! |---|---|---|
//! | `Certificate`, `Known`, `Verdict` | what is given, and what is said of it | src/certificate |
//! | `SolveEnd` | how a solve ends: with an answer, a refused operation or a spent budget | src/solve_end |
//! | `RawCertificate`, `Part`, `SettleFault` | a certificate as its text has it, and why it is not one of a model | src/certificate |
//! | `shown`, `Holds` | what a certificate would show | specs/Certificate |
//! | `Checks` | the conditions, in no order | specs/Checks |
//! | `check_run` | the same in the checker's order, under a limit | specs/Run |
//! | `ExactRaw` | a certificate as its text has it | specs/Raw |
//! | `certificate_for` | a certificate's parts put to a model's rows and columns | specs/Settle |
//!
//! The functions here have the laws as their contracts.
//!
//! Optimality is shown by complementary slackness with bounds (Chvátal, Linear Programming, chapters 5 and 8), that no
//! point is feasible by Farkas' lemma, and that points get better without limit by a ray.
#![tactic(auto)]

mod certificate;
mod solve_end;

ghost use Rattle.std.specs.Prelude.{◌≡◌, ℕ, List, Option, None, Ok};
ghost use Rattle.spec_exact.specs.Fraction.{ℚ};
ghost use Rattle.spec_model.specs.Model.{Model};
ghost use Rattle.spec_check.specs.declared.certificate.Certificate.{Certificate};
ghost use Rattle.spec_check.specs.declared.certificate.Known.{Known};
ghost use Rattle.spec_check.specs.Certificate.{IsFor, shown, Holds};
ghost use Rattle.spec_check.specs.Checks.{Checks};
ghost use Rattle.spec_check.specs.Run.{Agrees, check_run};
ghost use Rattle.spec_check.specs.Raw.{ExactRaw};
ghost use Rattle.spec_check.specs.Settle.{certificate_for};

pub use certificate::{
    Certificate, CertificateKind, CheckStop, Known, Letter, Part, RawCertificate, SettleFault,
    Verdict,
};
pub use solve_end::SolveEnd;

/// What a certificate shows is true of the model, where the two meet the conditions: the value of its point is optimal,
/// no point is feasible, or the model is unbounded.
pub fn certificates_are_sound()
    ensures { (m : Model) (cert : Certificate (List ℚ)) → Checks m cert → Holds m (shown m cert) }
{}

/// Where the checker's run accepts a certificate of the model's sizes, at any limit, the certificate meets the
/// conditions, the run says what it shows, and that is true of the model.
pub fn runs_are_sound()
    ensures truth { (limit : Option ℕ) (m : Model) (cert : Certificate (List ℚ)) (known : Known ℚ) →
        IsFor m cert → check_run limit m cert ≡ Ok known → Holds m known }
    ensures conditions { (limit : Option ℕ) (m : Model) (cert : Certificate (List ℚ)) (known : Known ℚ) →
        IsFor m cert → check_run limit m cert ≡ Ok known → Checks m cert × (known ≡ shown m cert) }
{}

/// At a limit the checker's run ends as the run without one, or with a refused operation. So it accepts each
/// certificate that meets the conditions, unless an operation is refused.
pub fn limits_only_refuse()
    ensures accepted { (limit : Option ℕ) (m : Model) (cert : Certificate (List ℚ)) →
        Checks m cert → Agrees (check_run limit m cert) (Ok (shown m cert)) }
    ensures same { (limit : Option ℕ) (m : Model) (cert : Certificate (List ℚ)) →
        Agrees (check_run limit m cert) (check_run None m cert) }
{}

/// Where a certificate meets the conditions, the checker's run without a limit accepts it and says what it shows.
pub fn runs_are_complete()
    ensures { (m : Model) (cert : Certificate (List ℚ)) → Checks m cert → check_run None m cert ≡ Ok (shown m cert) }
{}

/// A certificate that parts make for a model has the model's sizes: as many numbers in each list as there are columns
/// or rows, and a column that it names is one of the model's.
pub fn settled_certificates_fit()
    ensures { (m : Model) (raw : ExactRaw) (cert : Certificate (List ℚ)) →
        certificate_for m raw ≡ Ok cert → IsFor m cert }
{}
