//! What each command on the text of a model writes, and what `gen` writes of the model that it makes.
//!
//! | Item | What it is | Where |
//! |---|---|---|
//! | `said_of`, `MayWrite`, `code_of` | what a command that reads a text says of it, and writes, with its status | specs/TextOut |
//! | `IsSaid` | what a step from line to line says of an input, by the bytes that were read | specs/InputSaid |
//! | `said`, `CheckOut` | what the command `check` says of its input, and the line that it writes | specs/CheckOut |
//! | `wide_said`, `wide_check_line` | the same, where the certificate's numbers may have any width | specs/CheckWideOut |
//! | `SolveOut` | what the command `solve` writes of the text of a model | specs/SolveOut |
//! | `SolveWideOut` | what it writes where the numbers of its answer may have any width | specs/SolveWideOut |
//! | `basis_said`, `BasisOut` | what the command `basis` reads, and what it writes of it | specs/BasisOut |
//! | `BasisWideOut` | what it writes where the numbers of its answer may have any width | specs/BasisWideOut |
//! | `BasisFault` | why it has no model to solve | src/basis |
//! | `RangeOut` | what the command `range` writes of a text | specs/RangeOut |
//! | `RangesOut` | what the command `range all` writes of a text | specs/RangesOut |
//! | `PresolveOut` | what the command `presolve` writes of a text | specs/PresolveOut |
//! | `IisOut` | what the command `iis` writes of a text | specs/IisOut |
//! | `next`, `draw`, `draws` | the states of a generator of numbers, and what is drawn | specs/Draws |
//! | `generated` | the model of a seed, with so many rows and columns | specs/Generated |
//! | `GenOut` | what the command `gen` writes of the model that it makes | specs/GenOut |
//!
//! Models of seeds are linear programs as large as the usual limits allow, the same wherever they are made: rows are of kind
//! `L` with right sides above 0, and columns have both bounds, of which the lower one is 0.
#![tactic(auto)]

ghost use Rattle.std.specs.Prelude.{◌≡◌, ◌⊎◌, ◌≤◌, ℕ, List, [], ◌∷◌, ◌++◌, length, map, replicate, codes, Option, Some, None, Ok};
ghost use Rattle.spec_text.specs.Lines.{ended_lines_of, input_limit};
ghost use Rattle.spec_text.specs.declared.line.Line.{Line};
ghost use Rattle.spec_exact.specs.Fraction.{ℚ, 0ℚ};
ghost use Rattle.spec_exact.specs.declared.past.Past.{Past};
ghost use Rattle.spec_model.specs.Model.{Model};
ghost use Rattle.spec_model.specs.Kept.{IsUsualModel, large_limits, row_limit, column_limit};
ghost use Rattle.spec_model.specs.Truth.{IsFeasible, IsUnbounded};
ghost use Rattle.spec_mps.specs.declared.style.Style.{Style};
ghost use Rattle.spec_mps.specs.declared.style.Style.TheVariants as form;
ghost use Rattle.spec_mps.specs.Steps.{SpellsWithin};
ghost use Rattle.spec_mps.specs.Written.{free, fixed, too_wide};
ghost use Rattle.spec_check.specs.declared.certificate.Certificate.{Certificate};
ghost use Rattle.spec_check.specs.declared.certificate.Known.{Known};
ghost use Rattle.spec_check.specs.declared.certificate.Verdict.{Verdict};
ghost use Rattle.spec_check.specs.declared.certificate.Verdict.TheVariants as verdict;
ghost use Rattle.spec_check.specs.Certificate.{Holds};
ghost use Rattle.spec_certificate.specs.TextWritten.{certificate_lines, wide_certificate_lines};
ghost use Rattle.spec_pivot.specs.declared.status.Status.{Status};
ghost use Rattle.spec_check.specs.declared.solve_end.SolveEnd.TheVariants as outcome;
ghost use Rattle.spec_solve.specs.Answers.{MayAnswer};
ghost use Rattle.spec_solve.specs.declared.exact.ExactEnd.TheVariants as exact;
ghost use Rattle.spec_solve.specs.Exact.{RationalAnswer, IsExactEnd};
ghost use Rattle.spec_server.specs.declared.asks.Reply.TheVariants as reply;
ghost use Rattle.spec_server.specs.Machine.{ExactLastAnswer, AreKept};
ghost use Rattle.spec_server.specs.Machine.{State, opening};
ghost use Rattle.spec_server.specs.Exchanges.{Exchange, asked_in, AloneRun};
ghost use Rattle.spec_server.specs.Output.{ended_lines};
ghost use Rattle.spec_server.specs.WideLines.{wide_known_text};
ghost use Rattle.spec_commands.specs.InputSaid.{IsSaidEarly};
ghost use Rattle.spec_commands.specs.CheckOut.{said};
ghost use Rattle.spec_commands.specs.CheckWideOut.{wide_said};
ghost use Rattle.spec_server.specs.TextSaid.{text_said_within};
ghost use Rattle.spec_commands.specs.SolveWideOut.{SolveWideOut};
ghost use Rattle.spec_commands.specs.BasisOut.{Handed};
ghost use Rattle.spec_commands.specs.BasisWideOut.{BasisWideOut};
ghost use Rattle.spec_commands.specs.Draws.{draws};
ghost use Rattle.spec_commands.specs.Generated.{generated};
ghost use Rattle.spec_runs.specs.Solve.{SolveEnd};
ghost use Rattle.spec_solve.specs.Answers.{IsSolved};
ghost use Rattle.spec_range.specs.Span.{Keeps};

mod basis;

pub use basis::BasisFault;

/// The last answer of a session stands up, whatever it was asked before with models and edits that may be kept, as
/// those of scripts and of links are. What is known by it is true of the model that the session holds, and to the text
/// of this model with the lines of the answer's certificate after it the command `check` says yes, and that the same is
/// known.
pub fn last_answers_stand_up()
    ensures { (places : ℕ) (xs : List Exchange) (state : State) (m : Model) (last : ExactLastAnswer)
        (known : Known ℚ) (cert : Certificate (List ℚ)) (basis : Option (List Status)) (pivots : ℕ) →
        AreKept (map asked_in xs) → AloneRun places opening xs state →
        state.model ≡ Some m → state.last ≡ Some last → last.solved ≡ outcome.Ended known cert basis pivots →
        Holds m known
        × IsSaidEarly (said form.Free) (free m ++ ended_lines (certificate_lines m cert))
        (reply.Checked (verdict.Yes known)) }
{}

/// Anyone can check an answer for a model that sessions may hold. To its text with the lines of the certificate after
/// it the command `check` says yes, and that the same is known, whatever follows. It is so in free form, and in fixed
/// form where this has room for the model.
pub fn answers_check_against_the_written_text()
    ensures free { (m : Model) (budget : ℕ) (known : Known ℚ) (cert : Certificate (List ℚ))
        (basis : Option (List Status)) (pivots : ℕ) →
        IsUsualModel m → MayAnswer m budget (outcome.Ended known cert basis pivots) →
        IsSaidEarly (said form.Free) (free m ++ ended_lines (certificate_lines m cert))
        (reply.Checked (verdict.Yes known)) }
    ensures fixed { (m : Model) (budget : ℕ) (known : Known ℚ) (cert : Certificate (List ℚ))
        (basis : Option (List Status)) (pivots : ℕ) →
        IsUsualModel m → too_wide m ≡ None → MayAnswer m budget (outcome.Ended known cert basis pivots) →
        IsSaidEarly (said form.Fixed) (fixed m ++ ended_lines (certificate_lines m cert))
        (reply.Checked (verdict.Yes known)) }
{}

/// The verdict of a check at 127 bits on a certificate is also that of a check where numbers may have any width, unless
/// it is that an operation is past the limit.
pub fn wide_checks_say_the_same()
    ensures { (style : Style) (lines : List (Line (List ℕ))) (v : Verdict ℚ) →
        said style lines ≡ Some (reply.Checked v) →
        (wide_said style lines ≡ Some (reply.Checked v)) ⊎ ((p : Past ℚ) × (v ≡ verdict.Past p)) }
{}

/// What `solve --wide` writes of a model is the line `OPEN`, or begins with the line of an answer that is true of the model.
pub fn exact_solves_write_true_answers()
    ensures { (m : Model) (written : List ℕ) → SolveWideOut (Ok m) written →
        (written ≡ ended_lines (codes "OPEN" ∷ [])) ⊎ ((known : Known ℚ) × (behind : List ℕ)
        × (written ≡ wide_known_text known ++ 10 ∷ behind) × Holds m known) }
{}

/// What `basis --wide` writes of a model and a basis is the line `OPEN`, or begins with the line of an answer that is true
/// of the model.
pub fn exact_solves_from_bases_write_true_answers()
    ensures { (handed : Handed) (written : List ℕ) → BasisWideOut (Ok handed) written →
        (written ≡ ended_lines (codes "OPEN" ∷ [])) ⊎ ((known : Known ℚ) × (behind : List ℕ)
        × (written ≡ wide_known_text known ++ 10 ∷ behind) × Holds handed.model known) }
{}

/// Anyone can check an exact answer: `check --wide` says yes to its certificate behind a text that spells its model,
/// and that the same is known. It says so whatever follows, as far as an input may be read. It is so of an answer from
/// a basis too.
pub fn wide_answers_check_against_the_text()
    ensures { (style : Style) (text : List ℕ) (front : List (Line (List ℕ))) (last : Line (List ℕ)) (m : Model)
        (budget : ℕ) (starting : Option (List Status)) (a : RationalAnswer) →
        ended_lines_of (text ++ 10 ∷ []) ≡ front ++ last ∷ [] → text_said_within large_limits style front ≡ None →
        SpellsWithin large_limits style (front ++ last ∷ []) m → IsExactEnd m budget starting (exact.Answered a) →
        length ((text ++ 10 ∷ []) ++ ended_lines (wide_certificate_lines m a.certificate)) ≤ input_limit →
        IsSaidEarly (wide_said style) ((text ++ 10 ∷ []) ++ ended_lines (wide_certificate_lines m a.certificate))
        (reply.Checked (verdict.Yes a.known)) }
{}

/// Where a solve to which no basis was handed leaves a basis, this shows that its point is optimal in the model.
pub fn solved_bases_keep_models()
    ensures { (m : Model) (budget : ℕ) (solved : SolveEnd) (known : Known ℚ) (cert : Certificate (List ℚ))
        (left : List Status) (pivots : ℕ) →
        IsSolved m budget None solved → solved.end ≡ outcome.Ended known cert (Some left) pivots → Keeps m left }
{}

/// The first five draws from state 1 on are those of the C standard's example.
#[tactic(auto, unfolding(crate::specs::Draws::next, crate::specs::Draws::draw))]
pub fn draws_are_those_of_the_c_standard()
    ensures { draws 5 1 ≡ 16838 ∷ 5758 ∷ 10113 ∷ 17515 ∷ 31051 ∷ [] }
{}

/// Each generated model within the usual limits may be kept in a session.
pub fn generated_models_may_be_kept()
    ensures { (seed rows columns : ℕ) → rows ≤ row_limit → columns ≤ column_limit →
        IsUsualModel (generated seed rows columns) }
{}

/// The point 0 is feasible in each generated model, and its points have no values without limit: the model is neither
/// infeasible nor unbounded.
pub fn generated_models_are_feasible_and_bounded()
    ensures feasible { (seed rows columns : ℕ) → IsFeasible (generated seed rows columns) (replicate columns 0ℚ) }
    ensures bounded { (seed rows columns : ℕ) → ¬ (IsUnbounded (generated seed rows columns)) }
{}
