//! That what `lpd` says is true, by the words of its command line: of texts, of the models that are made from seeds, and of
//! sessions.
//!
//! | Item | What it is | Where |
//! |---|---|---|
//! | `IsTrueOutput` | that what is written is true, by the command line and by what was read | specs/TrueOutput |
//! | `IsCertified`, `IsWidelyCertified` | lines of a model and a certificate after it, and what is so of the model | specs/Certified |
//! | `AreHanded` | lines of a model and a basis file after it | specs/SpelledBasis |
//! | `IsAccepted` | that a reply answers a solve, and `check` says yes to lines with written ones behind them | specs/AcceptedLines |
//! | `SaysRange` | what a line `RANGE` says of a model | specs/SaidRange |
//! | `SaysSides` | what the lines behind a line `IIS` say of a model | specs/SaidSides |
//! | `too_wide_range`, `answered_as_before` | outputs that are false | specs/FalseOutputs |
#![tactic(auto)]

ghost use Rattle.std.specs.Prelude.{◌≡◌, ◌≢◌, ◌≤◌, ◌↔◌, ◌⊎◌, ℕ, Option, Some, None, Ok, Err};
ghost use Rattle.std.specs.Prelude.{List, [], ◌∷◌, ◌++◌, length, map, All, codes, decimal};
ghost use Rattle.std.specs.List.{flat_map};
ghost use Rattle.spec_text.specs.Lines.{lines_of};
ghost use Rattle.spec_text.specs.declared.line.Line.{Line};
ghost use Rattle.spec_exact.specs.Fraction.{ℚ};
ghost use Rattle.spec_model.specs.declared.parts.SizeLimits.{SizeLimits};
ghost use Rattle.spec_model.specs.Kept.{usual_limits};
ghost use Rattle.spec_model.specs.Model.{Model, Name};
ghost use Rattle.spec_model.specs.Truth.{IsOptimal, IsInfeasible, IsUnbounded};
ghost use Rattle.spec_mps.specs.declared.fault.Code.TheVariants as code;
ghost use Rattle.spec_mps.specs.declared.fault.MpsFault.{MpsFault};
ghost use Rattle.spec_mps.specs.declared.style.Style.{Style};
ghost use Rattle.spec_mps.specs.NumberText.{Is, number_of};
ghost use Rattle.spec_mps.specs.Steps.{Spells, SpellsWithin, RefusesWithin};
ghost use Rattle.spec_mps.specs.WideText.{most_zeros, wide_of};
ghost use Rattle.spec_mps.specs.WideText as wide;
ghost use Rattle.spec_mps.specs.WideWritten.{wide_text};
ghost use Rattle.spec_commands.specs.Generated.{generated};
ghost use Rattle.spec_bas.specs.declared.fault.BasCode.TheVariants as file_code;
ghost use Rattle.spec_bas.specs.declared.fault.BasFault.{BasFault};
ghost use Rattle.spec_check.specs.Certificate.{Holds};
ghost use Rattle.spec_check.specs.declared.certificate.Known.{Known};
ghost use Rattle.spec_check.specs.declared.certificate.Known.TheVariants as known;
ghost use Rattle.spec_check.specs.declared.certificate.Verdict.TheVariants as verdict;
ghost use Rattle.spec_server.specs.declared.addressing.Addressing.{Addressing};
ghost use Rattle.spec_server.specs.declared.addressing.Addressing.TheVariants as addressing;
ghost use Rattle.spec_server.specs.declared.asks.Refusal.TheVariants as refusal;
ghost use Rattle.spec_server.specs.declared.asks.Reply.TheVariants as reply;
ghost use Rattle.spec_commands.specs.declared.basis.BasisFault.TheVariants as basis_fault;
ghost use Rattle.spec_server.specs.Machine.{ExactAsk, ExactReply, State, opening, ExactLastAnswer};
ghost use Rattle.spec_server.specs.Exchanges.{Exchange, asked_in, AloneRun, RunAlone};
ghost use Rattle.spec_server.specs.Script.{Between, asks_from};
ghost use Rattle.spec_server.specs.Output.{check_line, reply_text, reply_lines};
ghost use Rattle.spec_commands.specs.CheckOut.{said};
ghost use Rattle.spec_commands.specs.CheckWideOut.{wide_said, wide_check_line};
ghost use Rattle.spec_server.specs.TextSaid.{TextSaid, text_said, text_said_within};
ghost use Rattle.spec_commands.specs.SolveOut.{SolveOut};
ghost use Rattle.spec_commands.specs.SolveWideOut.{SolveWideOut};
ghost use Rattle.spec_commands.specs.BasisOut.{Handed, BasisSaid, basis_said, BasisOut};
ghost use Rattle.spec_commands.specs.BasisWideOut.{BasisWideOut};
ghost use Rattle.spec_commands.specs.InputSaid.{IsSaidEarly, IsSaid};
ghost use Rattle.spec_program.specs.declared.command_line.CommandLine.TheVariants as lines;
ghost use Rattle.spec_program.specs.declared.command_line.Moved.{Moved};
ghost use Rattle.spec_program.specs.declared.command_line.Moved.TheVariants as moved;
ghost use Rattle.spec_program.specs.declared.command_line.TextCommand.TheVariants as of_text;
ghost use Rattle.spec_commands.specs.GenOut.{entry_count, size_text, GenOut};
ghost use Rattle.spec_commands.specs.IisOut.{IisOut};
ghost use Rattle.spec_presolve.specs.declared.presolved.Way.{Way};
ghost use Rattle.spec_commands.specs.PresolveOut.{way_line, PresolveOut};
ghost use Rattle.spec_commands.specs.RangeOut.{place_by, RangeOut};
ghost use Rattle.spec_commands.specs.RangesOut.{number_words, RangesOut};
ghost use Rattle.spec_program.specs.CommandLine.{ExactTextCommand};
ghost use Rattle.spec_program.specs.TextLimits.{limits_of};
ghost use Rattle.spec_commands.specs.TextOut.{SaidBy, said_of, MayWrite};
ghost use Rattle.spec_text_truth.specs.AcceptedLines.{IsAccepted};
ghost use Rattle.spec_text_truth.specs.Certified.{IsCertified, IsWidelyCertified};
ghost use Rattle.spec_text_truth.specs.SaidRange.{SaysRange};
ghost use Rattle.spec_text_truth.specs.SaidSides.{SaysSides};
ghost use Rattle.spec_text_truth.specs.SpelledBasis.{BeginsWithText, AreHanded, HaveWrongFile};
ghost use Rattle.spec_truth.specs.TrueAnswer.{IsTrueOf};
ghost use Rattle.spec_text_truth.specs.FalseOutputs.{unended_text, ended_text, too_wide_range, too_wide_ranges};
ghost use Rattle.spec_text_truth.specs.FalseOutputs.{asked_twice, answered_as_before, asked_widely, answered_widely};
ghost use Rattle.spec_text_truth.specs.TrueOutput.{HasNoFeed, IsTrueOfText, IsModelOf, AreTrueReplies, IsTrueOf as is_true_of};
ghost use Rattle.spec_mps.specs.declared.style.Style.TheVariants as form;
ghost use Rattle.spec_mps.specs.Written.{free};
ghost use Rattle.spec_check.specs.declared.certificate.Certificate.{Certificate};
ghost use Rattle.spec_check.specs.declared.solve_end.SolveEnd.TheVariants as outcome;
ghost use Rattle.spec_certificate.specs.TextWritten.{certificate_lines};
ghost use Rattle.spec_pivot.specs.declared.status.Status.{Status};
ghost use Rattle.spec_server.specs.Streams.{Streams};
ghost use Rattle.spec_server.specs.Output.{ended_lines};
ghost use Rattle.spec_serve.specs.Link.{AreFirstOf, HoldsOfAll, LinkMoves};

/// `solve` takes a text for the model that it spells within the limits of size, or for the line and the fault that
/// refuse it. Where the lines end before that is decided, they are refused as cut.
pub fn solve_reads_what_texts_spell()
    ensures spelled { (limits : SizeLimits) (style : Style) (lines : List (Line (List ℕ))) (m : Model) →
        text_said_within limits style lines ≡ Some (Ok m) ↔ SpellsWithin limits style lines m }
    ensures refused { (limits : SizeLimits) (style : Style) (lines : List (Line (List ℕ))) (fault : MpsFault) →
        text_said_within limits style lines ≡ Some (Err fault) →
        RefusesWithin limits style lines fault.line fault.code }
    ensures cut { (limits : SizeLimits) (style : Style) (lines : List (Line (List ℕ))) →
        text_said_within limits style lines ≡ None → (n : ℕ) × RefusesWithin limits style lines n code.Cut }
{}

/// What `solve` writes of a text that spells a model begins with the line of an answer, which is true of the model. The
/// first line alone says it: after the word OPTIMAL stands the text of the optimal value.
pub fn solved_texts_have_true_answers()
    ensures answer { (style : Style) (lines : List (Line (List ℕ))) (m : Model) (what : TextSaid) (written : List ℕ) →
        text_said style lines ≡ Some what → SolveOut what written → Spells style lines m →
        (answer : ExactReply) × (behind : List ℕ)
        × (written ≡ reply_text answer ++ 10 ∷ behind) × IsTrueOf m answer }
    ensures optimal { (style : Style) (lines : List (Line (List ℕ))) (m : Model) (what : TextSaid) (written : List ℕ) →
        text_said style lines ≡ Some what → SolveOut what written → Spells style lines m →
        (text behind : List ℕ) → All (λ b. b ≢ 10) text → written ≡ codes "OPTIMAL " ++ text ++ 10 ∷ behind →
        (v : ℚ) × (number_of text ≡ Is v) × IsOptimal m v }
    ensures infeasible { (style : Style) (lines : List (Line (List ℕ))) (m : Model) (what : TextSaid)
        (written : List ℕ) → text_said style lines ≡ Some what → SolveOut what written → Spells style lines m →
        (behind : List ℕ) → written ≡ codes "INFEASIBLE" ++ 10 ∷ behind → IsInfeasible m }
    ensures unbounded { (style : Style) (lines : List (Line (List ℕ))) (m : Model) (what : TextSaid)
        (written : List ℕ) → text_said style lines ≡ Some what → SolveOut what written → Spells style lines m →
        (behind : List ℕ) → written ≡ codes "UNBOUNDED" ++ 10 ∷ behind → IsUnbounded m }
{}

/// What `solve --wide` writes of a text that spells a model is true of the model, as its first line alone says it.
/// Behind `OPTIMAL` stands the text of the optimal value. It is read as this value, however wide, where it is no longer
/// than a power of ten may have zeros.
pub fn wide_solved_texts_have_true_answers()
    ensures optimal { (style : Style) (lines : List (Line (List ℕ))) (m : Model) (what : TextSaid) (written : List ℕ) →
        text_said_within (limits_of of_text.SolveWide) style lines ≡ Some what → SolveWideOut what written → SpellsWithin (limits_of of_text.SolveWide) style lines m →
        (text behind : List ℕ) → All (λ b. b ≢ 10) text → written ≡ codes "OPTIMAL " ++ text ++ 10 ∷ behind →
        (v : ℚ) × (text ≡ wide_text v) × (length text ≤ most_zeros → wide_of text ≡ wide.Is v) × IsOptimal m v }
    ensures infeasible { (style : Style) (lines : List (Line (List ℕ))) (m : Model) (what : TextSaid)
        (written : List ℕ) → text_said_within (limits_of of_text.SolveWide) style lines ≡ Some what → SolveWideOut what written → SpellsWithin (limits_of of_text.SolveWide) style lines m →
        (behind : List ℕ) → written ≡ codes "INFEASIBLE" ++ 10 ∷ behind → IsInfeasible m }
    ensures unbounded { (style : Style) (lines : List (Line (List ℕ))) (m : Model) (what : TextSaid)
        (written : List ℕ) → text_said_within (limits_of of_text.SolveWide) style lines ≡ Some what → SolveWideOut what written → SpellsWithin (limits_of of_text.SolveWide) style lines m →
        (behind : List ℕ) → written ≡ codes "UNBOUNDED" ++ 10 ∷ behind → IsUnbounded m }
{}

/// `basis` takes its input for a model and a basis, or for the line and the fault that refuse the text or the file. The
/// model is the one that the text spells within the limits of size. The basis is the one that the file behind it spells
/// for the model's form; none, where it has no form. Lines that end before that is decided are refused as cut.
pub fn basis_reads_what_texts_and_files_spell()
    ensures spelled { (limits : SizeLimits) (style : Style) (lines : List (Line (List ℕ))) (handed : Handed) →
        basis_said limits style lines ≡ Some (Ok handed) ↔ AreHanded limits style lines handed }
    ensures text_refused { (limits : SizeLimits) (style : Style) (lines : List (Line (List ℕ))) (fault : MpsFault) →
        basis_said limits style lines ≡ Some (Err (basis_fault.Text fault)) → RefusesWithin limits style lines fault.line fault.code }
    ensures file_refused { (limits : SizeLimits) (style : Style) (lines : List (Line (List ℕ))) (fault : BasFault) →
        basis_said limits style lines ≡ Some (Err (basis_fault.File fault)) →
        HaveWrongFile limits style lines fault.line fault.code }
    ensures cut { (limits : SizeLimits) (style : Style) (lines : List (Line (List ℕ))) → basis_said limits style lines ≡ None →
        ((n : ℕ) × RefusesWithin limits style lines n code.Cut) ⊎ ((n : ℕ) × HaveWrongFile limits style lines n file_code.Cut) }
{}

/// What `basis` writes of a model and a basis begins with the line of an answer, which is true of the model that the
/// text spells. The first line alone says it: after the word OPTIMAL stands the text of the optimal value.
pub fn answers_from_bases_are_true()
    ensures answer { (style : Style) (lines : List (Line (List ℕ))) (handed : Handed) (written : List ℕ) →
        basis_said (limits_of of_text.Basis) style lines ≡ Some (Ok handed) → BasisOut (Ok handed) written →
        Spells style lines handed.model
        × ((answer : ExactReply) × (behind : List ℕ)
        × (written ≡ reply_text answer ++ 10 ∷ behind) × IsTrueOf handed.model answer) }
    ensures optimal { (style : Style) (lines : List (Line (List ℕ))) (what : BasisSaid) (written : List ℕ) →
        basis_said (limits_of of_text.Basis) style lines ≡ Some what → BasisOut what written →
        (text behind : List ℕ) → All (λ b. b ≢ 10) text → written ≡ codes "OPTIMAL " ++ text ++ 10 ∷ behind →
        (v : ℚ) × (number_of text ≡ Is v) × ((m : Model) × Spells style lines m × IsOptimal m v) }
    ensures infeasible { (style : Style) (lines : List (Line (List ℕ))) (what : BasisSaid) (written : List ℕ) →
        basis_said (limits_of of_text.Basis) style lines ≡ Some what → BasisOut what written →
        (behind : List ℕ) → written ≡ codes "INFEASIBLE" ++ 10 ∷ behind →
        (m : Model) × Spells style lines m × IsInfeasible m }
    ensures unbounded { (style : Style) (lines : List (Line (List ℕ))) (what : BasisSaid) (written : List ℕ) →
        basis_said (limits_of of_text.Basis) style lines ≡ Some what → BasisOut what written →
        (behind : List ℕ) → written ≡ codes "UNBOUNDED" ++ 10 ∷ behind →
        (m : Model) × Spells style lines m × IsUnbounded m }
{}

/// What `basis --wide` writes of a text and the basis file behind it is true of the model that the text spells, as its
/// first line alone says it. Behind `OPTIMAL` stands the text of the optimal value. It is read as this value, however
/// wide, where it is no longer than a power of ten may have zeros.
pub fn answers_from_bases_are_true_at_any_width()
    ensures optimal { (style : Style) (lines : List (Line (List ℕ))) (what : BasisSaid) (written : List ℕ) →
        basis_said (limits_of of_text.BasisWide) style lines ≡ Some what → BasisWideOut what written →
        (text behind : List ℕ) → All (λ b. b ≢ 10) text → written ≡ codes "OPTIMAL " ++ text ++ 10 ∷ behind →
        (v : ℚ) × (text ≡ wide_text v) × (length text ≤ most_zeros → wide_of text ≡ wide.Is v)
        × ((m : Model) × SpellsWithin (limits_of of_text.BasisWide) style lines m × IsOptimal m v) }
    ensures infeasible { (style : Style) (lines : List (Line (List ℕ))) (what : BasisSaid) (written : List ℕ) →
        basis_said (limits_of of_text.BasisWide) style lines ≡ Some what → BasisWideOut what written →
        (behind : List ℕ) → written ≡ codes "INFEASIBLE" ++ 10 ∷ behind →
        (m : Model) × SpellsWithin (limits_of of_text.BasisWide) style lines m × IsInfeasible m }
    ensures unbounded { (style : Style) (lines : List (Line (List ℕ))) (what : BasisSaid) (written : List ℕ) →
        basis_said (limits_of of_text.BasisWide) style lines ≡ Some what → BasisWideOut what written →
        (behind : List ℕ) → written ≡ codes "UNBOUNDED" ++ 10 ∷ behind →
        (m : Model) × SpellsWithin (limits_of of_text.BasisWide) style lines m × IsUnbounded m }
{}

/// To a text with the certificate behind it that `solve`, `presolve` or `basis` wrote of it, `check` says yes, and that
/// the same is known. `solve` and `presolve` write the certificate behind the answer's line, and `basis` behind the
/// line after it. PAST and SPENT have no certificate, and of them nothing is said.
pub fn written_certificates_are_accepted()
    ensures solve { (style : Style) (lines : List (Line (List ℕ))) (m : Model) (after : List (Line (List ℕ)))
        (written : List ℕ) (text : BeginsWithText usual_limits style lines m after) → SolveOut (Ok m) written →
        (answer : ExactReply) × (behind : List ℕ) × (written ≡ reply_text answer ++ 10 ∷ behind)
        × IsAccepted style (text.front ++ text.last ∷ []) answer behind }
    ensures basis { (style : Style) (lines : List (Line (List ℕ))) (handed : Handed) (written : List ℕ)
        (are : AreHanded usual_limits style lines handed) → BasisOut (Ok handed) written →
        (answer : ExactReply) × (how behind : List ℕ)
        × (written ≡ reply_text answer ++ 10 ∷ (how ++ 10 ∷ behind)) × All (λ b. b ≢ 10) how
        × IsAccepted style (are.text.front ++ are.text.last ∷ []) answer behind }
    ensures presolve { (style : Style) (lines : List (Line (List ℕ))) (m : Model) (after : List (Line (List ℕ)))
        (written : List ℕ) (text : BeginsWithText usual_limits style lines m after) → PresolveOut (Ok m) written →
        (way : Way ℚ) × (answer : ExactReply) × (behind : List ℕ)
        × (written ≡ way_line way ++ (reply_text answer ++ 10 ∷ behind))
        × IsAccepted style (text.front ++ text.last ∷ []) answer behind }
{}

/// What `range` writes of a text that spells a model is true of the model. Where it says that the name is unknown, no
/// column or row has it. Where one has the name, it begins with the line of an answer; and where a line that says a
/// range follows the line `OPTIMAL`, this is true too. With exactly the numbers in the range in place of the one that
/// the model has, the basis that shows the optimum shows one again. With each of them the optimal value is the stated
/// one. The lines alone say it.
pub fn ranges_of_texts_are_true()
    ensures unknown { (style : Style) (lines : List (Line (List ℕ))) (m : Model) (moved : Moved) (name : Name)
        (what : TextSaid) (written : List ℕ) →
        text_said style lines ≡ Some what → RangeOut moved name what written → Spells style lines m →
        written ≡ check_line (reply.Refused (refusal.Name name)) → place_by moved m name ≡ None }
    ensures answer { (style : Style) (lines : List (Line (List ℕ))) (m : Model) (moved : Moved) (name : Name)
        (what : TextSaid) (written : List ℕ) →
        text_said style lines ≡ Some what → RangeOut moved name what written → Spells style lines m →
        (at : ℕ) → place_by moved m name ≡ Some at →
        (answer : ExactReply) × (behind : List ℕ)
        × (written ≡ reply_text answer ++ 10 ∷ behind) × IsTrueOf m answer }
    ensures optimal { (style : Style) (lines : List (Line (List ℕ))) (m : Model) (moved : Moved) (name : Name)
        (what : TextSaid) (written : List ℕ) →
        text_said style lines ≡ Some what → RangeOut moved name what written → Spells style lines m →
        (text behind : List ℕ) → All (λ b. b ≢ 10) text → written ≡ codes "OPTIMAL " ++ text ++ 10 ∷ behind →
        (v : ℚ) × (number_of text ≡ Is v) × IsOptimal m v }
    ensures infeasible { (style : Style) (lines : List (Line (List ℕ))) (m : Model) (moved : Moved) (name : Name)
        (what : TextSaid) (written : List ℕ) →
        text_said style lines ≡ Some what → RangeOut moved name what written → Spells style lines m →
        (behind : List ℕ) → written ≡ codes "INFEASIBLE" ++ 10 ∷ behind → IsInfeasible m }
    ensures unbounded { (style : Style) (lines : List (Line (List ℕ))) (m : Model) (moved : Moved) (name : Name)
        (what : TextSaid) (written : List ℕ) →
        text_said style lines ≡ Some what → RangeOut moved name what written → Spells style lines m →
        (behind : List ℕ) → written ≡ codes "UNBOUNDED" ++ 10 ∷ behind → IsUnbounded m }
    ensures range { (style : Style) (lines : List (Line (List ℕ))) (m : Model) (moved : Moved) (name : Name)
        (what : TextSaid) (written : List ℕ) →
        text_said style lines ≡ Some what → RangeOut moved name what written → Spells style lines m →
        (value low high slope behind : List ℕ) →
        All (λ b. b ≢ 10) value → All (λ b. b ≢ 32) low → All (λ b. b ≢ 32) high → All (λ b. b ≢ 10) slope →
        written ≡ codes "OPTIMAL " ++ value ++ 10 ∷ (codes "RANGE " ++ low ++ codes " " ++ high ++ codes " SLOPE " ++ slope ++ 10 ∷ behind) →
        SaysRange moved name m value low high slope }
{}

/// What `range all` writes of a text that spells a model is true of the model. That is the line of an answer and, after
/// `OPTIMAL` alone, each line that says the range of a cost or right side, whatever lines stand between the two.
pub fn all_ranges_of_texts_are_true()
    ensures answer { (style : Style) (lines : List (Line (List ℕ))) (m : Model) (what : TextSaid) (written : List ℕ) →
        text_said style lines ≡ Some what → RangesOut what written → Spells style lines m →
        (answer : ExactReply) × (behind : List ℕ)
        × (written ≡ reply_text answer ++ 10 ∷ behind) × IsTrueOf m answer }
    ensures optimal { (style : Style) (lines : List (Line (List ℕ))) (m : Model) (what : TextSaid) (written : List ℕ) →
        text_said style lines ≡ Some what → RangesOut what written → Spells style lines m →
        (text behind : List ℕ) → All (λ b. b ≢ 10) text → written ≡ codes "OPTIMAL " ++ text ++ 10 ∷ behind →
        (v : ℚ) × (number_of text ≡ Is v) × IsOptimal m v }
    ensures infeasible { (style : Style) (lines : List (Line (List ℕ))) (m : Model) (what : TextSaid)
        (written : List ℕ) → text_said style lines ≡ Some what → RangesOut what written → Spells style lines m →
        (behind : List ℕ) → written ≡ codes "INFEASIBLE" ++ 10 ∷ behind → IsInfeasible m }
    ensures unbounded { (style : Style) (lines : List (Line (List ℕ))) (m : Model) (what : TextSaid)
        (written : List ℕ) → text_said style lines ≡ Some what → RangesOut what written → Spells style lines m →
        (behind : List ℕ) → written ≡ codes "UNBOUNDED" ++ 10 ∷ behind → IsUnbounded m }
    ensures range { (style : Style) (lines : List (Line (List ℕ))) (m : Model) (what : TextSaid) (written : List ℕ) →
        text_said style lines ≡ Some what → RangesOut what written → Spells style lines m →
        (moved : Moved) (value name low high slope behind : List ℕ) (before : List (List ℕ)) →
        All (λ b. b ≢ 10) value → All (λ b. b ≢ 32) name → All (λ b. b ≢ 32) low → All (λ b. b ≢ 32) high →
        All (λ b. b ≢ 10) slope →
        written ≡ codes "OPTIMAL " ++ value ++ 10 ∷ (ended_lines before ++ number_words moved name
        ++ (codes "RANGE " ++ low ++ codes " " ++ high ++ codes " SLOPE " ++ slope ++ 10 ∷ behind)) →
        SaysRange moved name m value low high slope }
{}

/// What `iis` writes of a text that spells a model begins with the line of an answer, which is true of the model. Where a
/// line `IIS n` follows, the n lines behind it are those of n single limits and bounds that no point meets together, though
/// each set of all but one is met. The lines alone say it: they are those of no others.
pub fn contradictions_of_texts_are_true()
    ensures answer { (style : Style) (lines : List (Line (List ℕ))) (m : Model) (what : TextSaid) (written : List ℕ) →
        text_said style lines ≡ Some what → IisOut what written → Spells style lines m →
        (answer : ExactReply) × (behind : List ℕ)
        × (written ≡ reply_text answer ++ 10 ∷ behind) × IsTrueOf m answer }
    ensures optimal { (style : Style) (lines : List (Line (List ℕ))) (m : Model) (what : TextSaid) (written : List ℕ) →
        text_said style lines ≡ Some what → IisOut what written → Spells style lines m →
        (text behind : List ℕ) → All (λ b. b ≢ 10) text → written ≡ codes "OPTIMAL " ++ text ++ 10 ∷ behind →
        (v : ℚ) × (number_of text ≡ Is v) × IsOptimal m v }
    ensures infeasible { (style : Style) (lines : List (Line (List ℕ))) (m : Model) (what : TextSaid)
        (written : List ℕ) → text_said style lines ≡ Some what → IisOut what written → Spells style lines m →
        (behind : List ℕ) → written ≡ codes "INFEASIBLE" ++ 10 ∷ behind → IsInfeasible m }
    ensures unbounded { (style : Style) (lines : List (Line (List ℕ))) (m : Model) (what : TextSaid)
        (written : List ℕ) → text_said style lines ≡ Some what → IisOut what written → Spells style lines m →
        (behind : List ℕ) → written ≡ codes "UNBOUNDED" ++ 10 ∷ behind → IsUnbounded m }
    ensures sides { (style : Style) (lines : List (Line (List ℕ))) (m : Model) (what : TextSaid) (written : List ℕ) →
        text_said style lines ≡ Some what → IisOut what written → Spells style lines m →
        (count behind : List ℕ) → All (λ b. b ≢ 10) count →
        written ≡ codes "INFEASIBLE" ++ 10 ∷ (codes "IIS " ++ count ++ 10 ∷ behind) → SaysSides m count behind }
{}

/// What `presolve` writes of a text that spells a model begins with the line that says which model was solved, and the
/// line of a true answer. The answer is true of the model that the text spells. Behind the line of a smaller model the
/// answer's line alone says it.
pub fn presolved_texts_have_true_answers()
    ensures answer { (style : Style) (lines : List (Line (List ℕ))) (m : Model) (what : TextSaid) (written : List ℕ) →
        text_said style lines ≡ Some what → PresolveOut what written → Spells style lines m →
        (way : Way ℚ) × (answer : ExactReply) × (behind : List ℕ)
        × (written ≡ way_line way ++ (reply_text answer ++ 10 ∷ behind)) × IsTrueOf m answer }
    ensures optimal { (style : Style) (lines : List (Line (List ℕ))) (m : Model) (what : TextSaid) (written : List ℕ) →
        text_said style lines ≡ Some what → PresolveOut what written → Spells style lines m →
        (size text behind : List ℕ) → All (λ b. b ≢ 10) size → All (λ b. b ≢ 10) text →
        written ≡ codes "REDUCED " ++ size ++ 10 ∷ (codes "OPTIMAL " ++ text ++ 10 ∷ behind) →
        (v : ℚ) × (number_of text ≡ Is v) × IsOptimal m v }
    ensures infeasible { (style : Style) (lines : List (Line (List ℕ))) (m : Model) (what : TextSaid)
        (written : List ℕ) → text_said style lines ≡ Some what → PresolveOut what written → Spells style lines m →
        (size behind : List ℕ) → All (λ b. b ≢ 10) size →
        written ≡ codes "REDUCED " ++ size ++ 10 ∷ (codes "INFEASIBLE" ++ 10 ∷ behind) → IsInfeasible m }
    ensures unbounded { (style : Style) (lines : List (Line (List ℕ))) (m : Model) (what : TextSaid)
        (written : List ℕ) → text_said style lines ≡ Some what → PresolveOut what written → Spells style lines m →
        (size behind : List ℕ) → All (λ b. b ≢ 10) size →
        written ≡ codes "REDUCED " ++ size ++ 10 ∷ (codes "UNBOUNDED" ++ 10 ∷ behind) → IsUnbounded m }
{}

/// What `gen` writes is the line of the size of the model that is made from the seed, and the line of an answer, which
/// is true of this model. The second line alone says it: after the word OPTIMAL stands the text of the optimal value. It
/// is never the line of a model that is infeasible or unbounded.
pub fn generated_models_have_true_answers()
    ensures size { (seed rows columns : ℕ) →
        size_text (generated seed rows columns)
        ≡ codes "MODEL " ++ decimal rows ++ codes " " ++ decimal columns ++ codes " "
        ++ decimal (entry_count (generated seed rows columns)) ++ 10 ∷ [] }
    ensures answer { (seed rows columns : ℕ) (written : List ℕ) → GenOut seed rows columns written →
        (answer : ExactReply) × (behind : List ℕ)
        × (written ≡ size_text (generated seed rows columns) ++ reply_text answer ++ 10 ∷ behind)
        × IsTrueOf (generated seed rows columns) answer }
    ensures optimal { (seed rows columns : ℕ) (written size text behind : List ℕ) → GenOut seed rows columns written →
        All (λ b. b ≢ 10) size → All (λ b. b ≢ 10) text →
        written ≡ size ++ 10 ∷ (codes "OPTIMAL " ++ text ++ 10 ∷ behind) →
        (v : ℚ) × (number_of text ≡ Is v) × IsOptimal (generated seed rows columns) v }
    ensures never_infeasible { (seed rows columns : ℕ) (written size behind : List ℕ) →
        GenOut seed rows columns written → All (λ b. b ≢ 10) size →
        ¬ (written ≡ size ++ 10 ∷ (codes "INFEASIBLE" ++ 10 ∷ behind)) }
    ensures never_unbounded { (seed rows columns : ℕ) (written size behind : List ℕ) →
        GenOut seed rows columns written → All (λ b. b ≢ 10) size →
        ¬ (written ≡ size ++ 10 ∷ (codes "UNBOUNDED" ++ 10 ∷ behind)) }
{}

/// Where `check` says yes, the lines spell a model and, after its text, a certificate, and what the yes says is true
/// of the model. The line that is written alone says it.
pub fn certified_texts_are_true()
    ensures optimal { (style : Style) (lines : List (Line (List ℕ))) (v : ℚ) →
        said style lines ≡ Some (reply.Checked (verdict.Yes (known.Optimal v))) →
        IsCertified style lines (λ m. IsOptimal m v) }
    ensures infeasible { (style : Style) (lines : List (Line (List ℕ))) →
        said style lines ≡ Some (reply.Checked (verdict.Yes known.Infeasible)) → IsCertified style lines IsInfeasible }
    ensures unbounded { (style : Style) (lines : List (Line (List ℕ))) →
        said style lines ≡ Some (reply.Checked (verdict.Yes known.Unbounded)) → IsCertified style lines IsUnbounded }
    ensures optimal_line { (style : Style) (lines : List (Line (List ℕ))) (what : ExactReply) (text : List ℕ) →
        said style lines ≡ Some what → check_line what ≡ codes "YES OPTIMAL " ++ text ++ 10 ∷ [] →
        (v : ℚ) × (number_of text ≡ Is v) × IsCertified style lines (λ m. IsOptimal m v) }
    ensures infeasible_line { (style : Style) (lines : List (Line (List ℕ))) (what : ExactReply) →
        said style lines ≡ Some what → check_line what ≡ codes "YES INFEASIBLE" ++ 10 ∷ [] →
        IsCertified style lines IsInfeasible }
    ensures unbounded_line { (style : Style) (lines : List (Line (List ℕ))) (what : ExactReply) →
        said style lines ≡ Some what → check_line what ≡ codes "YES UNBOUNDED" ++ 10 ∷ [] →
        IsCertified style lines IsUnbounded }
{}

/// Where `check --wide` says yes, the lines spell a model and, after its text, a certificate whose numbers may have any
/// width, and what the yes says is true of the model. The line that is written alone says it: behind `YES OPTIMAL` stands the
/// text of the optimal value, and it is read as this value where it is no longer than a power of ten may have zeros.
pub fn widely_certified_texts_are_true()
    ensures optimal { (style : Style) (lines : List (Line (List ℕ))) (v : ℚ) →
        wide_said style lines ≡ Some (reply.Checked (verdict.Yes (known.Optimal v))) →
        IsWidelyCertified style lines (λ m. IsOptimal m v) }
    ensures infeasible { (style : Style) (lines : List (Line (List ℕ))) →
        wide_said style lines ≡ Some (reply.Checked (verdict.Yes known.Infeasible)) →
        IsWidelyCertified style lines IsInfeasible }
    ensures unbounded { (style : Style) (lines : List (Line (List ℕ))) →
        wide_said style lines ≡ Some (reply.Checked (verdict.Yes known.Unbounded)) →
        IsWidelyCertified style lines IsUnbounded }
    ensures optimal_line { (style : Style) (lines : List (Line (List ℕ))) (what : ExactReply) (text : List ℕ) →
        wide_said style lines ≡ Some what → wide_check_line what ≡ codes "YES OPTIMAL " ++ text ++ 10 ∷ [] →
        (v : ℚ) × (text ≡ wide_text v) × (length text ≤ most_zeros → wide_of text ≡ wide.Is v)
        × IsWidelyCertified style lines (λ m. IsOptimal m v) }
    ensures infeasible_line { (style : Style) (lines : List (Line (List ℕ))) (what : ExactReply) →
        wide_said style lines ≡ Some what → wide_check_line what ≡ codes "YES INFEASIBLE" ++ 10 ∷ [] →
        IsWidelyCertified style lines IsInfeasible }
    ensures unbounded_line { (style : Style) (lines : List (Line (List ℕ))) (what : ExactReply) →
        wide_said style lines ≡ Some what → wide_check_line what ≡ codes "YES UNBOUNDED" ++ 10 ∷ [] →
        IsWidelyCertified style lines IsUnbounded }
{}

/// What a command that reads a text may write of it is true of the model that the lines of the input spell.
pub fn outputs_of_texts_are_true()
    ensures { (command : ExactTextCommand) (style : Style) (after : Option (List ℕ)) (read written : List ℕ)
        (what : SaidBy command) → IsSaid (said_of command style) after read what → MayWrite command what written →
        IsTrueOfText command (IsModelOf command style after read) written }
{}

/// What `gen` may write is true of the model that is made from the seed.
pub fn outputs_of_seeds_are_true()
    ensures { (seed rows columns : ℕ) (after : Option (List ℕ)) (read written : List ℕ) →
        GenOut seed rows columns written → is_true_of (lines.Generate seed rows columns) after read written }
{}

/// In a run of sessions that are asked what the lines of the input ask first, what is written of the replies is true of the
/// models that the sessions have then.
pub fn outputs_of_sessions_are_true()
    ensures { (places : ℕ) (addressing : Addressing) (after : Option (List ℕ)) (read : List ℕ)
        (exchanges : List Exchange) → RunAlone places exchanges →
        HoldsOfAll after read
        (λ bytes. AreFirstOf (map asked_in exchanges) (asks_from addressing Between (lines_of bytes))) →
        AreTrueReplies addressing after read (flat_map (λ x. reply_lines addressing x.session x.reply) exchanges) }
{}

/// Some false outputs are refuted, however they go on. One is a range that holds right sides by which no point is
/// feasible, alone or behind another range. One is an answer to a text without its last line feed, where the byte `X`
/// comes next. One is, over a link, the value from before an edit, behind any certificate of four lines. One is a wrong
/// value of a wide solve.
pub fn false_outputs_are_refuted()
    ensures range { (after : Option (List ℕ)) (behind : List ℕ) →
        ¬ (is_true_of (lines.Read (of_text.Range moved.RightSide (codes "ROW")) form.Free) after ended_text
        (too_wide_range ++ behind)) }
    ensures ranges { (after : Option (List ℕ)) (behind : List ℕ) →
        ¬ (is_true_of (lines.Read of_text.RangeAll form.Free) after ended_text (too_wide_ranges ++ behind)) }
    ensures unended { (left behind : List ℕ) →
        ¬ (is_true_of (lines.Read of_text.Solve form.Free) (Some (88 ∷ left)) unended_text
        (codes "OPTIMAL 5" ++ 10 ∷ behind)) }
    ensures before { (after : Option (List ℕ)) (certificate : List (List ℕ)) (behind : List ℕ) →
        All HasNoFeed certificate → length certificate ≡ 4 →
        ¬ (AreTrueReplies addressing.Alone after asked_twice (answered_as_before certificate ++ behind)) }
    ensures wide { (after : Option (List ℕ)) (behind : List ℕ) →
        ¬ (AreTrueReplies addressing.Alone after asked_widely (answered_widely ++ behind)) }
{}

/// Whatever a link asked before, the last answer of its session stands up, as `last_answers_stand_up` of
/// `spec_commands` has it. What is known by it is true of the model that the session holds. To the text of this model,
/// with the lines of the answer's certificate after it, the command `check` says yes, and that the same is known.
pub fn last_answers_of_links_stand_up()
    ensures { (places : ℕ) (s : Streams) (before behind : List Exchange) → LinkMoves places s (before ++ behind) →
        (state : State) (m : Model) (last : ExactLastAnswer) (known : Known ℚ) (cert : Certificate (List ℚ))
        (basis : Option (List Status)) (pivots : ℕ) →
        AloneRun places opening before state → state.model ≡ Some m → state.last ≡ Some last →
        last.solved ≡ outcome.Ended known cert basis pivots →
        Holds m known
        × IsSaidEarly (said form.Free) (free m ++ ended_lines (certificate_lines m cert))
        (reply.Checked (verdict.Yes known)) }
{}
