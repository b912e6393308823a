//! That what `lpd` says is true: laws on whole runs, which stand on what the contract of the program cites.
//!
//! | Item | What it is | Where |
//! |---|---|---|
//! | `after_exchange` | what an ask with its reply makes of a session's model | specs/ModelThen |
//! | `model_then` | the model of a session after exchanges: that of its last LOAD, as edited since | specs/ModelThen |
//! | `IsLoadedFrom` | the lines that spell a model that a session is to hold | specs/LoadedFrom |
//! | `Says` | that a reply's text is this, perhaps behind the word YES | specs/TrueAnswer |
//! | `IsTrueOf` | that a reply answers a solve, and is true of the model | specs/TrueAnswer |
//! | `IsNarrowKnown` | that a known value is of at most 127 bits | specs/TrueAnswer |
//! | `RepliesAgree` | replies that two runs of one session may give to the same asks | specs/Agree |
//! | `IsOpen`, `IsWonLine` | the line of an exact solve that knows nothing; lines of two of them, of which one may | specs/Agree |
#![tactic(auto)]

ghost use Rattle.std.specs.Prelude.{◌≡◌, ◌≢◌, ◌⊎◌, ◌≤◌, ℕ, Some, Ok};
ghost use Rattle.std.specs.Prelude.{List, [], ◌∷◌, ◌++◌, length, take, map, codes};
ghost use Rattle.spec_text.specs.Lines.{lines_of, ended_lines_of, input_limit};
ghost use Rattle.spec_text.specs.declared.line.Line.{Line};
ghost use Rattle.spec_exact.specs.Fraction.{ℚ};
ghost use Rattle.spec_model.specs.Model.{Model};
ghost use Rattle.spec_model.specs.Truth.{IsOptimal, IsInfeasible, IsUnbounded};
ghost use Rattle.spec_mps.specs.NumberText.{Is, number_of};
ghost use Rattle.spec_mps.specs.NumberWritten.{number_text};
ghost use Rattle.spec_edit.specs.Edited.{ExactEdit, edited};
ghost use Rattle.spec_check.specs.Certificate.{Holds};
ghost use Rattle.spec_check.specs.declared.certificate.Known.{Known};
ghost use Rattle.spec_check.specs.declared.certificate.Known.TheVariants as known;
ghost use Rattle.spec_check.specs.declared.certificate.Verdict.TheVariants as verdict;
ghost use Rattle.spec_server.specs.declared.addressing.Addressing.{Addressing};
ghost use Rattle.spec_server.specs.declared.asks.Ask.TheVariants as ask;
ghost use Rattle.spec_server.specs.declared.asks.Asked.{Asked as asked_of};
ghost use Rattle.spec_server.specs.declared.asks.Reply.TheVariants as reply;
ghost use Rattle.spec_server.specs.declared.command.Plain.TheVariants as command;
ghost use Rattle.spec_server.specs.Machine.{ExactAsk, State, opening};
ghost use Rattle.spec_server.specs.Exchanges.{Exchange, of_session, AloneRun, RunAlone};
ghost use Rattle.spec_truth.specs.Agree.{IsOpen, IsSameBut, HasMemory, RepliesAgree};
ghost use Rattle.spec_server.specs.Script.{Between, asks_from, ended_asks_of, script_of};
ghost use Rattle.spec_server.specs.Output.{reply_text};
ghost use Rattle.spec_server.specs.WideLines.{wide_known_text};
ghost use Rattle.spec_truth.specs.LoadedFrom.{IsLoadedFrom};
ghost use Rattle.spec_truth.specs.ModelThen.{model_then};
ghost use Rattle.spec_truth.specs.TrueAnswer.{Says, IsNarrowKnown};

/// After a run from the opening state, a session holds the model that its requests and replies say: that of its last
/// LOAD, as edited since by the edits answered OK. It is none at first and after QUIT.
pub fn sessions_hold_the_model_then()
    ensures { (places session : ℕ) (xs : List Exchange) (last : State) →
        AloneRun places opening (of_session session xs) last → last.model ≡ model_then session xs }
{}

/// In each run of sessions, an edit that is answered OK is made of the model that the session has before it, and the
/// session has the edited model right after it.
pub fn edits_answered_ok_are_made()
    ensures { (places : ℕ) (before behind : List Exchange) (x : Exchange) (e : ExactEdit) →
        RunAlone places (before ++ x ∷ behind) → x.ask ≡ ask.Plain (command.Change e) → x.reply ≡ reply.Done →
        (m : Model) × (n : Model) × (model_then x.session before ≡ Some m) × (edited m e ≡ Ok n)
        × (model_then x.session (before ++ x ∷ []) ≡ Some n) }
{}

/// A model that a script asks a session to hold is spelled by the lines after a line with the command LOAD of the
/// session. It is so whether lines name sessions or not: of lines of any input, and of those of the bytes that are
/// read, up to the last line feed or to the end.
pub fn loaded_models_are_spelled()
    ensures lines { (addressing : Addressing) (lines : List (Line (List ℕ))) (before behind : List (asked_of ExactAsk))
        (session : ℕ) (m : Model) →
        asks_from addressing Between lines ≡ before ++ record { session = session; ask = ask.Loaded m } ∷ behind →
        IsLoadedFrom addressing lines before session m }
    ensures ended { (addressing : Addressing) (bytes : List ℕ) (before behind : List (asked_of ExactAsk)) (session : ℕ)
        (m : Model) →
        ended_asks_of addressing bytes ≡ before ++ record { session = session; ask = ask.Loaded m } ∷ behind →
        IsLoadedFrom addressing (ended_lines_of (take input_limit bytes)) before session m }
    ensures whole { (addressing : Addressing) (bytes : List ℕ) (before behind : List (asked_of ExactAsk)) (session : ℕ)
        (m : Model) → length bytes ≤ input_limit →
        (script_of addressing bytes).asks ≡ before ++ record { session = session; ask = ask.Loaded m } ∷ behind →
        IsLoadedFrom addressing (lines_of bytes) before session m }
{}

/// In each run of sessions, an answer to a solve is true of the model that the session has then.
pub fn answers_are_true_of_the_model_then()
    ensures { (places : ℕ) (before behind : List Exchange) (x : Exchange) (what : Known ℚ) →
        RunAlone places (before ++ x ∷ behind) → x.reply ≡ reply.Known what →
        (m : Model) × (model_then x.session before ≡ Some m) × Holds m what }
{}

/// In each run of sessions, what a yes to a certificate says is true of the model that the session has then.
pub fn yes_is_true_of_the_model_then()
    ensures { (places : ℕ) (before behind : List Exchange) (x : Exchange) (what : Known ℚ) →
        RunAlone places (before ++ x ∷ behind) → x.reply ≡ reply.Checked (verdict.Yes what) →
        (m : Model) × (model_then x.session before ≡ Some m) × Holds m what }
{}

/// In each run of sessions, the first line of the reply to an exact solve says that nothing is known, or is that of a
/// true answer. It is true of the model that the session has then.
pub fn wide_answers_are_true_of_the_model_then()
    ensures { (places : ℕ) (before behind : List Exchange) (x : Exchange) (line : List ℕ) (more : List (List ℕ)) →
        RunAlone places (before ++ x ∷ behind) → x.reply ≡ reply.Wide (line ∷ more) →
        IsOpen line ⊎ ((m : Model) × (what : Known ℚ) × (model_then x.session before ≡ Some m)
        × (line ≡ wide_known_text what) × Holds m what) }
{}

/// What the text of a reply says is true of the session's model at that point of each run of sessions, whether it is an
/// answer or follows the word YES. After the word OPTIMAL stands the text of the optimal value.
pub fn reply_texts_are_true_of_the_model_then()
    ensures optimal { (places : ℕ) (before behind : List Exchange) (x : Exchange) (text : List ℕ) →
        RunAlone places (before ++ x ∷ behind) → Says x.reply (codes "OPTIMAL " ++ text) →
        (v : ℚ) × (number_of text ≡ Is v) × ((m : Model) × (model_then x.session before ≡ Some m) × IsOptimal m v) }
    ensures infeasible { (places : ℕ) (before behind : List Exchange) (x : Exchange) →
        RunAlone places (before ++ x ∷ behind) → Says x.reply (codes "INFEASIBLE") →
        (m : Model) × (model_then x.session before ≡ Some m) × IsInfeasible m }
    ensures unbounded { (places : ℕ) (before behind : List Exchange) (x : Exchange) →
        RunAlone places (before ++ x ∷ behind) → Says x.reply (codes "UNBOUNDED") →
        (m : Model) × (model_then x.session before ≡ Some m) × IsUnbounded m }
{}

/// What is known has a text of its own: different answers have different texts, as far as their values are of at most
/// 127 bits, and in each run of sessions they are.
pub fn known_answers_have_their_own_texts()
    ensures optimal { (v : ℚ) →
        reply_text (reply.Known (known.Optimal v)) ≡ codes "OPTIMAL " ++ number_text v }
    ensures infeasible { reply_text (reply.Known known.Infeasible) ≡ codes "INFEASIBLE" }
    ensures unbounded { reply_text (reply.Known known.Unbounded) ≡ codes "UNBOUNDED" }
    ensures yes { (what : Known ℚ) →
        reply_text (reply.Checked (verdict.Yes what))
        ≡ codes "YES " ++ reply_text (reply.Known what) }
    ensures different { (what other : Known ℚ) → IsNarrowKnown what → IsNarrowKnown other →
        reply_text (reply.Known what) ≡ reply_text (reply.Known other) →
        what ≡ other }
    ensures answered { (places : ℕ) (before behind : List Exchange) (x : Exchange) (what : Known ℚ) →
        RunAlone places (before ++ x ∷ behind) → x.reply ≡ reply.Known what → IsNarrowKnown what }
    ensures accepted { (places : ℕ) (before behind : List Exchange) (x : Exchange) (what : Known ℚ) →
        RunAlone places (before ++ x ∷ behind) → x.reply ≡ reply.Checked (verdict.Yes what) → IsNarrowKnown what }
{}

/// Two runs from the opening state, with the same requests, have the same replies if memory runs out in neither,
/// whatever each reads. But those to `HOW` and `CERT` may differ; one may answer where the other is `PAST` or `SPENT`;
/// and of two exact solves one may be `OPEN`, or their lines behind the first may differ.
pub fn runs_of_the_same_asks_agree()
    ensures { (places places' : ℕ) (xs ys : List Exchange) (last last' : State) →
        AloneRun places opening xs last → AloneRun places' opening ys last' →
        map (λ x. x.ask) xs ≡ map (λ y. y.ask) ys → HasMemory xs → HasMemory ys → RepliesAgree xs ys }
{}

/// Where two replies to a wide solve are the same or may differ, and neither begins with the line `OPEN`, both begin
/// with the same line.
pub fn wide_answers_to_the_same_asks_are_the_same()
    ensures { (line line' : List ℕ) (more more' : List (List ℕ)) →
        IsSameBut (ask.Plain command.Wide) (reply.Wide (line ∷ more)) (reply.Wide (line' ∷ more')) →
        line ≢ codes "OPEN" → line' ≢ codes "OPEN" → line ≡ line' }
{}
