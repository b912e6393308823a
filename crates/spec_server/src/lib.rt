//! The server: the asks of a script, the replies of one session, and the lines that are written of them.
//!
//! | Item | What it is | Where |
//! |---|---|---|
//! | `Ask`, `Reply`, `Refusal` | what a session is asked, and what it replies | src/asks |
//! | `LastAnswer` | what a session keeps of a solve | src/answer |
//! | `How`, `Publication` | how an answer was found, and what other sessions were given of it | src/answer |
//! | `Command`, `command_of` | what the words of a line ask its session | src/command, specs/Command |
//! | `Addressing`, `addressed_in` | whether lines name sessions, and which | src/addressing, specs/Addressing |
//! | `edit_by` | the edit that a line's words ask for | specs/EditCommand |
//! | `Pending` | what the lines of a script have begun | specs/Script |
//! | `LastFits` | what holds of the last answer that a session keeps | specs/LastFits |
//! | `IsAcceptedBack` | that the certificate of an answer is accepted, handed back | specs/HandedBack |
//! | `AreKept` | asks whose models and edits may be kept | specs/Machine |
//! | `State`, `due` | what a session holds, and what is due to an ask | specs/Machine |
//! | `Begins`, `Works`, `Concludes` | the parts of a step: before a look, after it, and after a put | specs/Step |
//! | `AloneStep` | a step of the one-session machine, with what it reads | specs/Step |
//! | `Started`, `Next`, `Standing` | a step in parts, by what a session is to be told next | src/halves, specs/Halves |
//! | `AloneRun` | the runs of the one-session machine | specs/Exchanges |
//! | `RunAlone` | the exchanges of many sessions, each on its own | specs/Exchanges |
//! | `RunFits` | those, with what they read of the places that they share | specs/Exchanges |
//! | `script_of` | the asks of a script and how it ends, by its bytes and by whether its lines name sessions | specs/Script |
//! | `IsWorkers`, `IsPlaces` | how many workers serve sessions, and how many places these share | specs/Shared |
//! | `Streams` | what a source has left and a sink has taken, before a call and after it | specs/Streams |
//! | `said_by`, `text_said` | what a step from line to line says of lines, and what the reader of texts says | specs/Said, specs/TextSaid |
//! | `reply_text`, `reply_lines` | what is written of a reply | specs/Output |
//! | `wide_lines` | the lines that an exact solve is answered with | specs/WideLines |
//! | `script_out` | what is written of the replies of a script | specs/ScriptOut |
#![tactic(auto)]

ghost use Rattle.std.specs.Prelude.{◌≡◌, ◌⊎◌, ℕ, List, [], map, Option, Some, IfSome};
ghost use Rattle.std.specs.List.{filter};
ghost use Rattle.spec_text.specs.declared.line.Line.{Line};
ghost use Rattle.spec_exact.specs.Fraction.{ℚ};
ghost use Rattle.spec_exact.specs.Narrow.{number_limit};
ghost use Rattle.spec_model.specs.Model.{Model};
ghost use Rattle.spec_model.specs.Kept.{IsModel, IsUsualModel};
ghost use Rattle.spec_check.specs.declared.certificate.Certificate.{Certificate};
ghost use Rattle.spec_check.specs.declared.certificate.Known.{Known};
ghost use Rattle.spec_check.specs.declared.certificate.Verdict.TheVariants as verdict;
ghost use Rattle.spec_check.specs.Certificate.{Holds};
ghost use Rattle.spec_check.specs.Raw.{ExactRaw};
ghost use Rattle.spec_pivot.specs.declared.status.Status.{Status};
ghost use Rattle.spec_check.specs.declared.solve_end.SolveEnd.TheVariants as outcome;
ghost use Rattle.spec_runs.specs.Cold.{cold};
ghost use Rattle.spec_solve.specs.Answers.{MayAnswer};
ghost use Rattle.spec_server.specs.declared.asks.Ask.TheVariants as ask;
ghost use Rattle.spec_server.specs.declared.asks.Asked.{Asked as asked_of};
ghost use Rattle.spec_server.specs.declared.asks.Reply.TheVariants as reply;
ghost use Rattle.spec_server.specs.declared.command.Plain.TheVariants as command;
ghost use Rattle.spec_server.specs.HandedBack.{IsAcceptedBack};
ghost use Rattle.spec_server.specs.LastFits.{LastFits};
ghost use Rattle.spec_board.specs.Reads.{ExactRead};
ghost use Rattle.spec_server.specs.Machine.{ExactAsk, ExactReply, IsKeptAsk, AreKept};
ghost use Rattle.spec_server.specs.Machine.{is_memory, State, opening};
ghost use Rattle.spec_server.specs.Step.{AloneStep};
ghost use Rattle.spec_server.specs.Exchanges.{Exchange, asked_in, RunAlone};
ghost use Rattle.spec_server.specs.declared.addressing.Addressing.{Addressing as addressing_kind};
ghost use Rattle.spec_server.specs.Script.{Between, asks_from, ended_asks_of, script_of};

mod addressing;
mod answer;
mod asks;
mod command;
mod halves;

pub use addressing::Addressing;
pub use answer::{How, LastAnswer, Publication};
pub use asks::{Ask, Asked, Refusal, Reply};
pub use command::{Command, CommandWord, EditWord, LineFault, Plain};
pub use halves::{Next, Started};

/// What a session says of a certificate with a yes is true of the model that it holds.
pub fn accepted_certificates_are_true()
    ensures { (places : ℕ) (old new : State) (raw : ExactRaw) (reads : List ExactRead) (known : Known ℚ) →
        AloneStep places old (ask.Checked raw) reads (reply.Checked (verdict.Yes known)) new →
        (m : Model) × (old.model ≡ Some m) × Holds m known }
{}

/// What a session answers to a solve is true of the model that it holds.
pub fn answers_are_true()
    ensures { (places : ℕ) (old new : State) (reads : List ExactRead) (known : Known ℚ) →
        AloneStep places old (ask.Plain command.Solve) reads (reply.Known known) new →
        (m : Model) × (old.model ≡ Some m) × Holds m known }
{}

/// Where the cold solve of a session's model, at the limit and within its budget, ends with an answer, the reply to
/// `SOLVE` is the same one, or `MEMORY`. It is so whatever is read of the board.
pub fn solves_answer_as_the_cold_run()
    ensures { (places : ℕ) (old new : State) (reads : List ExactRead) (replied : ExactReply) (m : Model)
        (known : Known ℚ) (cert : Certificate (List ℚ)) (basis : Option (List Status)) (pivots : ℕ) →
        old.model ≡ Some m → cold (Some number_limit) old.budget m ≡ outcome.Ended known cert basis pivots →
        AloneStep places old (ask.Plain command.Solve) reads replied new →
        (replied ≡ reply.Known known) ⊎ (replied ≡ reply.Memory) }
{}

/// The last answer that a session keeps is one that its model may have: so it is in the opening state, and each step
/// keeps it so.
pub fn last_answers_fit()
    ensures opening { LastFits opening.model opening.last }
    ensures steps { (places : ℕ) (old new : State) (asked : ExactAsk) (reads : List ExactRead) (replied : ExactReply) →
        AloneStep places old asked reads replied new → LastFits old.model old.last → LastFits new.model new.last }
{}

/// Where the models that a session is asked to load are usual and may be kept, and its edits may be kept, each model
/// that it holds is usual and may be kept.
pub fn sessions_keep_models()
    ensures opening { IfSome opening.model IsUsualModel }
    ensures steps { (places : ℕ) (old new : State) (asked : ExactAsk) (reads : List ExactRead) (replied : ExactReply) →
        AloneStep places old asked reads replied new → IsKeptAsk asked → IfSome old.model IsUsualModel →
        IfSome new.model IsUsualModel }
{}

/// The certificate of an answer that a model may have is accepted, with memory enough, if its lines are given to a
/// session that holds the model.
pub fn certificates_are_accepted_back()
    ensures { (m : Model) (budget : ℕ) (known : Known ℚ) (cert : Certificate (List ℚ))
        (basis : Option (List Status)) (pivots : ℕ) →
        IsModel m → MayAnswer m budget (outcome.Ended known cert basis pivots) → IsAcceptedBack m known cert }
{}

/// For each list of requests whose models and edits may be kept there are exchanges of just these requests in which
/// each session runs as one that is alone, and no reply is `MEMORY`.
pub fn asks_have_a_run()
    ensures { (places : ℕ) (asks : List (asked_of ExactAsk)) → AreKept asks →
        (xs : List Exchange) × (map asked_in xs ≡ asks) × RunAlone places xs
        × (filter (λ x. is_memory x.reply) xs ≡ []) }
{}

/// The models that requests ask to load may be kept, and edits have numbers and bounds that a kept model may have. The
/// requests are those of lines, of the lines that end among some bytes, and of a whole script, whether its lines name
/// sessions or not.
pub fn scripts_ask_kept_models()
    ensures lines { (addressing : addressing_kind) (lines : List (Line (List ℕ))) →
        AreKept (asks_from addressing Between lines) }
    ensures ended { (addressing : addressing_kind) (bytes : List ℕ) → AreKept (ended_asks_of addressing bytes) }
    ensures whole { (addressing : addressing_kind) (bytes : List ℕ) → AreKept (script_of addressing bytes).asks }
{}
