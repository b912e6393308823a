//! The reader of texts of models, in free and in fixed form, line by line.
//!
//! | Item | What it is | Where |
//! |---|---|---|
//! | `Reader` | a text of a usual model that is read; `new` begins it, and `feed` takes its next line | src/read/usual |
//! | `LargeReader` | the same of a model within the large limits | src/read/large |
//! | `ReaderWithin` | the reader of both | src/read/reader |
//! | `Style`, `MpsFault`, `Code` | the two forms, and a line that is wrong, as spec_mps has them |  |
//! | `TextRead`, `ReadWithin` | a reader to contracts: its form, what was read, the lines so far, and the limits | specs/TextRead |
//! | `Feeds` | that an answer is the one of the step of a line | specs/Feeds |
//! | `Leads` | that lines lead from one state to another | specs/Leads |
//!
//! The rule of each line is the step of spec_mps; each section has a file of its own here. Rows and columns are found
//! by the hashes of their names, so that the time for a card does not grow with how many there are.

mod bound_card;
mod bounds;
mod cards;
mod column;
mod column_list;
mod columns;
mod draft;
mod fault;
mod finish;
mod large;
mod numbers;
mod reader;
mod row_list;
mod rows;
mod sections;
mod sense;
mod sets;
mod shapes;
mod sides;
mod targets;
mod usual;
mod words;

ghost use Rattle.std.specs.Prelude.{◌≡◌, ◌+◌, ◌++◌, ◌∷◌, [], ℕ, Ok, Err, List, length};
ghost use Rattle.spec_text.specs.declared.line.Line.{Line};
ghost use Rattle.spec_model.specs.declared.parts.SizeLimits.{SizeLimits};
ghost use Rattle.spec_model.specs.Model.{Model};
ghost use Rattle.spec_mps.specs.declared.fault.Code.{Code};
ghost use Rattle.spec_mps.specs.declared.fault.Code.TheVariants as code;
ghost use Rattle.spec_mps.specs.declared.style.Style.{Style};
ghost use Rattle.spec_mps.specs.Reader.{State, start};
ghost use Rattle.spec_mps.specs.Steps.{More, Done, SpellsWithin, RefusesWithin, step};
ghost use Rattle.lp_mps.specs.Leads.{Leads};

pub use large::LargeReader;
pub use reader::ReaderWithin;
pub use spec_mps::{Code, MpsFault, Style};
pub use usual::Reader;

/// The answers at the lines of a text, one by one, are the verdict on the text. After lines that lead to a state, a
/// line leads further, or ends the text, which spells that model whatever follows, or is wrong, and refuses the text
/// there.
/// Where no line follows, the line that would come next is wrong.
pub fn answers_are_the_verdict()
    ensures longer { (limits : SizeLimits) (style : Style) (lines : List (Line (List ℕ))) (line : Line (List ℕ))
        (s t : State) →
        Leads limits style start lines s → step limits style s line ≡ Ok (More t) →
        Leads limits style start (lines ++ line ∷ []) t }
    ensures spelled { (limits : SizeLimits) (style : Style) (lines more : List (Line (List ℕ)))
        (line : Line (List ℕ)) (s : State) (m : Model) →
        Leads limits style start lines s → step limits style s line ≡ Ok (Done m) →
        SpellsWithin limits style (lines ++ line ∷ more) m }
    ensures refused { (limits : SizeLimits) (style : Style) (lines more : List (Line (List ℕ)))
        (line : Line (List ℕ)) (s : State) (code : Code) →
        Leads limits style start lines s → step limits style s line ≡ Err code →
        RefusesWithin limits style (lines ++ line ∷ more) (length lines + 1) code }
    ensures cut { (limits : SizeLimits) (style : Style) (lines : List (Line (List ℕ))) (s : State) →
        Leads limits style start lines s → RefusesWithin limits style lines (length lines + 1) code.Cut }
{}
