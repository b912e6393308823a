//! The commands on the texts of models: each reads a text, and what may stand behind it, and says something of it. One
//! solves the text's model, at 127 bits, at any width or by a smaller model. Others check the certificate after the
//! text, solve from the basis of the file after it, find limits that contradict each other, and range one of its
//! numbers or all. And the command that makes a model from a seed, and solves it.
//!
//! A command on a model first makes an outcome of the model (`run`), and then the lines of the outcome (`write`). Each
//! stands in a folder of its own.
//!
//! | Item | What it is | Where |
//! |---|---|---|
//! | `read_text` | reads the text that a source gives, and writes what the command says of it | src/text |
//! | `ExitStatus` | how a command ended | src/exit_status |
//! | `Command`, `perform` | a command: its `run` and its `write`; and both, one after the other | src/command |
//! | `say`, `Output` | reads an input, and writes what is said of it, whatever says it | src/hearing |
//! | `print_reply`, `print_named` | writes the line of a reply; the words with which some lines begin | src/reply, src/words |
//! | `say_text`, `Said` | the same of a text, whose model is given to a command | src/said |
//! | `Solve`, `SolveWide` | solves the model, at 127 bits or at any width | src/solve |
//! | `print_answer`, `print_past`, `print_end` | the lines of a solve, of which other commands write some | src/solve/lines |
//! | `SolveFrom`, `SolveWideFrom` | solves the model from the basis of the file after its text | src/basis |
//! | `Handed`, `Start` | a model, and the basis from which it is solved | src/basis/starting |
//! | `say_basis`, `BasisStage` | reads a text and the basis file after it | src/basis/said, src/basis/stage |
//! | `Presolve` | solves the model by a smaller one | src/presolve |
//! | `FindIis` | seeks limits that contradict each other | src/iis |
//! | `RangeAt`, `RangeAll` | solves the model, and ranges one of its numbers or all | src/range, src/range/all |
//! | `say_range`, `place_of` | reads a text of which a number is ranged; its column or row, by the name | src/range/asked, src/range/named |
//! | `CheckStage`, `WideStage` | reads a text and the certificate after it, of which the last line says the verdict | src/check |
//! | `generate`, `make` | makes the model of a seed, and writes its size and what a solve of it ends with | src/generator |
//! | `ReadsText`, `TellsOfText` | what is read and written of a text, by the answer and by the status | specs/TextCommands |
//! | `Writes`, `TellsOfWriting` | what is written of a model that is made, by the answer and by the status | specs/Generating |
//! | `Prints` | what is put after what was printed before | specs/Prints |
//! | `IsRanged` | what a solve ended with, and from what numbers are ranged | specs/RangeEnds |
//!
//! Which model a seed gives, is `generated` of `spec_commands`, and how its numbers are drawn is `draw` there.
#![tactic(auto)]

mod basis;
mod check;
mod command;
mod exit_status;
mod generator;
mod hearing;
mod iis;
mod presolve;
mod range;
mod reply;
mod said;
mod solve;
mod text;
mod words;

pub use exit_status::ExitStatus;
pub use generator::{generate, make};
pub use text::read_text;
