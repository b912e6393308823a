//! The protocol of scripts: their lines are read as asks, and replies are written as lines. Lines name sessions, or are
//! all those of one.
//!
//! | Item | What it is | Where |
//! |---|---|---|
//! | `Ask`, `Asked`, `Reply` | what sessions are asked and reply, with the types of the code | src/asks |
//! | `read`, `Command` | what a line between two commands is | src/command, src/edits |
//! | `hear`, `Heard` | reads lines up to the one at which something is said | src/hearing, specs/Hearing |
//! | `Stage`, `Step` | what was read so far, and where the next line leads | src/hearing, src/stages, src/script |
//! | `take` | reads the lines of the next ask | src/taking, specs/Takes |
//! | `Halt` | why a command halts before it has done all that is asked | src/halt, specs/Halt |
//! | `answer_of`, `pivots_of`, `certificate_lines`, `print_certificate` | what is answered of what a solve ended with, its pivots, and the lines of its certificate | src/solved |
//! | `wide_lines`, `push_wide_known` | the lines that an exact solve is answered with, and the text of its answer | src/wide |
//! | `verdict_on` | what is replied of a certificate for a model | src/verdict |
//! | `number_to` | the number that a word gives | src/words |
//! | `print` | writes a session's reply | src/printing |
//! | `print_said` | writes a reply without a session | src/printing |
//! | `print_lines` | writes lines | src/printing |
//! | `push_numbered`, `push_pivots`, `fall_suffix` | parts of lines that other commands write too | src/answers |
#![tactic(auto)]

mod answers;
mod asks;
mod body;
mod command;
mod edits;
mod ends;
mod halt;
mod hearing;
mod printing;
mod refusals;
mod script;
mod solved;
mod stages;
mod taking;
mod verdict;
mod wide;
mod words;

pub use answers::{fall_suffix, push_numbered, push_pivots};
pub use asks::{Ask, Asked, Command, Plain, Refusal, Reply};
pub use command::read;
pub use halt::Halt;
pub use hearing::{Heard, Stage, Step, hear};
pub use printing::{print, print_lines, print_said};
pub use solved::{answer_of, certificate_lines, pivots_of, print_certificate};
pub use spec_server::{Addressing, How, LineFault, Publication};
pub use stages::{CertificateSaid, LargeSaid, TextSaid};
pub use taking::take;
pub use verdict::verdict_on;
pub use wide::{push_wide_known, wide_lines};
pub use words::number_to;
