//! The command lines of the program.
//!
//! | Item | What it is | Where |
//! |---|---|---|
//! | `CommandLine`, `TextCommand`, `Moved` | what a command line asks, over the type of names | src/command_line |
//! | `command_line_of` | what the words of one ask, by the table of commands | specs/CommandLine |
//! | `spelled`, `told` | a command line with the names themselves, by that with names behind references | specs/Spelled |
//! | `Fits` | the numbers that a command line may have | specs/Fits |
//! | `limits_of` | how many rows and columns the model of a text may have, by the command | specs/TextLimits |
//! | `address_of` | where a server listens, and for how many workers | specs/CommandLine |
#![tactic(auto)]

mod command_line;

ghost use Rattle.std.specs.Prelude.{◌≡◌, ℕ, List, Some};
ghost use Rattle.spec_program.specs.CommandLine.{Word, ExactLine, command_line_of, address_of};
ghost use Rattle.spec_program.specs.Fits.{Fits};
ghost use Rattle.spec_program.specs.declared.command_line.CommandLine.TheVariants as lines;

pub use command_line::{CommandLine, Moved, TextCommand};

/// Where words give a command line, its numbers of workers, places, links, rows and columns are within their limits.
pub fn command_lines_fit()
    ensures { (words : List Word) (command : ExactLine) → command_line_of words ≡ Some command → Fits command }
{}

/// Where a command line is `serve`, `address_of` gives for its words an address, with the command's number of workers.
pub fn servers_have_addresses()
    ensures { (words : List Word) (workers each places : ℕ) →
        command_line_of words ≡ Some (lines.Serve workers each places) →
        (address : Word) × (address_of words ≡ Some (record { address = address; workers = workers })) }
{}
