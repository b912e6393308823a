// The words of a command line.
ghost use Rattle.std.specs.Prelude.{◌≡◌, map, codes, option_map, string_bytes};
ghost use Rattle.spec_program.specs.CommandLine.{run_row, text_row, wide_row, by_width, range_row, generate_row};
ghost use Rattle.spec_program.specs.CommandLine.{serve_row, asked_by, applied};
ghost use Rattle.spec_program.specs.CommandLine as command_lines;
ghost use Rattle.spec_program.specs.declared.command_line.CommandLine.TheVariants.{Generate};
ghost use Rattle.spec_program.specs.Spelled.{spelled_text, told};
ghost use Rattle.lp_command_line.specs.Words.{value_in, wide_switch, range_in, serve_in, number_row};

use crate::options::{are_options, form_in, links_in, places_in, value_of, workers_in};
use lp_base::{are_same, look_up};
use lp_line::number_to;
use spec_program::{CommandLine, Moved, TextCommand};

// The commands that a word names.
#[derive(Clone, Copy)]
pub(crate) enum Command {
    Run,
    Read(TextCommand<&'static [u8]>),
    // The one or the other, by whether numbers of any width are asked for.
    ByWidth {
        narrow: TextCommand<&'static [u8]>,
        wide: TextCommand<&'static [u8]>,
    },
    Range,
    Generate,
    Serve,
}

pub(crate) static COMMANDS: [(&[u8], Command); 9] = [
    (b"run", Command::Run),
    (
        b"solve",
        Command::ByWidth {
            narrow: TextCommand::Solve,
            wide: TextCommand::SolveWide,
        },
    ),
    (
        b"check",
        Command::ByWidth {
            narrow: TextCommand::Check,
            wide: TextCommand::CheckWide,
        },
    ),
    (
        b"basis",
        Command::ByWidth {
            narrow: TextCommand::Basis,
            wide: TextCommand::BasisWide,
        },
    ),
    (b"presolve", Command::Read(TextCommand::Presolve)),
    (b"iis", Command::Read(TextCommand::Iis)),
    (b"range", Command::Range),
    (b"gen", Command::Generate),
    (b"serve", Command::Serve),
];

// The numbers of which there is a range.
static MOVED: [(&[u8], Moved); 2] = [(b"cost", Moved::Cost), (b"rhs", Moved::RightSide)];

// The switch that asks for numbers of any width.
pub(crate) static WIDE: [&str; 1] = ["--wide"];

// The command line of `run` with these words behind it; none if one of them is wrong.
fn run_line(words: &[String]) -> Option<CommandLine<&[u8]>>
    ensures { told result ≡ asked_by (map string_bytes words.now) run_row }
{
    if !are_options(words, &["--workers", "--places"], &[]) {
        return None;
    }
    let workers = workers_in(words)?;
    let places = places_in(words)?;
    Some(CommandLine::Run { workers, places })
}

// The command line of a command that reads a text, with these words behind it; none if one of them is wrong.
fn text_line<'a>(
    command: TextCommand<&'static [u8]>,
    words: &'a [String],
) -> Option<CommandLine<&'a [u8]>>
    ensures { told result ≡ asked_by (map string_bytes words.now) (text_row (spelled_text command.entry)) }
{
    if !are_options(words, &["--form"], &[]) {
        return None;
    }
    let style = form_in(words, &[])?;
    Some(CommandLine::Read(command, style))
}

// The command for numbers of any width where the options have `--wide`, else the one for 127 bits.
fn command_by_width(
    narrow: TextCommand<&'static [u8]>,
    wide: TextCommand<&'static [u8]>,
    options: &[String],
) -> TextCommand<&'static [u8]>
    ensures { spelled_text result ≡ by_width (spelled_text narrow.entry) (spelled_text wide.entry)
        (value_in wide_switch (codes "--wide") (map string_bytes options.now)) }
{
    match value_of(options, b"--wide", &WIDE) {
        Some(_) => wide,
        None => narrow,
    }
}

// The command line of a command that reads a text and may take `--wide`, with these words behind it; none if one of
// them is wrong.
fn wide_line<'a>(
    narrow: TextCommand<&'static [u8]>,
    wide: TextCommand<&'static [u8]>,
    words: &'a [String],
) -> Option<CommandLine<&'a [u8]>>
    ensures { told result ≡ asked_by (map string_bytes words.now)
        (wide_row (spelled_text narrow.entry) (spelled_text wide.entry)) }
{
    if !are_options(words, &["--form", "--wide"], &WIDE) {
        return None;
    }
    let style = form_in(words, &WIDE)?;
    let command = command_by_width(narrow, wide, words);
    Some(CommandLine::Read(command, style))
}

/// The number of a model that the word names, a cost for `cost` and a right side for `rhs`; none for another word.
pub(crate) fn moved_of(word: &[u8]) -> Option<Moved>
    ensures { result ≡ command_lines.moved_of word.now }
{
    look_up(word, &MOVED)
}

/// Whether the word may be an address or a name: it has bytes, and does not begin with `-`.
pub(crate) fn is_plain(word: &[u8]) -> bool
    ensures { result ≡ command_lines.is_plain word.now }
{
    match word {
        [first, ..] => *first != b'-',
        [] => false,
    }
}

// The command line for the range of one number, with these options; none if the value of `--form` is wrong.
fn range_with<'a>(moved: Moved, name: &'a [u8], options: &[String]) -> Option<CommandLine<&'a [u8]>>
    ensures { told result ≡ range_in moved name.now (map string_bytes options.now) }
{
    let style = form_in(options, &[])?;
    Some(CommandLine::Read(TextCommand::Range { moved, name }, style))
}

/// Whether the word is `all`, which stands for the ranges of all numbers of a model.
pub(crate) fn is_all(word: &[u8]) -> bool
    ensures { result ≡ command_lines.is_all word.now }
{
    are_same(word, b"all")
}

// The command line for the range of one number, with these words behind `range`; none if they are too few, or one of
// them is wrong.
fn number_line(words: &[String]) -> Option<CommandLine<&[u8]>>
    ensures { told result ≡ asked_by (map string_bytes words.now) number_row }
{
    let [what, name, options @ ..] = words else {
        return None;
    };
    let name = name.as_bytes();
    if !is_plain(name) || !are_options(options, &["--form"], &[]) {
        return None;
    }
    let moved = moved_of(what.as_bytes())?;
    range_with(moved, name, options)
}

// The command line of `range` with these words behind it; none if they are too few, or one of them is wrong.
fn range_line(words: &[String]) -> Option<CommandLine<&[u8]>>
    ensures { told result ≡ asked_by (map string_bytes words.now) range_row }
{
    let [what, options @ ..] = words else {
        return None;
    };
    if is_all(what.as_bytes()) {
        return text_line(TextCommand::RangeAll, options);
    }
    number_line(words)
}

/// The seed that the word is, from 0 to 1,000,000; none for another word.
#[tactic(auto, unfolding(spec_program::specs::CommandLine::seed_of))]
pub(crate) fn seed_of(word: &[u8]) -> Option<u32>
    ensures { result ≡ command_lines.seed_of word.now }
{
    if are_same(word, b"0") {
        return Some(0);
    }
    number_to(1_000_000, 7, word)
}

// The command line of `gen` for these numbers, none where one is missing.
fn generate_by<'a>(
    seed: Option<u32>,
    rows: Option<u32>,
    columns: Option<u32>,
) -> Option<CommandLine<&'a [u8]>>
    ensures { told result ≡ applied (applied (option_map Generate seed) rows) columns }
{
    let seed = seed?;
    let rows = rows?;
    let columns = columns?;
    Some(CommandLine::Generate {
        seed,
        rows,
        columns,
    })
}

// The command line of `gen` with these words behind it; none if they are not three, or one of them is wrong.
fn generate_line(words: &[String]) -> Option<CommandLine<&[u8]>>
    ensures { told result ≡ asked_by (map string_bytes words.now) generate_row }
{
    let [seed, rows, columns, behind @ ..] = words else {
        return None;
    };
    if !behind.is_empty() {
        return None;
    }
    let seed = seed_of(seed.as_bytes());
    let rows = number_to(256, 3, rows.as_bytes());
    let columns = number_to(512, 3, columns.as_bytes());
    generate_by(seed, rows, columns)
}

// The command line of `serve` with these options; none if the value of one is wrong.
fn serve_with(options: &[String]) -> Option<CommandLine<&[u8]>>
    ensures { told result ≡ serve_in (map string_bytes options.now) }
{
    let workers = workers_in(options)?;
    let each = links_in(options)?;
    let places = places_in(options)?;
    Some(CommandLine::Serve {
        workers,
        each,
        places,
    })
}

// The command line of `serve` with these words behind it; none if there is none, or one of them is wrong.
fn serve_line(words: &[String]) -> Option<CommandLine<&[u8]>>
    ensures { told result ≡ asked_by (map string_bytes words.now) serve_row }
{
    let [address, options @ ..] = words else {
        return None;
    };
    if !is_plain(address.as_bytes())
        || !are_options(options, &["--workers", "--each", "--places"], &[])
    {
        return None;
    }
    serve_with(options)
}

/// The command line that the words are, if they are one.
#[tactic(auto, unfolding(spec_program::specs::CommandLine::command_line_of))]
pub fn command_line_of(words: &[String]) -> Option<CommandLine<&[u8]>>
    ensures { told result ≡ command_lines.command_line_of (map string_bytes words.now) }
{
    let [word, behind @ ..] = words else {
        return None;
    };
    match look_up(word.as_bytes(), &COMMANDS)? {
        Command::Run => run_line(behind),
        Command::Read(command) => text_line(command, behind),
        Command::ByWidth { narrow, wide } => wide_line(narrow, wide, behind),
        Command::Range => range_line(behind),
        Command::Generate => generate_line(behind),
        Command::Serve => serve_line(behind),
    }
}
