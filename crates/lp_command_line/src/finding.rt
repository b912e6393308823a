// Which word is at fault where words are no command line.
ghost use Rattle.std.specs.Prelude.{◌≡◌, None, map, string_bytes, is_none, is_some};
ghost use Rattle.spec_program.specs.CommandLine.{command_line_of};
ghost use Rattle.lp_command_line.specs.Words.{bytes_of, first_in};
ghost use Rattle.lp_command_line.specs.WordFaults.{told};
ghost use Rattle.lp_command_line.specs.WordFaults as faults;

use crate::fault::{Plain, WordFault};
use crate::line::{COMMANDS, Command, WIDE, is_all, is_plain, moved_of, seed_of};
use crate::options::{first_option, form_in, is_one_of, links_in, places_in, value_of, workers_in};
use lp_base::look_up;
use lp_line::number_to;

// The fault of the last word, where no option with its value is left: it names no option, or its value is missing. None
// where no word is left.
fn lone_fault<'a>(
    words: &'a [String],
    names: &[&str],
    switches: &[&str],
) -> Option<WordFault<&'a [u8]>>
    requires { first_in (bytes_of switches.now) (map string_bytes words.now) ≡ None }
    ensures { told result
        ≡ faults.option_fault (bytes_of names.now) (bytes_of switches.now) (map string_bytes words.now) }
{
    let [option, ..] = words else {
        return None;
    };
    let option = option.as_bytes();
    if is_one_of(option, names) {
        Some(WordFault::NoValue(option))
    } else {
        Some(WordFault::NoOption(option))
    }
}

// The fault of the first word that is no option with one of these names, is given again, or has no value; none if they
// are right.
fn option_fault<'a>(
    words: &'a [String],
    names: &[&str],
    switches: &[&str],
) -> Option<WordFault<&'a [u8]>>
    ensures { told result
        ≡ faults.option_fault (bytes_of names.now) (bytes_of switches.now) (map string_bytes words.now) }
{
    let mut rest = words;
    while let Some((option, _, more)) = first_option(rest, switches) {
        if !is_one_of(option, names) {
            return Some(WordFault::NoOption(option));
        }
        if value_of(more, option, switches).is_some() {
            return Some(WordFault::Twice(option));
        }
        rest = more;
    }
    lone_fault(rest, names, switches)
}

// The fault that the value of the option with this name is none it may have; none where `is_right`, or where the option
// is absent.
fn value_fault<'a>(
    words: &'a [String],
    name: &'a [u8],
    switches: &[&str],
    is_right: bool,
) -> Option<WordFault<&'a [u8]>>
    ensures { told result
        ≡ faults.value_fault (bytes_of switches.now) name.now (map string_bytes words.now) is_right }
{
    if is_right {
        return None;
    }
    let value = value_of(words, name, switches)?;
    Some(WordFault::NotValue(name, value))
}

// The fault that the word may not stand at its place, unless `is_right`.
fn plain_fault(plain: Plain, word: &[u8], is_right: bool) -> Option<WordFault<&[u8]>>
    ensures { told result ≡ faults.plain_fault plain word.now is_right }
{
    if is_right {
        return None;
    }
    Some(WordFault::NotPlain(plain, word))
}

// The fault that the value of `--workers` is none it may have; none if it is right, or the option is absent.
fn workers_fault(options: &[String]) -> Option<WordFault<&[u8]>>
    ensures { told result ≡ faults.workers_fault (map string_bytes options.now) }
{
    value_fault(options, b"--workers", &[], workers_in(options).is_some())
}

// The fault that the value of `--each` is none it may have; none if it is right, or the option is absent.
fn links_fault(options: &[String]) -> Option<WordFault<&[u8]>>
    ensures { told result ≡ faults.links_fault (map string_bytes options.now) }
{
    value_fault(options, b"--each", &[], links_in(options).is_some())
}

// The fault that the value of `--places` is none it may have; none if it is right, or the option is absent.
fn places_fault(options: &[String]) -> Option<WordFault<&[u8]>>
    ensures { told result ≡ faults.places_fault (map string_bytes options.now) }
{
    value_fault(options, b"--places", &[], places_in(options).is_some())
}

// The first fault of the words behind `run`; none if they are right.
fn run_fault(words: &[String]) -> Option<WordFault<&[u8]>>
    ensures { told result ≡ faults.run_fault (map string_bytes words.now) }
{
    option_fault(words, &["--workers", "--places"], &[])
        .or(workers_fault(words))
        .or(places_fault(words))
}

// The fault that the value of `--form` is none it may have; none if it is right, or the option is absent.
fn form_fault<'a>(words: &'a [String], switches: &[&str]) -> Option<WordFault<&'a [u8]>>
    ensures { told result ≡ faults.form_fault (bytes_of switches.now) (map string_bytes words.now) }
{
    let is_form = form_in(words, switches).is_some();
    value_fault(words, b"--form", switches, is_form)
}

// The first fault of the words behind a command that reads a text; none if they are right.
fn text_fault(words: &[String]) -> Option<WordFault<&[u8]>>
    ensures { told result ≡ faults.text_fault (map string_bytes words.now) }
{
    option_fault(words, &["--form"], &[]).or(form_fault(words, &[]))
}

// The first fault of the words behind a command that reads a text and may take `--wide`; none if they are right.
fn wide_fault(words: &[String]) -> Option<WordFault<&[u8]>>
    ensures { told result ≡ faults.wide_fault (map string_bytes words.now) }
{
    option_fault(words, &["--form", "--wide"], &WIDE).or(form_fault(words, &WIDE))
}

// The first fault of the words behind `range` for the range of one number; none if they are right.
fn number_fault(words: &[String]) -> Option<WordFault<&[u8]>>
    ensures { told result ≡ faults.number_fault (map string_bytes words.now) }
{
    let [what, name, options @ ..] = words else {
        return Some(WordFault::TooFew);
    };
    let (what, name) = (what.as_bytes(), name.as_bytes());
    plain_fault(Plain::Number, what, moved_of(what).is_some())
        .or(plain_fault(Plain::Name, name, is_plain(name)))
        .or(text_fault(options))
}

// The first fault of the words behind `range`; none if they are right.
fn range_fault(words: &[String]) -> Option<WordFault<&[u8]>>
    ensures { told result ≡ faults.range_fault (map string_bytes words.now) }
{
    let [what, options @ ..] = words else {
        return Some(WordFault::TooFew);
    };
    if is_all(what.as_bytes()) {
        return text_fault(options);
    }
    number_fault(words)
}

// The first fault of the words behind `gen`; none if they are right.
#[tactic(auto, unfolding(spec_program::specs::CommandLine::row_count_of, spec_program::specs::CommandLine::column_count_of))]
fn generate_fault(words: &[String]) -> Option<WordFault<&[u8]>>
    ensures { told result ≡ faults.generate_fault (map string_bytes words.now) }
{
    let [seed, rows, columns, behind @ ..] = words else {
        return Some(WordFault::TooFew);
    };
    let (seed, rows, columns) = (seed.as_bytes(), rows.as_bytes(), columns.as_bytes());
    let seed = plain_fault(Plain::Seed, seed, seed_of(seed).is_some());
    let rows = plain_fault(Plain::Rows, rows, number_to(256, 3, rows).is_some());
    let columns = plain_fault(
        Plain::Columns,
        columns,
        number_to(512, 3, columns).is_some(),
    );
    seed.or(rows).or(columns).or(option_fault(behind, &[], &[]))
}

// The first fault of the words behind `serve`; none if they are right.
fn serve_fault(words: &[String]) -> Option<WordFault<&[u8]>>
    ensures { told result ≡ faults.serve_fault (map string_bytes words.now) }
{
    let [address, options @ ..] = words else {
        return Some(WordFault::TooFew);
    };
    let address = address.as_bytes();
    plain_fault(Plain::Address, address, is_plain(address))
        .or(option_fault(options, &["--workers", "--each", "--places"], &[]))
        .or(workers_fault(options))
        .or(links_fault(options))
        .or(places_fault(options))
}

// The first fault of the words, that of their command included; none if they are a command line.
fn first_fault(words: &[String]) -> Option<WordFault<&[u8]>>
    ensures { told result ≡ faults.word_fault (map string_bytes words.now) }
{
    let [word, behind @ ..] = words else {
        return Some(WordFault::NoWord);
    };
    let word = word.as_bytes();
    match look_up(word, &COMMANDS) {
        None => Some(WordFault::NoCommand(word)),
        Some(Command::Run) => run_fault(behind),
        Some(Command::Read(_)) => text_fault(behind),
        Some(Command::ByWidth { .. }) => wide_fault(behind),
        Some(Command::Range) => range_fault(behind),
        Some(Command::Generate) => generate_fault(behind),
        Some(Command::Serve) => serve_fault(behind),
    }
}

/// The word that is at fault, and why. There is none exactly where the words are a command line.
pub fn word_fault(words: &[String]) -> Option<WordFault<&[u8]>>
    ensures fault { told result ≡ faults.word_fault (map string_bytes words.now) }
    ensures none { is_none result ≡ is_some (command_line_of (map string_bytes words.now)) }
{
    first_fault(words)
}
