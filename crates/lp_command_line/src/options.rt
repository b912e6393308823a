// The options of a command, and their values.
ghost use Rattle.std.specs.Prelude.{◌≡◌, ◌<◌, map, length, option_copied, string_bytes};
ghost use Rattle.std.specs.Prelude.{MatchOption, IfSome, Some, None};
ghost use Rattle.std.specs.List.{list_any};
ghost use Rattle.spec_text.specs.Words.{same};
ghost use Rattle.lp_command_line.specs.Words.{bytes_of, first_in, value_in, are_in};
ghost use Rattle.lp_command_line.specs.Words as cut_words;

use lp_base::{are_same, look_up};
use lp_line::number_to;
use spec_mps::Style;

static FORMS: [(&[u8], Style); 2] = [(b"free", Style::Free), (b"fixed", Style::Fixed)];

// How many workers there are, unless it is said.
const USUAL_WORKERS: u32 = 1;

// How many places sessions share, unless it is said.
const USUAL_PLACES: u32 = 256;

// How many links each worker of a server serves, unless it is said.
const USUAL_LINKS: u32 = 1;

/// Whether the word is one of these names.
pub(crate) fn is_one_of(word: &[u8], names: &[&str]) -> bool
    ensures { result ≡ list_any (λ name. same word.now name.now) names.now }
{
    names.iter().any(|name| are_same(word, name.as_bytes()))
}

/// The first option, its value, which is empty for a switch, and the words behind them. None where no word is left, or
/// the last one lacks its value.
pub(crate) fn first_option<'a>(
    words: &'a [String],
    switches: &[&str],
) -> Option<(&'a [u8], &'a [u8], &'a [String])>
    ensures cut { MatchOption result (first_in (bytes_of switches.now) (map string_bytes words.now) ≡ None)
        (λ p. first_in (bytes_of switches.now) (map string_bytes words.now)
        ≡ Some (record { option = p.0.now; value = p.1.now; behind = map string_bytes p.2.now })) }
    ensures fewer { IfSome result (λ p. length p.2.now < length words.now) }
{
    let [option, behind @ ..] = words else {
        return None;
    };
    let option = option.as_bytes();
    if is_one_of(option, switches) {
        return Some((option, b"", behind));
    }
    let [value, behind @ ..] = behind else {
        return None;
    };
    Some((option, value.as_bytes(), behind))
}

/// The value of the first option with this name, empty for a switch; none if the words do not have it.
pub(crate) fn value_of<'a>(words: &'a [String], name: &[u8], switches: &[&str]) -> Option<&'a [u8]>
    ensures { option_copied result ≡ value_in (bytes_of switches.now) name.now (map string_bytes words.now) }
{
    let mut rest = words;
    while let Some((option, value, more)) = first_option(rest, switches) {
        if are_same(name, option) {
            return Some(value);
        }
        rest = more;
    }
    None
}

/// Whether the words are options with these names, none of them given twice. `switches` are those without a value.
pub(crate) fn are_options(words: &[String], names: &[&str], switches: &[&str]) -> bool
    ensures { result ≡ are_in (bytes_of names.now) (bytes_of switches.now) (map string_bytes words.now) }
{
    let mut rest = words;
    while let Some((option, _, more)) = first_option(rest, switches) {
        if !is_one_of(option, names) {
            return false;
        }
        if value_of(more, option, switches).is_some() {
            return false;
        }
        rest = more;
    }
    rest.is_empty()
}

/// The number of workers that the options give, 1 where they give none. None where the value is wrong.
#[tactic(auto, unfolding(spec_program::specs::CommandLine::workers_of))]
pub(crate) fn workers_in(options: &[String]) -> Option<u32>
    ensures { result ≡ cut_words.workers_in (map string_bytes options.now) }
{
    match value_of(options, b"--workers", &[]) {
        Some(number) => number_to(16, 2, number),
        None => Some(USUAL_WORKERS),
    }
}

/// The number of places that the options give, 256 where they give none. None where the value is wrong.
#[tactic(auto, unfolding(spec_program::specs::CommandLine::places_of))]
pub(crate) fn places_in(options: &[String]) -> Option<u32>
    ensures { result ≡ cut_words.places_in (map string_bytes options.now) }
{
    match value_of(options, b"--places", &[]) {
        Some(number) => number_to(1024, 7, number),
        None => Some(USUAL_PLACES),
    }
}

/// The number of links of each worker that the options give, 1 where they give none. None where the value is wrong.
#[tactic(auto, unfolding(spec_program::specs::CommandLine::links_of))]
pub(crate) fn links_in(options: &[String]) -> Option<u32>
    ensures { result ≡ cut_words.links_in (map string_bytes options.now) }
{
    match value_of(options, b"--each", &[]) {
        Some(number) => number_to(1000, 4, number),
        None => Some(USUAL_LINKS),
    }
}

/// The form of the text that the options give, free where they give none. None where the value is wrong.
pub(crate) fn form_in(options: &[String], switches: &[&str]) -> Option<Style>
    ensures { result ≡ cut_words.form_in (bytes_of switches.now) (map string_bytes options.now) }
{
    match value_of(options, b"--form", switches) {
        Some(form) => look_up(form, &FORMS),
        None => Some(Style::Free),
    }
}
