// The words of lines.
ghost use Rattle.std.specs.Prelude.{◌≡◌, ◌≤◌};
ghost use Rattle.spec_server.specs.Command as commands;

use lp_base::look_up;
use spec_mps::Style;
use spec_server::{CommandWord, EditWord};

// Whether the byte is a decimal digit.
fn is_digit(byte: u8) -> bool
    ensures { result ≡ commands.is_digit byte }
{
    b'0' <= byte && byte <= b'9'
}

// Whether the first byte is the digit 0.
fn begins_with_zero(text: &[u8]) -> bool
    ensures { result ≡ commands.begins_with_zero text.now }
{
    match text {
        [first, ..] => *first == b'0',
        [] => false,
    }
}

/// The number that the text is, from 1 to `last`, without zeros in front and with at most `digits` digits. None if it
/// is no such number.
pub fn number_to(last: u32, digits: usize, text: &[u8]) -> Option<u32>
    requires { last ≤ 1000000 }
    ensures { result ≡ commands.number_to last digits text.now }
{
    if text.is_empty() || text.len() > digits || begins_with_zero(text) {
        return None;
    }
    let mut number = 0;
    for digit in text {
        if !is_digit(*digit) {
            return None;
        }
        number = number * 10 + u32::from(*digit - b'0');
        if number > last {
            return None;
        }
    }
    Some(number)
}

/// The number of a session that the word is, from 1 to 64; none for another word.
#[tactic(auto, unfolding(spec_server::specs::Command::session_of))]
pub(crate) fn session_of(word: &[u8]) -> Option<u32>
    ensures { result ≡ commands.session_of word.now }
{
    number_to(64, 2, word)
}

/// The budget that the word is, from 1 to 1,000,000 pivots and flips; none for another word.
#[tactic(auto, unfolding(spec_server::specs::Command::budget_of))]
pub(crate) fn budget_of(word: &[u8]) -> Option<u32>
    ensures { result ≡ commands.budget_of word.now }
{
    number_to(1_000_000, 7, word)
}

const FORMS: [(&[u8], Style); 2] = [(b"FREE", Style::Free), (b"FIXED", Style::Fixed)];

/// The form of a text, free or fixed, that a word names; none for another word.
#[tactic(auto, unfolding(spec_server::specs::Command::style_of))]
pub(crate) fn style_of(word: &[u8]) -> Option<Style>
    ensures { result ≡ commands.style_of word.now }
{
    look_up(word, &FORMS)
}

// The command words as they are written.
const COMMAND_WORDS: [(&[u8], CommandWord); 19] = [
    (b"LOAD", CommandWord::Load),
    (b"WRITE", CommandWord::Write),
    (b"SOLVE", CommandWord::Solve),
    (b"CERT", CommandWord::Cert),
    (b"HOW", CommandWord::How),
    (b"BUDGET", CommandWord::Budget),
    (b"WIDE", CommandWord::Wide),
    (b"CHECK", CommandWord::Check),
    (b"QUIT", CommandWord::Quit),
    (b"ADDROW", CommandWord::Edit(EditWord::AddRow)),
    (b"DELROW", CommandWord::Edit(EditWord::DelRow)),
    (b"ADDCOL", CommandWord::Edit(EditWord::AddCol)),
    (b"DELCOL", CommandWord::Edit(EditWord::DelCol)),
    (b"SETCOST", CommandWord::Edit(EditWord::SetCost)),
    (b"SETCOEF", CommandWord::Edit(EditWord::SetCoef)),
    (b"SETRHS", CommandWord::Edit(EditWord::SetRhs)),
    (b"SETRANGE", CommandWord::Edit(EditWord::SetRange)),
    (b"SETBOUND", CommandWord::Edit(EditWord::SetBound)),
    (b"SENSE", CommandWord::Edit(EditWord::Sense)),
];

/// The command word that a word is; none for another word.
#[tactic(auto, unfolding(spec_server::specs::Command::command_word_of))]
pub(crate) fn command_word_of(word: &[u8]) -> Option<CommandWord>
    ensures { result ≡ commands.command_word_of word.now }
{
    look_up(word, &COMMAND_WORDS)
}
