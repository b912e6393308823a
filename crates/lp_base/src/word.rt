// The words of a line, and tables of words.
ghost use Rattle.std.specs.Prelude.{◌≡◌, IfOk};
ghost use Rattle.spec_text.specs.Words as text;
ghost use Rattle.lp_base.specs.Tables.{beside};

use crate::{Bytes, Texts, are_same};
use std::alloc::{AllocError, Global};

/// The value of the first line that has the word among its texts, or else the last value.
#[macro_export]
macro_rules! by_word {
    ($word:expr, { $($($text:literal)|+ => $value:expr,)+ _ => $other:expr $(,)? }) => {
        $(if $($crate::are_same($word, $text))||+ { $value } else)+ { $other }
    };
}

/// The value beside the first mention of a word in a table; none where the table does not have the word.
pub fn look_up<T: Copy>(word: &[u8], table: &[(&[u8], T)]) -> Option<T>
    ensures { result ≡ beside word.now table.now }
{
    for line in table {
        if are_same(word, line.0) {
            return Some(line.1);
        }
    }
    None
}

/// Whether a byte stands between words: a space or a tab.
pub fn is_blank(b: u8) -> bool
    ensures { result ≡ text.is_blank b }
{
    b == b' ' || b == b'\t'
}

/// The words of a line, in order.
pub fn words(alloc: Global, line: &[u8]) -> Result<Texts, AllocError>
    ensures { IfOk result (λ words. words ≡ text.words_of line.now) }
{
    let mut words = Texts::new(alloc);
    for word in line.split(|b| is_blank(*b)) {
        if !word.is_empty() {
            words.push(Bytes::from_slice(alloc, word)?)?;
        }
    }
    Ok(words)
}
