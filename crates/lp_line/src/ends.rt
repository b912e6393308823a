// The last lines of bodies.
ghost use Rattle.std.specs.Prelude.{◌≡◌, IfOk};
ghost use Rattle.spec_mps.specs.Cards as cards;
ghost use Rattle.spec_server.specs.Script as script;

use lp_base::{Line, Texts, are_same, is_blank, words};
use lp_certificate::is_end;
use std::alloc::{AllocError, Global};

// Whether the first byte of a line is a blank, as that of a data card is. It is so of an empty line too.
fn begins_with_blank(text: &[u8]) -> bool
    ensures { result ≡ cards.begins_with_blank text.now }
{
    match text {
        [first, ..] => is_blank(*first),
        [] => true,
    }
}

// Whether the first of the words is this one.
fn begins_with_word(words: &Texts, word: &[u8]) -> bool
    ensures { result ≡ script.begins_with_word word.now words.now }
{
    !words.is_empty() && are_same(words.get(0).as_slice(), word)
}

/// Whether a line is the last one of a text of a model: it begins in column 1, and its first word is `ENDATA`.
#[tactic(auto, unfolding(spec_server::specs::Script::ends_text))]
pub(crate) fn ends_text(alloc: Global, next: &Line) -> Result<bool, AllocError>
    ensures { IfOk result (λ ends. ends ≡ script.ends_text next.now) }
{
    match next {
        Line::Text(text) => if begins_with_blank(text.as_slice()) {
            Ok(false)
        } else {
            let words = words(alloc, text.as_slice())?;
            Ok(begins_with_word(&words, b"ENDATA"))
        },
        Line::Long(_) | Line::End | Line::Over => Ok(false),
    }
}

/// Whether a line is the last one of a certificate: its only word is `END`.
#[tactic(auto, unfolding(spec_server::specs::Script::ends_certificate))]
pub(crate) fn ends_certificate(alloc: Global, next: &Line) -> Result<bool, AllocError>
    ensures { IfOk result (λ ends. ends ≡ script.ends_certificate next.now) }
{
    match next {
        Line::Text(text) => Ok(is_end(&words(alloc, text.as_slice())?)),
        Line::Long(_) | Line::End | Line::Over => Ok(false),
    }
}
