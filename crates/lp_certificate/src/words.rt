// The words of a certificate's text.
ghost use Rattle.std.specs.Prelude.{◌≡◌, [], ◌∷◌, IfOk};
ghost use Rattle.spec_certificate.specs.Text as certificate;

use crate::certificate::{CertificateKind, PartOf};
use crate::number::Number;
use lp_base::{Name, Texts, are_same, by_word, look_up};
use spec_check::{Letter, Part};
use std::alloc::{AllocError, Global};

/// The words of the letters, each with its letter.
const LETTERS: [(&[u8], Letter); 3] = [(b"x", Letter::X), (b"y", Letter::Y), (b"r", Letter::R)];

// The letter that the word is: `x`, `y` or `r`; none for another word.
#[tactic(auto, unfolding(spec_certificate::specs::Text::letter_of))]
fn letter_of(word: &[u8]) -> Option<Letter>
    ensures { result ≡ certificate.letter_of word.now }
{
    look_up(word, &LETTERS)
}

// Whether a certificate of this kind may have numbers with this letter: an optimal one `x` and `y`, an infeasible one
// `y`, an unbounded one `x` and `r`, a clash none.
fn takes(kind: &CertificateKind, letter: Letter) -> bool
    ensures { result ≡ certificate.takes kind.now letter }
{
    match kind {
        CertificateKind::Optimal => letter != Letter::R,
        CertificateKind::Infeasible => letter == Letter::Y,
        CertificateKind::Unbounded => letter != Letter::Y,
        CertificateKind::Clash(_) => false,
    }
}

// The kind of certificate that a first line of this one word says; none for another word.
#[tactic(auto, unfolding(spec_certificate::specs::Text::kind_of))]
fn kind_by_word(word: &[u8]) -> Option<CertificateKind>
    ensures { result ≡ certificate.kind_of (word.now ∷ []) }
{
    by_word!(word, {
        b"OPTIMAL" => Some(CertificateKind::Optimal),
        b"INFEASIBLE" => Some(CertificateKind::Infeasible),
        b"UNBOUNDED" => Some(CertificateKind::Unbounded),
        _ => None,
    })
}

/// The kind that the words of a first line say: one word, or `CLASH` and a name; none for other words.
#[tactic(auto, unfolding(spec_certificate::specs::Text::kind_of))]
pub(crate) fn kind_of(alloc: Global, words: &Texts) -> Result<Option<CertificateKind>, AllocError>
    ensures { IfOk result (λ kind. kind ≡ certificate.kind_of words.now) }
{
    match words.len() {
        1 => Ok(kind_by_word(words.get(0).as_slice())),
        2 if are_same(words.get(0).as_slice(), b"CLASH") => {
            let name = Name::from_slice(alloc, words.get(1).as_slice())?;
            Ok(Some(CertificateKind::Clash(name)))
        }
        _ => Ok(None),
    }
}

/// The part that the words of a line say, a letter, a name and a number; none where they say none that this kind takes.
#[tactic(auto, unfolding(spec_certificate::specs::Text::part_by))]
pub(crate) fn part_of<N: Number>(
    alloc: Global,
    kind: &CertificateKind,
    words: &Texts,
) -> Result<Option<PartOf<N>>, AllocError>
    ensures { IfOk result (λ part. part ≡ certificate.part_by N.reading kind.now words.now) }
{
    if words.len() != 3 {
        return Ok(None);
    }
    let Some(letter) = letter_of(words.get(0).as_slice()) else {
        return Ok(None);
    };
    if !takes(kind, letter) {
        return Ok(None);
    }
    let Some(value) = N::read(alloc, words.get(2).as_slice())? else {
        return Ok(None);
    };
    let name = Name::from_slice(alloc, words.get(1).as_slice())?;
    Ok(Some(Part {
        letter,
        name,
        value,
    }))
}

/// Whether these words end a text of a certificate: they are `END` alone.
#[tactic(auto, unfolding(spec_certificate::specs::Text::is_end))]
pub fn is_end(words: &Texts) -> bool
    ensures { result ≡ certificate.is_end words.now }
{
    words.len() == 1 && are_same(words.get(0).as_slice(), b"END")
}
