// The text of a certificate.
ghost use Rattle.std.specs.Prelude.{◌≡◌, ◌<◌, ◌∷◌, ◌++◌, length, get_or, IfOk, OnOk};
ghost use Rattle.spec_check.specs.Certificate.{IsFor};
ghost use Rattle.spec_certificate.specs.TextWritten as text_written;
ghost use Rattle.lp_certificate.specs.Answer.{IsPlace};
ghost use Rattle.lp_certificate.specs.Letters.{count_of, name_at, value_lines};

use crate::certificate::CertificateOf;
use crate::number::Number;
use lp_base::{Bytes, Items, Texts};
use lp_model::Model;
use spec_check::{Certificate, Letter};
use std::alloc::{AllocError, Global};

// The word of a letter: `x`, `y` or `r`.
fn letter_text(letter: Letter) -> &'static [u8]
    ensures { result.now ≡ text_written.letter_text letter }
{
    match letter {
        Letter::X => b"x",
        Letter::Y => b"y",
        Letter::R => b"r",
    }
}

// Adds a blank and a word to a text.
fn add_word(text: &mut Bytes, word: &[u8]) -> Result<(), AllocError>
    ensures { OnOk result (text.new ≡ text.old ++ 32 ∷ word.now) }
{
    text.push(b' ')?;
    text.extend(word)
}

// Adds to a text what a part's line says: its letter, the name and the number.
fn add_part_text<N: Number>(
    alloc: Global,
    letter: Letter,
    name: &[u8],
    value: &N,
    text: &mut Bytes,
) -> Result<(), AllocError>
    ensures { OnOk result (text.new ≡ text.old ++ text_written.part_text_by N.writing letter name.now value.now) }
{
    text.extend(letter_text(letter))?;
    add_word(text, name)?;
    text.push(b' ')?;
    value.write(alloc, text)
}

// Adds the line of a number to the lines, unless the number is 0.
fn add_part<N: Number>(
    alloc: Global,
    letter: Letter,
    name: &[u8],
    value: &N,
    lines: &mut Texts,
) -> Result<(), AllocError>
    ensures { OnOk result (lines.new ≡ lines.old ++ text_written.part_lines_by N.writing letter name.now value.now) }
{
    if value.is_none() {
        return Ok(());
    }
    let mut text = Bytes::new(alloc);
    add_part_text(alloc, letter, name, value, &mut text)?;
    lines.push(text)
}

// How many numbers a list with this letter has: one for each column, or for `y` one for each row.
fn count_of(model: &Model, letter: Letter) -> u32
    ensures { result ≡ count_of model.now letter }
{
    match letter {
        Letter::X | Letter::R => model.cols(),
        Letter::Y => model.rows(),
    }
}

// The name of the column at `k`, or for `y` of the row.
fn name_at(model: &Model, letter: Letter, k: u32) -> &[u8]
    requires { IsPlace model.now letter k }
    ensures { result.now ≡ name_at model.now letter k }
{
    match letter {
        Letter::X | Letter::R => model.col(k).name.as_slice(),
        Letter::Y => model.row(k).name.as_slice(),
    }
}

// The number at place `k` of the list, counted from 0.
fn number_at<N: Number>(values: &Items<N>, k: u32) -> &N
    requires { k < length values.now }
    ensures { result.now ≡ get_or values.now k N.writing.none }
{
    values.get(k as usize)
}

// Adds to the lines one for each number of the list with this letter that is not 0, in the order of the model.
fn add_values<N: Number>(
    alloc: Global,
    model: &Model,
    letter: Letter,
    values: &Items<N>,
    lines: &mut Texts,
) -> Result<(), AllocError>
    requires { length values.now ≡ count_of model.now letter }
    ensures { OnOk result (lines.new ≡ lines.old ++ value_lines N.writing model.now letter values.now) }
{
    for k in 0..count_of(model, letter) {
        let name = name_at(model, letter, k);
        add_part(alloc, letter, name, number_at(values, k), lines)?;
    }
    Ok(())
}

// Adds to a text the words that say the certificate's kind, for a clash with the column's name.
fn add_kind_text<N>(
    model: &Model,
    cert: &CertificateOf<N>,
    text: &mut Bytes,
) -> Result<(), AllocError>
    requires { IsFor model.now cert.now }
    ensures { OnOk result (text.new ≡ text.old ++ text_written.kind_text model.now cert.now) }
{
    match cert {
        Certificate::Optimal { .. } => text.extend(b"OPTIMAL"),
        Certificate::Infeasible { .. } => text.extend(b"INFEASIBLE"),
        Certificate::Unbounded { .. } => text.extend(b"UNBOUNDED"),
        Certificate::Clash(j) => {
            text.extend(b"CLASH")?;
            add_word(text, model.col(*j).name.as_slice())
        }
    }
}

// Adds to the lines one for each number of the certificate that is not 0.
fn add_parts<N: Number>(
    alloc: Global,
    model: &Model,
    cert: &CertificateOf<N>,
    lines: &mut Texts,
) -> Result<(), AllocError>
    requires { IsFor model.now cert.now }
    ensures { OnOk result (lines.new ≡ lines.old ++ text_written.all_part_lines_by N.writing model.now cert.now) }
{
    match cert {
        Certificate::Optimal { x, y } => {
            add_values(alloc, model, Letter::X, x, lines)?;
            add_values(alloc, model, Letter::Y, y, lines)
        }
        Certificate::Infeasible { y } => add_values(alloc, model, Letter::Y, y, lines),
        Certificate::Unbounded { x, r } => {
            add_values(alloc, model, Letter::X, x, lines)?;
            add_values(alloc, model, Letter::R, r, lines)
        }
        Certificate::Clash(_) => Ok(()),
    }
}

// Adds to the lines all lines of the certificate's text.
#[tactic(auto, unfolding(spec_certificate::specs::TextWritten::certificate_lines_by))]
fn add_lines<N: Number>(
    alloc: Global,
    model: &Model,
    cert: &CertificateOf<N>,
    lines: &mut Texts,
) -> Result<(), AllocError>
    requires { IsFor model.now cert.now }
    ensures { OnOk result (lines.new ≡ lines.old ++ text_written.certificate_lines_by N.writing model.now cert.now) }
{
    let mut kind = Bytes::new(alloc);
    add_kind_text(model, cert, &mut kind)?;
    lines.push(kind)?;
    add_parts(alloc, model, cert, lines)?;
    lines.push(Bytes::from_slice(alloc, b"END")?)
}

/// The lines of the certificate's text: its kind, a part for each number that is not 0 in the order of
/// the model, and `END`.
pub fn cert_text<N: Number>(
    alloc: Global,
    model: &Model,
    cert: &CertificateOf<N>,
) -> Result<Texts, AllocError>
    requires { IsFor model.now cert.now }
    ensures { IfOk result (λ lines. lines ≡ text_written.certificate_lines_by N.writing model.now cert.now) }
{
    let mut lines = Texts::new(alloc);
    add_lines(alloc, model, cert, &mut lines)?;
    Ok(lines)
}
