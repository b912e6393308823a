// A text of a certificate that is read line by line.
ghost use Rattle.std.specs.Prelude.{◌≡◌, ◌+◌, ◌<◌, ◌-◌, ◌^◌, ◌++◌, ◌∷◌, [], None, IfOk, OnOk, if◌then◌else◌};
ghost use Rattle.spec_certificate.specs.Text as certificate;
ghost use Rattle.spec_certificate.specs.declared.progress.Progress.TheVariants.{More, Unfit};
ghost use Rattle.lp_certificate.specs.Feeds.{Feeds};

use crate::certificate::RawOf;
use crate::number::Number;
use crate::words::{is_end, kind_of, part_of};
use lp_base::{Feed, Items, Line, Texts, words};
use lp_frac::Frac;
use spec_certificate::Progress;
use spec_check::RawCertificate;
use std::alloc::{AllocError, Global};
use std::marker::Model;

/// A text of a certificate that is read line by line. After any answer but `More` the reader has lost what it read.
pub struct ReaderOf<N> {
    raw: Option<RawOf<N>>,
    lines: u32,
}

/// A text whose numbers are of 127 bits.
pub type CertReader = ReaderOf<Frac>;

impl<N> Model for ReaderOf<N> {
    ghost use Rattle.lp_certificate.specs.CertificateRead.{CertificateRead};

    ghost Value = { CertificateRead N };

    ghost view = { λ r. record { raw = r.raw; lines = r.lines } };
}

// What the words of a first line lead to: a certificate of the kind that they say, without parts; where they say none,
// the line does not fit.
fn open<N: Drop>(alloc: Global, words: &Texts) -> Result<Progress<RawOf<N>>, AllocError>
    ensures { IfOk result (λ progress. progress ≡ certificate.opened (certificate.kind_of words.now)) }
{
    match kind_of(alloc, words)? {
        Some(kind) => Ok(Progress::More(RawCertificate {
            kind,
            parts: Items::new(alloc),
        })),
        None => Ok(Progress::Unfit),
    }
}

// Adds the part that the words of a line say to the certificate that was read so far. Says whether they say one; if
// not, nothing is added.
fn add_part<N: Number>(alloc: Global, raw: &mut RawOf<N>, words: &Texts) -> Result<bool, AllocError>
    ensures { IfOk result (λ is_part. (if is_part then More raw.new else Unfit)
        ≡ certificate.with_part raw.old (certificate.part_by N.reading raw.old.kind words.now)) }
{
    match part_of(alloc, &raw.kind, words)? {
        Some(part) => {
            raw.parts.push(part)?;
            Ok(true)
        }
        None => Ok(false),
    }
}

// What the words of a line after the first lead to: the end of the certificate at `END`; else the certificate with one
// more part; where they say none, the line does not fit.
fn go_on<N: Number>(
    alloc: Global,
    mut raw: RawOf<N>,
    words: &Texts,
) -> Result<Progress<RawOf<N>>, AllocError>
    ensures { IfOk result (λ progress. progress ≡ certificate.words_step N.reading (Some raw) words.now) }
{
    if is_end(words) {
        return Ok(Progress::Done(raw));
    }
    match add_part(alloc, &mut raw, words) {
        Ok(true) => Ok(Progress::More(raw)),
        Ok(false) => {
            drop(raw);
            Ok(Progress::Unfit)
        }
        Err(error) => {
            drop(raw);
            Err(error)
        }
    }
}

// Reads a line, with what was read before it, which is taken out of `so_far`. A line that is too long, or the end of
// what may be read, does not fit, and leaves `so_far`.
#[tactic(auto, unfolding(spec_certificate::specs::Text::step_by))]
fn advance<N: Number>(
    alloc: Global,
    so_far: &mut Option<RawOf<N>>,
    line: &Line,
) -> Result<Progress<RawOf<N>>, AllocError>
    ensures { IfOk result (λ progress. progress ≡ certificate.step_by N.reading so_far.old line.now) }
{
    let Line::Text(bytes) = line else {
        return Ok(Progress::Unfit);
    };
    let words = words(alloc, bytes.as_slice())?;
    let progress = match so_far.take() {
        None => open(alloc, &words),
        Some(raw) => go_on(alloc, raw, &words),
    };
    drop(words);
    progress
}

impl<N: Drop> Drop for ReaderOf<N> {
    // Drops what was read so far, and gives its memory back.
    fn drop(self) {
        let ReaderOf { raw, lines: _ } = self;
        drop(raw);
    }
}

impl<N> ReaderOf<N> {
    /// A reader that has read nothing.
    pub fn new() -> Self
        ensures { result ≡ record { raw = None; lines = 0 } }
    {
        ReaderOf {
            raw: None,
            lines: 0,
        }
    }
}

impl<N: Number> ReaderOf<N> {
    /// Takes the next line. Gives the certificate at its end, and `More` where it goes on. A line that does not fit is
    /// refused by its number. Where memory runs out, it says so.
    pub fn feed(&mut self, alloc: Global, line: &Line) -> Feed<RawOf<N>, u32>
        requires { self.old.lines < 2 ^ 32 - 1 }
        ensures { Feeds (certificate.step_by N.reading self.old.raw line.now) (self.old.lines + 1) self.new result }
    {
        let number = self.lines + 1;
        let mut so_far = self.raw.take();
        let progress = advance(alloc, &mut so_far, line);
        drop(so_far);
        match progress {
            Ok(Progress::More(raw)) => {
                self.raw = Some(raw);
                self.lines = number;
                Feed::More
            }
            Ok(Progress::Done(raw)) => Feed::Done(raw),
            Ok(Progress::Unfit) => Feed::Refused(number),
            Err(_) => Feed::NoMemory,
        }
    }
}
