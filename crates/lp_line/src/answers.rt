// Answers, verdicts and how answers were found, as they are written.
ghost use Rattle.std.specs.Prelude.{◌≡◌, ◌++◌, OnOk, codes, decimal};
ghost use Rattle.spec_server.specs.declared.asks.Reply.TheVariants as replies;
ghost use Rattle.spec_server.specs.Output as output;

use lp_base::Bytes;
use lp_check::{Known, Verdict};
use lp_frac::{Op, Past};
use spec_board::Put;
use spec_runs::Fall;
use spec_server::{How, Publication};
use std::alloc::{AllocError, Global};

/// Adds the digits of a number to a text.
pub(crate) fn push_number(alloc: Global, number: u64, to: &mut Bytes) -> Result<(), AllocError>
    ensures { OnOk result (to.new ≡ to.old ++ decimal number) }
{
    let digits = number.to_string(alloc)?;
    to.extend(digits.as_bytes())
}

/// Adds a word and the digits of a number to a text.
pub fn push_numbered(
    alloc: Global,
    word: &[u8],
    number: u64,
    to: &mut Bytes,
) -> Result<(), AllocError>
    ensures { OnOk result (to.new ≡ to.old ++ (word.now ++ decimal number)) }
{
    to.extend(word)?;
    push_number(alloc, number, to)
}

// The text in front of the operands of an operation past 127 bits.
fn past_front(op: Op) -> &'static [u8]
    ensures { result.now ≡ codes "PAST " ++ output.op_text op ++ codes " " }
{
    match op {
        Op::Add => b"PAST ADD ",
        Op::Sub => b"PAST SUB ",
        Op::Mul => b"PAST MUL ",
        Op::Div => b"PAST DIV ",
        Op::Cmp => b"PAST CMP ",
    }
}

/// Adds to a text that an operation is past 127 bits, with its operands.
pub(crate) fn push_past(alloc: Global, past: &Past, to: &mut Bytes) -> Result<(), AllocError>
    ensures { OnOk result (to.new ≡ to.old ++ output.past_text past.now) }
{
    to.extend(past_front(past.op))?;
    lp_numtext::write(alloc, past.a, to)?;
    to.extend(b" ")?;
    lp_numtext::write(alloc, past.b, to)
}

/// Adds to a text the line of an answer: optimal with its value, infeasible, or unbounded.
pub(crate) fn push_known(alloc: Global, known: &Known, to: &mut Bytes) -> Result<(), AllocError>
    ensures { OnOk result (to.new ≡ to.old ++ output.known_text known.now) }
{
    match known {
        Known::Optimal(value) => {
            to.extend(b"OPTIMAL ")?;
            lp_numtext::write(alloc, *value, to)
        }
        Known::Infeasible => to.extend(b"INFEASIBLE"),
        Known::Unbounded => to.extend(b"UNBOUNDED"),
    }
}

/// Adds a verdict on a certificate to a text: `YES` with what is known, `NO` with the number of a condition, or `PAST`
/// with the operation.
pub(crate) fn push_verdict(
    alloc: Global,
    verdict: &Verdict,
    to: &mut Bytes,
) -> Result<(), AllocError>
    ensures { OnOk result (to.new ≡ to.old ++ output.verdict_text verdict.now) }
{
    match verdict {
        Verdict::Yes(known) => {
            to.extend(b"YES ")?;
            push_known(alloc, known, to)
        }
        Verdict::No(condition) => push_numbered(alloc, b"NO ", u64::from(*condition), to),
        Verdict::Past(past) => push_past(alloc, past, to),
    }
}

/// The text of a space and the word for why a warm start was given up.
pub fn fall_suffix(fall: Fall) -> &'static [u8]
    ensures { result.now ≡ codes " " ++ output.fall_text fall }
{
    match fall {
        Fall::Singular => b" SINGULAR",
        Fall::Unfit => b" UNFIT",
        Fall::Past => b" PAST",
        Fall::Spent => b" SPENT",
    }
}

// Adds to a text how an answer was found: by a cold solve, or from a basis of the board.
fn push_how(alloc: Global, how: How, to: &mut Bytes) -> Result<(), AllocError>
    ensures { OnOk result (to.new ≡ to.old ++ (codes "HOW " ++ output.how_text how)) }
{
    match how {
        How::Cold => to.extend(b"HOW COLD"),
        How::Basis(place) => push_numbered(alloc, b"HOW BASIS ", u64::from(place), to),
        How::Fell(place, fall) => {
            push_numbered(alloc, b"HOW FELL ", u64::from(place), to)?;
            to.extend(fall_suffix(fall))
        }
    }
}

// Adds a space and what was published of an answer, or what came of trying to, to a text.
fn push_publication(
    alloc: Global,
    publication: Publication,
    to: &mut Bytes,
) -> Result<(), AllocError>
    ensures { OnOk result (to.new ≡ to.old ++ (codes " " ++ output.publication_text publication)) }
{
    match publication {
        Publication::Nothing => to.extend(b" NONE"),
        Publication::Same => to.extend(b" SAME"),
        Publication::Tried(Put::Published(place)) => {
            push_numbered(alloc, b" PUBLISHED ", u64::from(place), to)
        }
        Publication::Tried(Put::Raced(claimed)) => {
            push_numbered(alloc, b" RACED ", u64::from(claimed), to)
        }
        Publication::Tried(Put::Full(claimed)) => {
            push_numbered(alloc, b" FULL ", u64::from(claimed), to)
        }
    }
}

/// Adds a space, the word `PIVOTS` and their number, or `-` where there is none, to a text.
pub fn push_pivots(alloc: Global, pivots: Option<u64>, to: &mut Bytes) -> Result<(), AllocError>
    ensures { OnOk result (to.new ≡ to.old ++ (codes " PIVOTS " ++ output.pivots_text pivots)) }
{
    match pivots {
        Some(pivots) => push_numbered(alloc, b" PIVOTS ", pivots, to),
        None => to.extend(b" PIVOTS -"),
    }
}

/// Adds to a text how an answer was found, its pivots, and what was published of it.
#[tactic(auto, unfolding(spec_server::specs::Output::reply_text))]
pub(crate) fn push_found(
    alloc: Global,
    how: How,
    pivots: Option<u64>,
    publication: Publication,
    to: &mut Bytes,
) -> Result<(), AllocError>
    ensures { OnOk result (to.new ≡ to.old ++ output.reply_text (replies.Found how pivots publication)) }
{
    push_how(alloc, how, to)?;
    push_pivots(alloc, pivots, to)?;
    push_publication(alloc, publication, to)
}
