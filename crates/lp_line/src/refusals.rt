// Refusals as they are written.
ghost use Rattle.std.specs.Prelude.{◌≡◌, ◌++◌, OnOk, codes, decimal};
ghost use Rattle.spec_mps.specs.Checks as checks;
ghost use Rattle.spec_server.specs.Output as output;

use crate::answers::push_numbered;
use crate::asks::Refusal;
use lp_base::Bytes;
use lp_model::Which;
use spec_mps::{Code, MpsFault};
use spec_server::LineFault;
use std::alloc::{AllocError, Global};

// The number and the word that replies have for a line's fault.
fn line_fault_name(fault: LineFault) -> &'static [u8]
    ensures { result.now ≡ output.line_fault_text fault }
{
    match fault {
        LineFault::Word => b"1 WORD",
        LineFault::Number => b"2 NUMBER",
        LineFault::Wide => b"3 WIDE",
        LineFault::Long => b"11 LONG",
    }
}

// The number that the code of a text's fault has in replies.
fn code_number(code: Code) -> u64
    ensures { result ≡ checks.code_number code }
{
    match code {
        Code::SectionOrder => 1,
        Code::UnknownSection => 2,
        Code::CardShape => 3,
        Code::RowType => 4,
        Code::RowTaken => 5,
        Code::UnknownRow => 6,
        Code::ColumnTaken => 7,
        Code::EntryRepeated => 8,
        Code::NumberShape => 9,
        Code::NumberWide => 10,
        Code::BoundKind => 11,
        Code::Integer => 12,
        Code::SemiContinuous => 13,
        Code::UnknownColumn => 14,
        Code::NoObjective => 15,
        Code::Limit => 16,
        Code::Name => 17,
        Code::RangeOnObjective => 18,
        Code::Cut => 19,
    }
}

// Adds the fault of a model's text and its line to a text.
#[tactic(auto, unfolding(spec_server::specs::Output::fault_text))]
fn push_fault(alloc: Global, fault: MpsFault, to: &mut Bytes) -> Result<(), AllocError>
    ensures { OnOk result (to.new ≡ to.old ++ (codes "8 " ++ output.fault_text fault)) }
{
    push_numbered(alloc, b"8 MPS ", u64::from(fault.line), to)?;
    push_numbered(alloc, b" M", code_number(fault.code), to)
}

// The text in front of how many rows or columns there may be.
fn limit_front(which: Which) -> &'static [u8]
    ensures { result.now ≡ codes "7 LIMIT " ++ output.which_text which ++ codes " " }
{
    match which {
        Which::Rows => b"7 LIMIT ROWS ",
        Which::Columns => b"7 LIMIT COLUMNS ",
    }
}

// Adds to a text that there may be no more than `count` rows or columns.
fn push_limit(alloc: Global, which: Which, count: u32, to: &mut Bytes) -> Result<(), AllocError>
    ensures { OnOk result (to.new ≡ to.old ++
        (codes "7 LIMIT " ++ output.which_text which ++ codes " " ++ decimal count)) }
{
    push_numbered(alloc, limit_front(which), u64::from(count), to)
}

// Adds words and a name to a text.
fn push_named(words: &[u8], name: &[u8], to: &mut Bytes) -> Result<(), AllocError>
    ensures { OnOk result (to.new ≡ to.old ++ (words.now ++ name.now)) }
{
    to.extend(words)?;
    to.extend(name)
}

/// Adds to a text the number of a refusal, its word, and the name, line or limit that it is about, if there is one.
#[tactic(auto, unfolding(spec_server::specs::Output::repeated_text, spec_server::specs::Output::item_text))]
pub(crate) fn push_refusal(
    alloc: Global,
    refusal: &Refusal,
    to: &mut Bytes,
) -> Result<(), AllocError>
    ensures { OnOk result (to.new ≡ to.old ++ output.refusal_text refusal.now) }
{
    match refusal {
        Refusal::Bad(fault) => to.extend(line_fault_name(*fault)),
        Refusal::NoModel => to.extend(b"4 NOMODEL"),
        Refusal::Name(name) => push_named(b"5 NAME ", name.as_slice(), to),
        Refusal::Taken(name) => push_named(b"6 TAKEN ", name.as_slice(), to),
        Refusal::Limit(which, count) => push_limit(alloc, *which, *count, to),
        Refusal::BadName => to.extend(b"13 BADNAME"),
        Refusal::NoAnswer => to.extend(b"9 NOANSWER"),
        Refusal::Repeated(name) => push_named(b"12 REPEATED ", name.as_slice(), to),
        Refusal::Misspelled(fault) => push_fault(alloc, *fault, to),
        Refusal::Unfit(line) => push_numbered(alloc, b"14 CERT ", u64::from(*line), to),
        Refusal::FixedWide(item) => push_named(b"10 FIXEDWIDE ", item.as_slice(), to),
        Refusal::FreeRow(name) => push_named(b"16 FREEROW ", name.as_slice(), to),
    }
}
