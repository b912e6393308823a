// The edits that command lines ask for.
ghost use Rattle.std.specs.Prelude.{◌≡◌, IfOk, IfSome};
ghost use Rattle.spec_model.specs.Kept.{IsBound};
ghost use Rattle.spec_mps.specs.BoundText.{bound_of, bound_answer};
ghost use Rattle.spec_server.specs.declared.command.EditWord.TheVariants as word;
ghost use Rattle.spec_server.specs.EditCommand as edit_command;
ghost use Rattle.lp_line.specs.GivesWords.{GivesWords};
ghost use Rattle.lp_line.specs.NewRow as new_row;
ghost use Rattle.lp_line.specs.declared.edits.EditStop.TheVariants.{Fault, NoMemory};

use lp_base::{Bytes, Name, are_same, look_up};
use lp_frac::Frac;
use lp_model::{ColumnBounds, Edit, Kind, Pairs, Sense, is_free};
use lp_numtext::{BoundValue, NumFault, read_bound};
use spec_server::{EditWord, LineFault};
use std::alloc::{AllocError, Global};

const KINDS: [(&[u8], Kind); 4] = [
    (b"L", Kind::L),
    (b"G", Kind::G),
    (b"E", Kind::E),
    (b"N", Kind::N),
];

const SENSES: [(&[u8], Sense); 2] = [(b"MIN", Sense::Min), (b"MAX", Sense::Max)];

/// Why a line is not read as an edit.
#[derive(Clone, Copy)]
pub(crate) enum EditStop {
    Fault(LineFault),
    NoMemory,
}

impl From<LineFault> for EditStop {
    ghost from_gives = { λ fault stop. stop ≡ Fault fault };

    // The stop at this fault of a line.
    fn from(fault: LineFault) -> Self {
        EditStop::Fault(fault)
    }
}

impl From<AllocError> for EditStop {
    ghost from_gives = { λ _ stop. stop ≡ NoMemory };

    // The stop for lack of memory.
    fn from(_: AllocError) -> Self {
        EditStop::NoMemory
    }
}

// The fault of a line by that of its word: `Number` where the word is no number, `Wide` where it is none of 127 bits.
fn number_fault(fault: NumFault) -> LineFault
    ensures { result ≡ edit_command.number_fault fault }
{
    match fault {
        NumFault::Shape => LineFault::Number,
        NumFault::Wide => LineFault::Wide,
    }
}

// The number of 127 bits that the word is; a fault if it is none.
#[tactic(auto, unfolding(spec_server::specs::EditCommand::number_in))]
fn number_in(word: &Bytes) -> Result<Frac, LineFault>
    ensures { result ≡ edit_command.number_in word.now }
{
    match lp_numtext::read(word.as_slice()) {
        Ok(value) => Ok(value),
        Err(fault) => Err(number_fault(fault)),
    }
}

// The kind of row that the word names; a fault if it names none.
#[tactic(auto, unfolding(spec_server::specs::EditCommand::kind_in))]
fn kind_in(word: &Bytes) -> Result<Kind, LineFault>
    ensures { result ≡ edit_command.kind_in word.now }
{
    look_up(word.as_slice(), &KINDS).ok_or(LineFault::Word)
}

// The sense that the word names; a fault if it names none.
#[tactic(auto, unfolding(spec_server::specs::EditCommand::sense_in))]
fn sense_in(word: &Bytes) -> Result<Sense, LineFault>
    ensures { result ≡ edit_command.sense_in word.now }
{
    look_up(word.as_slice(), &SENSES).ok_or(LineFault::Word)
}

// The range that the word is, or none for `NONE`. Another word that is no number of 127 bits is a fault.
#[tactic(auto, unfolding(spec_server::specs::EditCommand::range_in))]
fn range_in(word: &Bytes) -> Result<Option<Frac>, LineFault>
    ensures { result ≡ edit_command.range_in word.now }
{
    if are_same(word.as_slice(), b"NONE") {
        return Ok(None);
    }
    Ok(Some(number_in(word)?))
}

// The number of 127 bits, or plus or minus infinity, that the word is; a fault if it is none.
fn bound_in(word: &Bytes) -> Result<BoundValue<Frac>, LineFault>
    ensures { result ≡ edit_command.as_read (bound_answer (bound_of word.now)) }
{
    match read_bound(word.as_slice()) {
        Ok(bound) => Ok(bound),
        Err(fault) => Err(number_fault(fault)),
    }
}

// The lower bound that the word is, none for minus infinity. Plus infinity is a fault, and so is a word that is no
// bound.
#[tactic(auto, using(crate::proofs::SmallBounds::small_bound), unfolding(spec_server::specs::EditCommand::lower_in))]
fn lower_in(word: &Bytes) -> Result<Option<Frac>, LineFault>
    ensures value { result ≡ edit_command.lower_in word.now }
    ensures small { IfOk result IsBound }
{
    match bound_in(word)? {
        BoundValue::Finite(lower) => Ok(Some(lower)),
        BoundValue::MinusInf => Ok(None),
        BoundValue::PlusInf => Err(LineFault::Number),
    }
}

// The upper bound that the word is, none for plus infinity. Minus infinity is a fault, and so is a word that is no
// bound.
#[tactic(auto, using(crate::proofs::SmallBounds::small_bound), unfolding(spec_server::specs::EditCommand::upper_in))]
fn upper_in(word: &Bytes) -> Result<Option<Frac>, LineFault>
    ensures value { result ≡ edit_command.upper_in word.now }
    ensures small { IfOk result IsBound }
{
    match bound_in(word)? {
        BoundValue::Finite(upper) => Ok(Some(upper)),
        BoundValue::PlusInf => Ok(None),
        BoundValue::MinusInf => Err(LineFault::Number),
    }
}

// The word as a name, which may be a bad one.
fn name_in(alloc: Global, word: &Bytes) -> Result<Name, AllocError>
    ensures { IfOk result (λ name. name ≡ word.now) }
{
    Name::from_slice(alloc, word.as_slice())
}

// The pairs of a new column: the name of a row and a number, by turns; or the fault of the first number that is none of
// 127 bits. Of an odd number of words nothing is claimed.
fn pairs_in(alloc: Global, words: &[Bytes]) -> Result<Pairs, EditStop>
    ensures { IfSome (edit_command.two_by_two words.now) (λ pairs. GivesWords (edit_command.numbers_in pairs) result) }
{
    let mut pairs = Pairs::new(alloc);
    let mut left = words;
    while let [name, value, others @ ..] = left {
        let value = number_in(value)?;
        pairs.push(name_in(alloc, name)?, value)?;
        left = others;
    }
    Ok(pairs)
}

// The range that the word gives a new row of this kind; a fault where the row is free, or the word is no number of 127
// bits.
#[tactic(auto, unfolding(spec_server::specs::EditCommand::new_range_in))]
fn new_range_in(kind: Kind, word: &Bytes) -> Result<Frac, LineFault>
    ensures { result ≡ edit_command.new_range_in kind word.now }
{
    if is_free(kind) {
        return Err(LineFault::Word);
    }
    number_in(word)
}

// The edit that adds a row without a range, by the words for its name, its kind and its right side; or a fault.
fn plain_row(alloc: Global, name: &Bytes, kind: &Bytes, rhs: &Bytes) -> Result<Edit, EditStop>
    ensures { GivesWords (new_row.plain_row name.now kind.now rhs.now) result }
{
    let kind = kind_in(kind)?;
    let rhs = number_in(rhs)?;
    Ok(Edit::AddRow {
        name: name_in(alloc, name)?,
        kind,
        rhs,
        range: None,
    })
}

// The edit that adds a row with a range, by the words for its name, kind, right side and range; or a fault.
fn ranged_row(
    alloc: Global,
    name: &Bytes,
    kind: &Bytes,
    rhs: &Bytes,
    range: &Bytes,
) -> Result<Edit, EditStop>
    ensures { GivesWords (new_row.ranged_row name.now kind.now rhs.now range.now) result }
{
    let kind = kind_in(kind)?;
    let rhs = number_in(rhs)?;
    let range = new_range_in(kind, range)?;
    Ok(Edit::AddRow {
        name: name_in(alloc, name)?,
        kind,
        rhs,
        range: Some(range),
    })
}

// The edit that adds the row which the words behind `ADDROW` say; or a fault.
#[tactic(auto, unfolding(spec_server::specs::EditCommand::edit_by))]
fn add_row(alloc: Global, words: &[Bytes]) -> Result<Edit, EditStop>
    ensures { GivesWords (edit_command.edit_by word.AddRow words.now) result }
{
    match words {
        [name, kind, rhs] => plain_row(alloc, name, kind, rhs),
        [name, kind, rhs, range] => ranged_row(alloc, name, kind, rhs, range),
        _ => Err(EditStop::Fault(LineFault::Word)),
    }
}

// The edit that takes out the row which the word behind `DELROW` names; a fault where there is not one word.
#[tactic(auto, unfolding(spec_server::specs::EditCommand::edit_by))]
fn delete_row(alloc: Global, words: &[Bytes]) -> Result<Edit, EditStop>
    ensures { GivesWords (edit_command.edit_by word.DelRow words.now) result }
{
    let [name] = words else {
        return Err(EditStop::Fault(LineFault::Word));
    };
    Ok(Edit::DelRow(name_in(alloc, name)?))
}

// The edit that adds a column, by the words for its name, its cost, and its pairs of a row and a number; or a fault. A
// pair that lacks its number is the fault before any number is read.
fn column_in(alloc: Global, name: &Bytes, cost: &Bytes, pairs: &[Bytes]) -> Result<Edit, EditStop>
    ensures { GivesWords (edit_command.column_in name.now cost.now (edit_command.two_by_two pairs.now)) result }
{
    if pairs.len() % 2 != 0 {
        return Err(EditStop::Fault(LineFault::Word));
    }
    let cost = number_in(cost)?;
    let pairs = pairs_in(alloc, pairs)?;
    let name = name_in(alloc, name)?;
    Ok(Edit::AddCol { name, cost, pairs })
}

// The edit that adds the column which the words behind `ADDCOL` say; or a fault.
#[tactic(auto, unfolding(spec_server::specs::EditCommand::edit_by))]
fn add_column(alloc: Global, words: &[Bytes]) -> Result<Edit, EditStop>
    ensures { GivesWords (edit_command.edit_by word.AddCol words.now) result }
{
    match words {
        [name, cost, pairs @ ..] => column_in(alloc, name, cost, pairs),
        _ => Err(EditStop::Fault(LineFault::Word)),
    }
}

// The edit that takes out the column which the word behind `DELCOL` names; a fault where there is not one word.
#[tactic(auto, unfolding(spec_server::specs::EditCommand::edit_by))]
fn delete_column(alloc: Global, words: &[Bytes]) -> Result<Edit, EditStop>
    ensures { GivesWords (edit_command.edit_by word.DelCol words.now) result }
{
    let [name] = words else {
        return Err(EditStop::Fault(LineFault::Word));
    };
    Ok(Edit::DelCol(name_in(alloc, name)?))
}

// The edit that gives a column a cost, by the words behind `SETCOST`; or a fault.
#[tactic(auto, unfolding(spec_server::specs::EditCommand::edit_by))]
fn set_cost(alloc: Global, words: &[Bytes]) -> Result<Edit, EditStop>
    ensures { GivesWords (edit_command.edit_by word.SetCost words.now) result }
{
    let [name, value] = words else {
        return Err(EditStop::Fault(LineFault::Word));
    };
    let value = number_in(value)?;
    Ok(Edit::SetCost(name_in(alloc, name)?, value))
}

// The edit that gives a column a coefficient in a row, by the words behind `SETCOEF`; or a fault.
#[tactic(auto, unfolding(spec_server::specs::EditCommand::edit_by))]
fn set_coefficient(alloc: Global, words: &[Bytes]) -> Result<Edit, EditStop>
    ensures { GivesWords (edit_command.edit_by word.SetCoef words.now) result }
{
    let [row, column, value] = words else {
        return Err(EditStop::Fault(LineFault::Word));
    };
    let value = number_in(value)?;
    let row = name_in(alloc, row)?;
    let column = name_in(alloc, column)?;
    Ok(Edit::SetCoef { row, column, value })
}

// The edit that gives a row a right side, by the words behind `SETRHS`; or a fault.
#[tactic(auto, unfolding(spec_server::specs::EditCommand::edit_by))]
fn set_right_side(alloc: Global, words: &[Bytes]) -> Result<Edit, EditStop>
    ensures { GivesWords (edit_command.edit_by word.SetRhs words.now) result }
{
    let [name, value] = words else {
        return Err(EditStop::Fault(LineFault::Word));
    };
    let value = number_in(value)?;
    Ok(Edit::SetRhs(name_in(alloc, name)?, value))
}

// The edit that gives a row a range or takes it away, by the words behind `SETRANGE`; or a fault.
#[tactic(auto, unfolding(spec_server::specs::EditCommand::edit_by))]
fn set_range(alloc: Global, words: &[Bytes]) -> Result<Edit, EditStop>
    ensures { GivesWords (edit_command.edit_by word.SetRange words.now) result }
{
    let [name, range] = words else {
        return Err(EditStop::Fault(LineFault::Word));
    };
    let range = range_in(range)?;
    Ok(Edit::SetRange(name_in(alloc, name)?, range))
}

// The edit that gives a column bounds, by the words behind `SETBOUND`; or a fault.
#[tactic(auto, unfolding(spec_server::specs::EditCommand::edit_by))]
fn set_bounds(alloc: Global, words: &[Bytes]) -> Result<Edit, EditStop>
    ensures { GivesWords (edit_command.edit_by word.SetBound words.now) result }
{
    let [column, lower, upper] = words else {
        return Err(EditStop::Fault(LineFault::Word));
    };
    let lower = lower_in(lower)?;
    let upper = upper_in(upper)?;
    let column = name_in(alloc, column)?;
    let bounds = ColumnBounds::new(lower, upper);
    Ok(Edit::SetBound { column, bounds })
}

// The edit that gives the objective a sense, by the word behind `SENSE`; or a fault.
#[tactic(auto, unfolding(spec_server::specs::EditCommand::edit_by))]
fn set_sense(words: &[Bytes]) -> Result<Edit, EditStop>
    ensures { GivesWords (edit_command.edit_by word.Sense words.now) result }
{
    let [sense] = words else {
        return Err(EditStop::Fault(LineFault::Word));
    };
    Ok(Edit::SetSense(sense_in(sense)?))
}

/// The edit that the words after a command word give, or the first fault: by their count, and then from left to right.
pub(crate) fn edit_by(alloc: Global, which: EditWord, words: &[Bytes]) -> Result<Edit, EditStop>
    ensures { GivesWords (edit_command.edit_by which words.now) result }
{
    match which {
        EditWord::AddRow => add_row(alloc, words),
        EditWord::DelRow => delete_row(alloc, words),
        EditWord::AddCol => add_column(alloc, words),
        EditWord::DelCol => delete_column(alloc, words),
        EditWord::SetCost => set_cost(alloc, words),
        EditWord::SetCoef => set_coefficient(alloc, words),
        EditWord::SetRhs => set_right_side(alloc, words),
        EditWord::SetRange => set_range(alloc, words),
        EditWord::SetBound => set_bounds(alloc, words),
        EditWord::Sense => set_sense(words),
    }
}
