// What the lines of a file are.
ghost use Rattle.std.specs.Prelude.{◌≡◌, IfOk};
ghost use Rattle.spec_mps.specs.Fields.{texts_of};
ghost use Rattle.spec_bas.specs.Cards as cards;

use lp_base::{Line, Name, are_same, by_word};
use lp_mps::card::{CardFault, Field, Fields, free};
use spec_bas::BasCode;
use std::alloc::{AllocError, Global};

/// A data card.
pub(crate) type Card = spec_bas::Card<Name>;

/// What a line is.
pub(crate) type Reading = spec_bas::Reading<Name>;

// The card of the kind `XU` or `XL` with this column and this row; none where `kind` is another word.
fn pair_of(
    alloc: Global,
    kind: &[u8],
    column: &[u8],
    row: &[u8],
) -> Result<Option<Card>, AllocError>
    ensures { IfOk result (λ card. card ≡ cards.pair_of kind.now column.now row.now) }
{
    let column = Name::from_slice(alloc, column)?;
    let row = Name::from_slice(alloc, row)?;
    by_word!(kind, {
        b"XU" => Ok(Some(Card::Xu { column, row })),
        b"XL" => Ok(Some(Card::Xl { column, row })),
        _ => Ok(None),
    })
}

// The card of the kind `UL` or `LL` with this column alone; none where `kind` is another word.
fn single_of(alloc: Global, kind: &[u8], column: &[u8]) -> Result<Option<Card>, AllocError>
    ensures { IfOk result (λ card. card ≡ cards.single_of kind.now column.now) }
{
    let column = Name::from_slice(alloc, column)?;
    by_word!(kind, {
        b"UL" => Ok(Some(Card::Ul { column })),
        b"LL" => Ok(Some(Card::Ll { column })),
        _ => Ok(None),
    })
}

// The card that two words of a line say, a kind and a column, or three, with a row too; none where the words are more,
// fewer, or of no such kind.
#[tactic(auto, unfolding(spec_bas::specs::Cards::card_of))]
fn card_of(alloc: Global, words: &[Field]) -> Result<Option<Card>, AllocError>
    ensures { IfOk result (λ card. card ≡ cards.card_of (texts_of words.now)) }
{
    match words {
        [kind, column] => single_of(alloc, kind.text(), column.text()),
        [kind, column, row] => pair_of(alloc, kind.text(), column.text(), row.text()),
        _ => Ok(None),
    }
}

// What a data card with these words is: a card of a known kind, or a fault.
fn data_reading(alloc: Global, words: &Fields) -> Result<Reading, AllocError>
    ensures { IfOk result (λ reading. reading ≡ cards.data_reading (cards.card_of (texts_of words.now))) }
{
    match card_of(alloc, words.as_slice())? {
        Some(card) => Ok(Reading::Says(card)),
        None => Ok(Reading::Wrong(BasCode::Card)),
    }
}

// What a heading is, by its first word: `NAME`, `ENDATA`, or a fault.
#[tactic(auto, unfolding(spec_bas::specs::Cards::section_reading))]
fn section_reading(words: &[Field]) -> Reading
    ensures { result ≡ cards.section_reading (texts_of words.now) }
{
    let Some(word) = words.first() else {
        return Reading::Wrong(BasCode::Section);
    };
    if are_same(word.text(), b"NAME") {
        return Reading::Named;
    }
    if are_same(word.text(), b"ENDATA") {
        return Reading::Ends;
    }
    Reading::Wrong(BasCode::Section)
}

// What a line with these bytes is: a data card, a heading, a line to be skipped, or a fault.
fn text_reading(alloc: Global, bytes: &[u8]) -> Result<Reading, AllocError>
    ensures { IfOk result (λ reading. reading ≡ cards.text_reading bytes.now) }
{
    match free(alloc, bytes) {
        Ok(lp_mps::card::Card::Skip) => Ok(Reading::Skipped),
        Ok(lp_mps::card::Card::Section(words)) => Ok(section_reading(words.as_slice())),
        Ok(lp_mps::card::Card::Given(words)) => data_reading(alloc, &words),
        Err(CardFault::NoMemory) => Err(AllocError),
        Err(CardFault::Misplaced(_)) => unreachable!(),
    }
}

/// What a line of a basis file is: a card, a heading, a line to be skipped, or a fault. A line that is too long is the
/// fault `Card`, and the end of the input `Cut`.
#[tactic(auto, unfolding(spec_bas::specs::Cards::reading_of))]
pub(crate) fn reading_of(alloc: Global, line: &Line) -> Result<Reading, AllocError>
    ensures { IfOk result (λ reading. reading ≡ cards.reading_of line.now) }
{
    match line {
        Line::Text(bytes) => text_reading(alloc, bytes.as_slice()),
        Line::Long(_) => Ok(Reading::Wrong(BasCode::Card)),
        Line::End | Line::Over => Ok(Reading::Wrong(BasCode::Cut)),
    }
}
