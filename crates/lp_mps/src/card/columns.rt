// Fields by columns.
ghost use Rattle.std.specs.Prelude.{◌≡◌, ◌+◌, ◌<◌, ◌≤◌, IfOk, OnOk, [], take, drop};
ghost use Rattle.spec_mps.specs.Fields as field;

use crate::card::Fields;
use std::alloc::{AllocError, Global};

/// The column after the last field. Only a space may stand in it, and past it nothing is read.
const LAST_COLUMN: u32 = 62;

// Whether the column is one of 1 to 62 and outside all fields of a card in fixed form, so that only a space may stand
// there.
fn is_beside(column: u32) -> bool
    ensures { result ≡ field.is_beside column }
{
    matches!(
        column,
        1 | 4 | 13 | 14 | 23 | 24 | 37 | 38 | 39 | 48 | 49 | 62
    )
}

// Whether the byte may not stand in this column of a data card in fixed form: a tab in any, and another byte than a
// space outside all fields. Past column 62 each byte may stand.
fn is_misplaced(column: u32, byte: u8) -> bool
    ensures { result ≡ field.is_misplaced column byte }
{
    column <= LAST_COLUMN && (byte == b'\t' || (is_beside(column) && byte != b' '))
}

/// The first column of the line, counted from 1, with a byte that may not stand there in fixed form; none if each may.
/// Past column 62 nothing is tested.
pub(crate) fn misplaced(line: &[u8]) -> Option<u32>
    ensures { result ≡ field.misplaced_from 1 line.now }
{
    let mut column = 1;
    for byte in line {
        if column > LAST_COLUMN {
            return None;
        }
        if is_misplaced(column, *byte) {
            return Some(column);
        }
        column += 1;
    }
    None
}

// The text without the spaces in front.
fn without_front(text: &[u8]) -> &[u8]
    ensures { result.now ≡ field.without_front text.now }
{
    for (at, byte) in text.iter().enumerate() {
        if *byte != b' ' {
            return &text[at..];
        }
    }
    &[]
}

// The text without the spaces at its end.
fn without_end(text: &[u8]) -> &[u8]
    ensures { result.now ≡ field.without_end text.now }
{
    for len in (1..=text.len()).rev() {
        if text[len - 1] != b' ' {
            return &text[..len];
        }
    }
    &[]
}

// The first `count` bytes of the line, or all of them where it has fewer.
fn first_bytes(line: &[u8], count: usize) -> &[u8]
    ensures { result.now ≡ take count line.now }
{
    if count < line.len() {
        &line[..count]
    } else {
        line
    }
}

// The line without its first `count` bytes, empty where it has no more.
fn behind(line: &[u8], count: usize) -> &[u8]
    ensures { result.now ≡ drop count line.now }
{
    if count < line.len() {
        &line[count..]
    } else {
        &[]
    }
}

// The text in the columns from `first` to `last`, counted from 1, without the spaces around it.
#[tactic(auto, unfolding(spec_mps::specs::Fields::in_columns))]
fn in_columns(line: &[u8], first: usize, last: usize) -> &[u8]
    requires { 0 < first }
    ensures { result.now ≡ field.in_columns first last line.now }
{
    without_end(without_front(behind(first_bytes(line, last), first - 1)))
}

// Adds the fields of a card in fixed form, with their numbers 1 to 6, to an empty list of fields. A field without
// another byte than spaces is left out.
#[tactic(auto, unfolding(spec_mps::specs::Fields::column_fields))]
fn push_columns(alloc: Global, line: &[u8], fields: &mut Fields) -> Result<(), AllocError>
    requires { fields.old ≡ [] }
    ensures { OnOk result (fields.new ≡ field.column_fields line.now) }
{
    fields.push(alloc, 1, in_columns(line, 2, 3))?;
    fields.push(alloc, 2, in_columns(line, 5, 12))?;
    fields.push(alloc, 3, in_columns(line, 15, 22))?;
    fields.push(alloc, 4, in_columns(line, 25, 36))?;
    fields.push(alloc, 5, in_columns(line, 40, 47))?;
    fields.push(alloc, 6, in_columns(line, 50, 61))
}

/// The fields of a card in fixed form, by their columns, with their numbers 1 to 6. A field without another byte than
/// spaces is left out.
pub(crate) fn column_fields(alloc: Global, line: &[u8]) -> Result<Fields, AllocError>
    ensures { IfOk result (λ fields. fields ≡ field.column_fields line.now) }
{
    let mut fields = Fields::new(alloc);
    push_columns(alloc, line, &mut fields)?;
    Ok(fields)
}
