// Whether words are those of a basis.
ghost use Rattle.std.specs.Prelude.{◌≡◌, ◌+◌, ◌<◌, ◌≤◌, ◌↔◌, IsTrue, length};
ghost use Rattle.spec_simplex.specs.Eliminate.{basics_below};
ghost use Rattle.spec_board.specs.Words.{columns_of, places, unpacked, AllSuit, RestIsZero, IsWellFormed};

use crate::codes::{bounds_at, code_at, cols_of, rows_of, status_at, suits};
use crate::status::is_basic;
use spec_board::BasisWords;

// The most columns that words have bits for.
const PLACES: u32 = 768;

// How many of the first `columns` columns of the words are basic.
fn count_basic(words: &BasisWords, columns: u32) -> u64
    requires columns { columns ≡ columns_of words.now }
    requires few { columns ≤ places }
    ensures { result ≡ basics_below (unpacked words.now) (columns_of words.now) }
{
    let mut count: u64 = 0;
    for c in 0..columns {
        if is_basic(status_at(words, c)) {
            count += 1;
        }
    }
    count
}

// Whether the status of each column is one that its bounds allow.
fn all_suit(words: &BasisWords, columns: u32) -> bool
    requires columns { columns ≡ columns_of words.now }
    requires few { columns ≤ places }
    ensures { IsTrue result ↔ AllSuit words.now }
{
    for c in 0..columns {
        if !suits(status_at(words, c), bounds_at(words, c)) {
            return false;
        }
    }
    true
}

// Whether the bits of all columns from number `columns` on are 0.
fn rest_is_zero(words: &BasisWords, columns: u32) -> bool
    requires columns { columns ≡ columns_of words.now }
    requires few { columns ≤ places }
    ensures { IsTrue result ↔ RestIsZero words.now }
{
    for c in columns..PLACES {
        if bounds_at(words, c) != 0 || code_at(words, 25, c) != 0 {
            return false;
        }
    }
    true
}

/// Whether the words are those of some basis of some form of at most 256 rows and 512 structural columns.
pub fn well_formed(words: &BasisWords) -> bool
    ensures { IsTrue result ↔ IsWellFormed words.now }
{
    let (rows, cols) = (rows_of(words), cols_of(words));
    if rows > 256 || cols > 512 {
        return false;
    }
    let columns = (cols + rows) as u32;
    count_basic(words, columns) == rows && all_suit(words, columns) && rest_is_zero(words, columns)
}
