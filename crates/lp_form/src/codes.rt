// The two bits of a column.
ghost use Rattle.std.specs.Prelude.{◌≡◌, ◌+◌, ◌<◌, ◌/◌};
ghost use Rattle.spec_board.specs.Words as shape;

use crate::basis::Basis;
use crate::forms::Form;
use spec_board::BasisWords;
use spec_pivot::Status;

/// The two bits for the bounds of column `c`: 1 if it has a lower one, and 2 more if it has an upper one. They are 0
/// where the form has no such column.
pub fn form_code(form: &Form, c: u32) -> u64
    ensures value { result ≡ shape.form_code form.now c }
    ensures small { result < 4 }
{
    if c >= form.cols() + form.rows() {
        return 0;
    }
    match (form.lower(c), form.upper(c)) {
        (None, None) => 0,
        (Some(_), None) => 1,
        (None, Some(_)) => 2,
        (Some(_), Some(_)) => 3,
    }
}

// The two bits of a status: 0 for basic, 1 at the lower bound, 2 at the upper bound, 3 at 0.
fn status_code(status: Status) -> u64
    ensures value { result ≡ shape.status_code status }
    ensures small { result < 4 }
{
    match status {
        Status::Basic => 0,
        Status::AtLower => 1,
        Status::AtUpper => 2,
        Status::AtZero => 3,
    }
}

/// The two bits for the status of column `c`: 0 for basic, 1 at the lower bound, 2 at the upper bound, 3 at 0. They are
/// 0 where the basis has no such column.
pub fn basis_code(basis: &Basis, c: u32) -> u64
    ensures value { result ≡ shape.basis_code basis.now c }
    ensures small { result < 4 }
{
    if c as usize >= basis.as_slice().len() {
        return 0;
    }
    status_code(basis.at(c as usize))
}

/// The two bits of column `c` in the words of a basis, from word `first` on, which holds column 0. Each word holds two
/// bits for each of 32 columns.
pub fn code_at(words: &BasisWords, first: usize, c: u32) -> u64
    requires { first + c / 32 < 49 }
    ensures value { result ≡ shape.code_at first words.now c }
    ensures small { result < 4 }
{
    (words[first + c as usize / 32] >> (2 * (c % 32))) % 4
}

/// The two bits for the bounds of column `c` in the words of a basis: 1 if it has a lower one, and 2 more if it has an
/// upper one.
pub fn bounds_at(words: &BasisWords, c: u32) -> u64
    requires { c < shape.places }
    ensures value { result ≡ shape.bounds_at words.now c }
    ensures small { result < 4 }
{
    code_at(words, 1, c)
}

/// The status of column `c` in the words of a basis: basic, at its lower bound, at its upper bound or at 0.
pub fn status_at(words: &BasisWords, c: u32) -> Status
    requires { c < shape.places }
    ensures { result ≡ shape.status_at words.now c }
{
    match code_at(words, 25, c) {
        0 => Status::Basic,
        1 => Status::AtLower,
        2 => Status::AtUpper,
        _ => Status::AtZero,
    }
}

/// How many rows the words of a basis say that there are.
pub fn rows_of(words: &BasisWords) -> u64
    ensures { result ≡ shape.rows_of words.now }
{
    words[0] / 65536
}

/// How many structural columns the words of a basis say that there are.
pub fn cols_of(words: &BasisWords) -> u64
    ensures { result ≡ shape.cols_of words.now }
{
    words[0] % 65536
}

/// Whether a column can have this status by the two bits of its bounds: it has the bound that the status names, or none
/// where it is at 0. Each column can be basic.
pub fn suits(status: Status, bounds: u64) -> bool
    ensures { result ≡ shape.suits status bounds }
{
    match status {
        Status::Basic => true,
        Status::AtLower => bounds % 2 == 1,
        Status::AtUpper => bounds >= 2,
        Status::AtZero => bounds == 0,
    }
}
