// The words of shapes and bases.
ghost use Rattle.std.specs.Prelude.{◌≡◌, ◌+◌, ◌<◌, ◌≤◌, ◌↔◌, IsTrue, length};
ghost use Rattle.spec_board.specs.Words.{word_from, shape_of, packed};
ghost use Rattle.lp_form.specs.Coded.{code_of};

use crate::basis::Basis;
use crate::codes::{basis_code, form_code};
use crate::forms::Form;
use spec_board::{BasisWords, ShapeWords};

/// What has two bits for each column: a form for the bounds, a basis for the statuses.
#[derive(Clone, Copy)]
pub(crate) enum Coded<'a> {
    Bounds(&'a Form),
    Statuses(&'a Basis),
}

// The two bits of column `c`: of its bounds in a form, or of its status in a basis.
fn code(columns: &Coded, c: u32) -> u64
    ensures value { result ≡ code_of columns.now c }
    ensures small { result < 4 }
{
    match columns {
        Coded::Bounds(form) => form_code(form, c),
        Coded::Statuses(basis) => basis_code(basis, c),
    }
}

// The word that holds the bits of the 32 columns from column `first` on, the first one's in the lowest bits.
fn word_of(columns: &Coded, first: u32) -> u64
    requires { first ≤ 1000 }
    ensures { result ≡ word_from (code_of columns.now) first 32 }
{
    let mut word = 0;
    for k in (0..32).rev() {
        word = 4 * word + code(columns, first + k);
    }
    word
}

/// The words of the form's shape: its numbers of rows and columns, and which bounds exist.
#[tactic(auto, unfolding(spec_board::specs::Words::shape_of))]
pub fn shape(form: &Form) -> ShapeWords
    ensures { result ≡ shape_of form.now }
{
    let columns = Coded::Bounds(form);
    let mut words = [0u64; 25];
    words[0] = 65536 * form.rows() as u64 + form.cols() as u64;
    for w in 0..24 {
        words[1 + w] = word_of(&columns, 32 * w as u32);
    }
    words
}

/// The words of the basis, which has a status for each column of the form: the form's shape, and then the bits of the
/// statuses.
pub fn pack(form: &Form, basis: &Basis) -> BasisWords
    requires { length basis.now ≡ form.now.cols + form.now.rows }
    ensures { result ≡ packed form.now basis.now }
{
    let shape = shape(form);
    let columns = Coded::Statuses(basis);
    let mut words = [0u64; 49];
    for i in 0..25 {
        words[i] = shape[i];
    }
    for w in 0..24 {
        words[25 + w] = word_of(&columns, 32 * w as u32);
    }
    words
}

/// Whether two shapes are equal.
pub fn same_shape(a: &ShapeWords, b: &ShapeWords) -> bool
    ensures { IsTrue result ↔ a.now ≡ b.now }
{
    a[..] == b[..]
}
