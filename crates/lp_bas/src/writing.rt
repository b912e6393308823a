// The file of a basis.
ghost use Rattle.std.specs.Prelude.{◌≡◌, ◌<◌, ◌+◌, ◌++◌, ◌∷◌, [], All, IfOk, OnOk, codes, length, map};
ghost use Rattle.std.specs.List.{zip};
ghost use Rattle.spec_model.specs.Model.{width, height};
ghost use Rattle.spec_simplex.specs.Tableau.{is_basic};
ghost use Rattle.spec_simplex.specs.Eliminate.{basis_at};
ghost use Rattle.spec_mps.specs.declared.style.Style.TheVariants as style;
ghost use Rattle.spec_mps.specs.Written as text;
ghost use Rattle.spec_bas.specs.Written as written;
ghost use Rattle.spec_bas.specs.Fits.{HasSizeOf};
ghost use Rattle.lp_bas.specs.Words.{pair_word};
ghost use Rattle.lp_bas.specs.Listed.{is_listed};

use lp_base::Bytes;
use lp_form::{Basis, LargeForm, Status};
use lp_model::Model;
use std::alloc::{AllocError, Global};

// Whether column `k` is basic.
fn is_basic(basis: &Basis, k: u32) -> bool
    requires { k < length basis.now }
    ensures { result ≡ is_basic (basis_at basis.now k) }
{
    match basis.at(k as usize) {
        Status::Basic => true,
        Status::AtLower | Status::AtUpper | Status::AtZero => false,
    }
}

// Whether column `k` is at its upper bound.
fn is_at_upper(basis: &Basis, k: u32) -> bool
    requires { k < length basis.now }
    ensures { result ≡ written.is_at_upper (basis_at basis.now k) }
{
    match basis.at(k as usize) {
        Status::AtUpper => true,
        Status::Basic | Status::AtLower | Status::AtZero => false,
    }
}

/// Which columns are listed.
#[derive(Clone, Copy)]
pub(crate) enum Listed {
    Basic,
    AtUpper,
}

// Whether column `k` has the status that `which` asks for: basic, or at its upper bound.
fn is_listed(which: Listed, basis: &Basis, k: u32) -> bool
    requires { k < length basis.now }
    ensures { result ≡ is_listed which (basis_at basis.now k) }
{
    match which {
        Listed::Basic => is_basic(basis, k),
        Listed::AtUpper => is_at_upper(basis, k),
    }
}

// The structural columns that have the status that is listed, in order.
fn columns(
    alloc: Global,
    form: &LargeForm,
    basis: &Basis,
    which: Listed,
) -> Result<Vec<u32>, AllocError>
    requires { length basis.now ≡ form.now.cols + form.now.rows }
    ensures { IfOk result
        (λ found. found.items ≡ written.chosen form.now.cols (λ j. is_listed which (basis_at basis.now j))) }
{
    let mut found = Vec::new(alloc);
    for j in 0..form.cols() {
        if is_listed(which, basis, j) {
            found.push(j)?;
        }
    }
    Ok(found)
}

// The rows whose logical columns are not basic, in order.
fn other_rows(alloc: Global, form: &LargeForm, basis: &Basis) -> Result<Vec<u32>, AllocError>
    requires { length basis.now ≡ form.now.cols + form.now.rows }
    ensures { IfOk result (λ found. found.items ≡ written.other_rows form.now basis.now) }
{
    let mut found = Vec::new(alloc);
    for i in 0..form.rows() {
        if !is_basic(basis, form.logical(i)) {
            found.push(i)?;
        }
    }
    Ok(found)
}

// The word of a card of a column and a row: `XU` where the row is at its upper limit, else `XL`.
fn pair_word(row: Status) -> &'static [u8]
    ensures { result.now ≡ pair_word row }
{
    match row {
        Status::AtUpper => b"XU",
        Status::Basic | Status::AtLower | Status::AtZero => b"XL",
    }
}

// Adds a blank and a word to a text.
fn push_word(word: &[u8], to: &mut Bytes) -> Result<(), AllocError>
    ensures { OnOk result (to.new ≡ to.old ++ 32 ∷ word.now) }
{
    to.push(b' ')?;
    to.extend(word)
}

// Adds the card `NAME`, with the model's name, if it has one.
fn push_name(name: &[u8], to: &mut Bytes) -> Result<(), AllocError>
    ensures { OnOk result (to.new ≡ to.old ++ text.cards_text style.Free (text.name_card name.now ∷ [])) }
{
    to.extend(b"NAME")?;
    if !name.is_empty() {
        push_word(name, to)?;
    }
    to.push(b'\n')
}

// Adds a card of this kind with a column's and a row's name.
fn push_pair(kind: &[u8], column: &[u8], row: &[u8], to: &mut Bytes) -> Result<(), AllocError>
    ensures { OnOk result (to.new ≡ to.old ++ text.cards_text style.Free
        (text.Data (written.pair_fields kind.now column.now row.now) ∷ [])) }
{
    push_word(kind, to)?;
    push_word(column, to)?;
    push_word(row, to)?;
    to.push(b'\n')
}

// Adds the card of a column at its upper bound.
fn push_upper(column: &[u8], to: &mut Bytes) -> Result<(), AllocError>
    ensures { OnOk result (to.new ≡ to.old ++ text.cards_text style.Free
        (text.Data (written.single_fields (codes "UL") column.now) ∷ [])) }
{
    push_word(b"UL", to)?;
    push_word(column, to)?;
    to.push(b'\n')
}

// Adds the card of a basic column `j` and a row `i` whose logical is not basic: `XU` where that is at its upper bound,
// else `XL`.
fn push_pair_of(
    model: &Model,
    form: &LargeForm,
    basis: &Basis,
    j: u32,
    i: u32,
    to: &mut Bytes,
) -> Result<(), AllocError>
    requires sizes { HasSizeOf model.now form.now }
    requires all { length basis.now ≡ form.now.cols + form.now.rows }
    requires column { j < width model.now }
    requires row { i < height model.now }
    ensures { OnOk result (to.new ≡ to.old ++ text.cards_text style.Free
        (written.written_card (written.pair_card model.now form.now basis.now (j, i)) ∷ [])) }
{
    let kind = pair_word(basis.at(form.logical(i) as usize));
    let column = model.col(j).name.as_slice();
    push_pair(kind, column, model.row(i).name.as_slice(), to)
}

// Adds a card for each column and the row at the same place of the other list, as far as both lists go.
fn push_pairs(
    model: &Model,
    form: &LargeForm,
    basis: &Basis,
    columns: &[u32],
    rows: &[u32],
    to: &mut Bytes,
) -> Result<(), AllocError>
    requires sizes { HasSizeOf model.now form.now }
    requires all { length basis.now ≡ form.now.cols + form.now.rows }
    requires columns { All (λ j. j < width model.now) columns.now }
    requires rows { All (λ i. i < height model.now) rows.now }
    ensures { OnOk result (to.new ≡ to.old ++ text.cards_text style.Free
        (map (λ pair. written.written_card (written.pair_card model.now form.now basis.now pair))
        (zip columns.now rows.now))) }
{
    for at in 0..columns.len().min(rows.len()) {
        push_pair_of(model, form, basis, columns[at], rows[at], to)?;
    }
    Ok(())
}

// Adds the cards of these columns, which are at their upper bounds.
fn push_uppers(model: &Model, columns: &[u32], to: &mut Bytes) -> Result<(), AllocError>
    requires { All (λ j. j < width model.now) columns.now }
    ensures { OnOk result (to.new ≡ to.old ++ text.cards_text style.Free
        (map (λ j. written.written_card (written.upper_card model.now j)) columns.now)) }
{
    for j in columns {
        push_upper(model.col(*j).name.as_slice(), to)?;
    }
    Ok(())
}

// Adds all data cards of the basis: first the pairs of a basic column and a row that is not, then the columns at their
// upper bounds.
fn push_cards(
    alloc: Global,
    model: &Model,
    form: &LargeForm,
    basis: &Basis,
    to: &mut Bytes,
) -> Result<(), AllocError>
    requires sizes { HasSizeOf model.now form.now }
    requires all { length basis.now ≡ form.now.cols + form.now.rows }
    ensures { OnOk result (to.new ≡ to.old ++ text.cards_text style.Free
        (map written.written_card (written.cards_of model.now form.now basis.now))) }
{
    let basic = columns(alloc, form, basis, Listed::Basic)?;
    let rows = other_rows(alloc, form, basis)?;
    push_pairs(model, form, basis, &basic, &rows, to)?;
    let upper = columns(alloc, form, basis, Listed::AtUpper)?;
    push_uppers(model, &upper, to)
}

/// The file of a basis: `NAME`, pairs of a basic column and a row that is not, columns at their upper bounds, `ENDATA`.
#[tactic(auto, unfolding(spec_bas::specs::Written::bas_text, spec_bas::specs::Written::written_cards))]
pub fn write(
    alloc: Global,
    model: &Model,
    form: &LargeForm,
    basis: &Basis,
) -> Result<Bytes, AllocError>
    requires sizes { HasSizeOf model.now form.now }
    requires all { length basis.now ≡ form.now.cols + form.now.rows }
    ensures { IfOk result (λ file. file ≡ written.bas_text model.now form.now basis.now) }
{
    let mut file = Bytes::new(alloc);
    push_name(model.name().as_slice(), &mut file)?;
    push_cards(alloc, model, form, basis, &mut file)?;
    file.extend(b"ENDATA\n")?;
    Ok(file)
}
