// The names of rows and columns that are kept beside a model to find them. Where there was no memory for the names, or
// one was taken out, there are none, and rows or columns are found by a walk.
ghost use Rattle.std.specs.Prelude.{◌≡◌, ◌≢◌, ◌<◌, ◌++◌, ◌∷◌, [], All, AllPairs, List, ℕ, length, map, IfSome};
ghost use Rattle.std.specs.List.{position};
ghost use Rattle.spec_text.specs.Words.{same};
ghost use Rattle.spec_model.specs.Model.{ExactRow, ExactColumn};

use crate::model::{Column, Row};
use crate::name_index::NameIndex;
use lp_base::are_same;
use std::alloc::Global;

/// The names of the rows, to find rows by them; none where there is no memory for them.
pub(crate) fn names_of_rows(alloc: Global, rows: &[Row]) -> Option<NameIndex>
    requires { AllPairs (λ x y. x ≢ y) (map (λ (r : ExactRow). r.name) rows.now) }
    ensures { IfSome result (λ names. names ≡ map (λ (r : ExactRow). r.name) rows.now) }
{
    let mut names = Some(NameIndex::new(alloc));
    for row in rows {
        names = with_name(names, row.name.as_slice());
    }
    names
}

/// The names of the columns, to find columns by them; none where there is no memory for them.
pub(crate) fn names_of_columns(alloc: Global, columns: &[Column]) -> Option<NameIndex>
    requires { AllPairs (λ x y. x ≢ y) (map (λ (c : ExactColumn). c.name) columns.now) }
    ensures { IfSome result (λ names. names ≡ map (λ (c : ExactColumn). c.name) columns.now) }
{
    let mut names = Some(NameIndex::new(alloc));
    for column in columns {
        names = with_name(names, column.name.as_slice());
    }
    names
}

/// The names with one more at the end; none where there were none, or there is no memory for it.
pub(crate) fn with_name(names: Option<NameIndex>, name: &[u8]) -> Option<NameIndex>
    requires { IfSome names (λ old. All (λ x. x ≢ name.now) old) }
    ensures { (xs : List (List ℕ)) → IfSome names (λ old. old ≡ xs) → IfSome result (λ new. new ≡ xs ++ name.now ∷ []) }
{
    let mut names = names?;
    match names.push(name) {
        Ok(()) => Some(names),
        Err(_) => None,
    }
}

/// The place of the row with this name, counted from 0; none if no row has it. It is found by the kept names where
/// there are some, else by a walk over the rows.
pub(crate) fn row_named(names: &Option<NameIndex>, rows: &[Row], name: &[u8]) -> Option<usize>
    requires { IfSome names.now (λ names. names ≡ map (λ (r : ExactRow). r.name) rows.now) }
    ensures value { result ≡ position (λ r. same r.name name.now) rows.now }
    ensures inside { IfSome result (λ i. i < length rows.now) }
{
    match names {
        Some(names) => names.place_of(name),
        None => rows.iter().position(|r| are_same(r.name.as_slice(), name)),
    }
}

/// The place of the column with this name, counted from 0; none if no column has it. It is found by the kept names
/// where there are some, else by a walk over the columns.
pub(crate) fn column_named(
    names: &Option<NameIndex>,
    columns: &[Column],
    name: &[u8],
) -> Option<usize>
    requires { IfSome names.now (λ names. names ≡ map (λ (c : ExactColumn). c.name) columns.now) }
    ensures value { result ≡ position (λ c. same c.name name.now) columns.now }
    ensures inside { IfSome result (λ j. j < length columns.now) }
{
    match names {
        Some(names) => names.place_of(name),
        None => columns
            .iter()
            .position(|c| are_same(c.name.as_slice(), name)),
    }
}
