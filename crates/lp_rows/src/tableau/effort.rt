// How much a step changes.
use crate::fractions::Row;
use crate::tableau::choice::Step;
use crate::tableau::tableau::RowTableau;
use lp_natural::words::Words;

// Whether the row has an entry in column `j`, so that a step in that column changes it.
fn has_entry<T: Words>(row: &Row<T>, j: usize) -> bool {
    match row.numbers.get(j) {
        Some(entry) => !entry.size.is_zero(),
        None => false,
    }
}

// About how many numbers of a row are not 0. Numbers of one word are changed about as quickly as they are counted, so a
// quarter of all stands for the count there.
fn entry_count<T: Words>(row: &Row<T>) -> usize {
    if T::width() == 64 {
        return row.numbers.len() / 4;
    }
    let mut count: usize = 0;
    for number in &row.numbers {
        if !number.size.is_zero() {
            count = count.saturating_add(1);
        }
    }
    count
}

// About how many numbers are not 0 in the rows that have an entry in column `j`, and in the row of reduced costs.
fn entries_changed<T: Words>(tab: &RowTableau<T>, j: usize) -> usize {
    let mut count = entry_count(&tab.costs);
    for row in &tab.rows {
        if has_entry(row, j) {
            count = count.saturating_add(entry_count(row));
        }
    }
    count
}

/// How much a step changes: about as many numbers as are not 0 in the rows with an entry in its column, and in the
/// reduced costs. Each counts by the square of its words, since it is multiplied. An end changes nothing, which is 0.
/// Nothing is promised of it.
pub fn effort_of<T: Words>(tab: &RowTableau<T>, step: Step) -> u64 {
    let col = match step {
        Step::End(_) => return 0,
        Step::Flip(col) => col,
        Step::Pivot { col, .. } => col,
    };
    let words = (T::width() / 64) as usize;
    let each = words.saturating_mul(words);
    entries_changed(tab, col as usize).saturating_mul(each) as u64
}
