// Lists of numbers, one after the other in one list.
use std::alloc::{AllocError, Global};

/// A number that is not 0, and its place in its line.
#[derive(Clone, Copy)]
pub struct Entry<T> {
    pub place: usize,
    pub value: T,
}

/// Lines of numbers other than 0, each with its place in its line: rows or columns of a sparse matrix.
pub struct Lines<T: Copy> {
    ends: Vec<usize>,
    entries: Vec<Entry<T>>,
}

impl<T: Copy> Drop for Lines<T> {
    fn drop(self) {
        let Lines { ends, entries } = self;
        drop(ends);
        drop(entries);
    }
}

/// The number at `k`, 0 where there is none.
#[inline(always)]
pub(crate) fn at(list: &[usize], k: usize) -> usize {
    match list.get(k) {
        Some(number) => *number,
        None => 0,
    }
}

/// Puts a number at `k`, if the list is that long.
#[inline(always)]
pub(crate) fn put(list: &mut [usize], k: usize, number: usize) {
    if let Some(place) = list.get_mut(k) {
        *place = number;
    }
}

impl<T: Copy> Lines<T> {
    /// No lines.
    pub fn new(alloc: Global) -> Self {
        Lines {
            ends: Vec::new(alloc),
            entries: Vec::new(alloc),
        }
    }

    /// How many lines there are.
    pub fn len(&self) -> usize {
        self.ends.len()
    }

    /// How many numbers there are in all.
    pub fn size(&self) -> usize {
        self.entries.len()
    }

    /// Puts a number into the line that is not ended.
    pub fn put(&mut self, place: usize, value: T) -> Result<(), AllocError> {
        self.entries.push(Entry { place, value })?;
        Ok(())
    }

    /// Ends the line to which numbers were added.
    pub fn end(&mut self) -> Result<(), AllocError> {
        self.ends.push(self.entries.len())?;
        Ok(())
    }

    // The index of the first number of line `k` among all numbers.
    #[inline(always)]
    fn start(&self, k: usize) -> usize {
        if k == 0 { 0 } else { at(&self.ends, k - 1) }
    }

    /// The numbers of line `k`, with their places; none where there is no such line.
    #[inline(always)]
    pub fn line(&self, k: usize) -> &[Entry<T>] {
        match self.entries.get(self.start(k)..at(&self.ends, k)) {
            Some(line) => line,
            None => &[],
        }
    }
}

// How many numbers of all lines stand at each place.
fn counts<T: Copy>(
    alloc: Global,
    lines: &Lines<T>,
    places: usize,
) -> Result<Vec<usize>, AllocError> {
    let mut list = Vec::from_elem(alloc, 0usize, places)?;
    for entry in &lines.entries {
        let more = at(&list, entry.place).wrapping_add(1);
        put(&mut list, entry.place, more);
    }
    Ok(list)
}

// Replaces the count of each place by the sum of the counts before it, which is where the place's line begins.
fn begin(counts: &mut [usize]) {
    let mut next = 0usize;
    for count in counts.iter_mut() {
        let first = next;
        next = next.wrapping_add(*count);
        *count = first;
    }
}

// Writes the numbers of one line, with its name, behind the earlier numbers of the lines that their places name.
fn spread<T: Copy>(line: &[Entry<T>], name: usize, ends: &mut [usize], entries: &mut [Entry<T>]) {
    for entry in line {
        let end = at(ends, entry.place);
        if let Some(slot) = entries.get_mut(end) {
            *slot = Entry {
                place: name,
                value: entry.value,
            };
        }
        put(ends, entry.place, end.wrapping_add(1));
    }
}

/// The numbers from 0 to `len - 1`: the names of so many lines that are named as they stand.
pub fn numbered(alloc: Global, len: usize) -> Result<Vec<usize>, AllocError> {
    let mut list = Vec::with_capacity(alloc, len)?;
    for k in 0..len {
        list.push(k)?;
    }
    Ok(list)
}

/// The transposed lines, one for each of so many places: a number at a place of line `k` stands in the place's line,
/// under the name of line `k`. The zero fills the list before the numbers are put in.
pub fn turned<T: Copy>(
    alloc: Global,
    lines: &Lines<T>,
    names: &[usize],
    places: usize,
    zero: T,
) -> Result<Lines<T>, AllocError> {
    let mut ends = counts(alloc, lines, places)?;
    begin(&mut ends);
    let nothing = Entry {
        place: 0,
        value: zero,
    };
    let mut entries = Vec::from_elem(alloc, nothing, lines.entries.len())?;
    for k in 0..lines.len() {
        spread(lines.line(k), at(names, k), &mut ends, &mut entries);
    }
    Ok(Lines { ends, entries })
}
