// Rows or columns by how many numbers they have.
use crate::lines::{at, put};
use std::alloc::{AllocError, Global};

// No row or column.
const NONE: usize = usize::MAX;

/// Lists of rows or columns, one for each count, linked both ways.
pub(crate) struct Buckets {
    firsts: Vec<usize>,
    nexts: Vec<usize>,
    previous: Vec<usize>,
    counts: Vec<usize>,
}

impl Drop for Buckets {
    fn drop(self) {
        let Buckets {
            firsts,
            nexts,
            previous,
            counts,
        } = self;
        drop(firsts);
        drop(nexts);
        drop(previous);
        drop(counts);
    }
}

impl Buckets {
    /// Lists of rows or columns by their counts, of which none has one yet.
    pub(crate) fn new(alloc: Global) -> Self {
        Buckets {
            firsts: Vec::new(alloc),
            nexts: Vec::new(alloc),
            previous: Vec::new(alloc),
            counts: Vec::new(alloc),
        }
    }

    /// Makes room for so many rows or columns, whose counts are at most `most`.
    pub(crate) fn lengthen(&mut self, len: usize, most: usize) -> Result<(), AllocError> {
        self.firsts.resize(most.saturating_add(1), NONE)?;
        self.nexts.resize(len, NONE)?;
        self.previous.resize(len, NONE)?;
        self.counts.resize(len, NONE)?;
        Ok(())
    }

    /// The first row or column with this count; none if no one has it.
    pub(crate) fn first(&self, count: usize) -> Option<usize> {
        some(self.firsts.get(count))
    }

    /// The row or column after `k` in its list; none if `k` is the last.
    pub(crate) fn after(&self, k: usize) -> Option<usize> {
        some(self.nexts.get(k))
    }

    /// Whether row or column `k`, which is one of those that there is room for, is in the list of any count.
    #[inline(always)]
    pub(crate) fn has(&self, k: usize) -> bool {
        at(&self.counts, k) != NONE
    }

    /// The count of row or column `k`, which is in the list of that count.
    #[inline(always)]
    pub(crate) fn count(&self, k: usize) -> usize {
        at(&self.counts, k)
    }

    /// Adds a row or column that is in no list to the list of this count.
    pub(crate) fn insert(&mut self, k: usize, count: usize) {
        let next = match self.firsts.get(count) {
            Some(first) => *first,
            None => NONE,
        };
        put(&mut self.nexts, k, next);
        put(&mut self.previous, k, NONE);
        put(&mut self.previous, next, k);
        put(&mut self.firsts, count, k);
        put(&mut self.counts, k, count);
    }

    /// Takes `k` out of the list that it is in.
    pub(crate) fn remove(&mut self, k: usize) {
        let next = at(&self.nexts, k);
        let before = at(&self.previous, k);
        put(&mut self.previous, next, before);
        if before == NONE {
            let count = at(&self.counts, k);
            put(&mut self.firsts, count, next);
        } else {
            put(&mut self.nexts, before, next);
        }
        put(&mut self.counts, k, NONE);
    }

    /// Moves one that is in a list to that of another count.
    pub(crate) fn move_to(&mut self, k: usize, count: usize) {
        self.remove(k);
        self.insert(k, count);
    }
}

// The row or column at the end of a link; none where the link is `NONE` or absent.
fn some(place: Option<&usize>) -> Option<usize> {
    match place {
        Some(k) if *k != NONE => Some(*k),
        Some(_) | None => None,
    }
}
