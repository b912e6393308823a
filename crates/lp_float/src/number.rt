// Numbers and indices of lists, with 0 where there is none.
use lp_sparse::Entry;

/// The number at `k`, 0 where there is none.
#[inline(always)]
pub(crate) fn at(list: &[f64], k: usize) -> f64 {
    match list.get(k) {
        Some(number) => *number,
        None => 0.0,
    }
}

/// Sets the number at `k`, if the list is that long.
#[inline(always)]
pub(crate) fn put(list: &mut [f64], k: usize, number: f64) {
    if let Some(place) = list.get_mut(k) {
        *place = number;
    }
}

/// Adds `more` to the number at `k`, if the list is that long.
#[inline(always)]
pub(crate) fn add_at(list: &mut [f64], k: usize, more: f64) {
    if let Some(place) = list.get_mut(k) {
        *place += more;
    }
}

/// The index at `k`, 0 where there is none.
#[inline(always)]
pub(crate) fn index_at(list: &[usize], k: usize) -> usize {
    match list.get(k) {
        Some(index) => *index,
        None => 0,
    }
}

/// The flag at `k`; true where there is none.
#[inline(always)]
pub(crate) fn flag_at(list: &[bool], k: usize) -> bool {
    match list.get(k) {
        Some(flag) => *flag,
        None => true,
    }
}

/// Sets the index at `k`, if the list is that long.
#[inline(always)]
pub(crate) fn put_index(list: &mut [usize], k: usize, index: usize) {
    if let Some(place) = list.get_mut(k) {
        *place = index;
    }
}

/// Sets all numbers of a list to one number.
pub(crate) fn fill(list: &mut [f64], with: f64) {
    for number in list.iter_mut() {
        *number = with;
    }
}

/// Copies the numbers of one list to another, as many as both have.
pub(crate) fn copy(list: &mut [f64], from: &[f64]) {
    for (number, other) in list.iter_mut().zip(from) {
        *number = *other;
    }
}

/// The sum of the numbers of a sparse line, each times the list's number at its place.
#[inline(always)]
pub(crate) fn product(list: &[f64], line: &[Entry<f64>]) -> f64 {
    let mut sum = 0.0;
    for entry in line {
        sum += entry.value * at(list, entry.place);
    }
    sum
}

/// The greatest absolute value in a list; 0 for an empty one.
pub(crate) fn greatest(list: &[f64]) -> f64 {
    let mut most = 0.0;
    for number in list {
        most = number.abs().max(most);
    }
    most
}

/// A number that looks random, from 0 up to below 1, by the seed.
pub(crate) fn mixed(seed: u64) -> f64 {
    let mut bits = seed.wrapping_add(0x9e37_79b9_7f4a_7c15);
    bits = (bits ^ (bits >> 30)).wrapping_mul(0xbf58_476d_1ce4_e5b9);
    bits = (bits ^ (bits >> 27)).wrapping_mul(0x94d0_49bb_1331_11eb);
    let high = ((bits >> 40) & 0xffff) as u16;
    f64::from(high) / 65536.0
}
