// Texts of numbers past 127 bits.
use crate::lifted_bases::is_value;
use lp_numtext::{WideFault, read_wide};
use std::alloc::Global;

// Whether a text is read as a number whose text is `wanted`.
fn is_written(alloc: Global, text: &[u8], wanted: &str) -> bool {
    match read_wide(alloc, text) {
        Ok(value) => is_value(alloc, &value, wanted),
        Err(_) => false,
    }
}

// Numbers past 127 bits in each spelling, and their texts in lowest terms.
static NUMBERS: [(&[u8], &str); 5] = [
    (
        b"-3092265124392067986218766778593727636212645132006/10307550414640226620729222595312425454042150440020",
        "-0.3",
    ),
    (
        b"+7000000000000000000000000000000000000000000000000000000000000/21",
        "1000000000000000000000000000000000000000000000000000000000000/3",
    ),
    (b"12.5e40", "125000000000000000000000000000000000000000"),
    (b"-15D-41", "-3/20000000000000000000000000000000000000000"),
    (b"0e99999", "0"),
];

// Why a text is not read as a number; none if it is read.
fn fault_of(alloc: Global, text: &[u8]) -> Option<WideFault> {
    match read_wide(alloc, text) {
        Ok(_) => None,
        Err(fault) => Some(fault),
    }
}

// Numbers past 127 bits are read in each spelling, and written in lowest terms. Texts that are no number, or a power of
// ten too far away, are refused.
#[test]
fn wide_numbers(rt: HostRuntime) {
    let alloc = rt.alloc();
    for (text, wanted) in &NUMBERS {
        assert!(rt; is_written(alloc, text, wanted));
    }
    assert!(rt; matches!(fault_of(alloc, b"1e16384"), None));
    assert!(rt; matches!(fault_of(alloc, b"10e16384"), Some(WideFault::Far)));
    assert!(rt; matches!(fault_of(alloc, b"1e-16385"), Some(WideFault::Far)));
    assert!(rt; matches!(fault_of(alloc, b"1/0"), Some(WideFault::Shape)));
    assert!(rt; matches!(fault_of(alloc, b"1x"), Some(WideFault::Shape)));
}
