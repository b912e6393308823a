// Words and shapes of one column and one row.
use lp_form::{same_shape, well_formed};

// Words that spell no basis are not well formed, and shapes with other bounds are not the same.
#[test]
fn other_words_and_shapes_are_told_apart(rt: HostRuntime) {
    let mut words = [0u64; 49];
    words[0] = 65537;
    words[1] = 5;
    words[25] = 4;
    assert!(rt; well_formed(&words));
    // A bit of a column that is not there is set.
    words[48] = 1 << 63;
    assert!(rt; !well_formed(&words));
    words[48] = 0;
    // No column is basic where one has to be, and then a column is at a bound that it does not have.
    words[25] = 5;
    assert!(rt; !well_formed(&words));
    words[25] = 8;
    assert!(rt; !well_formed(&words));
    let mut shape = [0u64; 25];
    shape[0] = 65537;
    shape[1] = 5;
    let mut other = shape;
    assert!(rt; same_shape(&shape, &other));
    // The row has an upper limit in place of a lower one.
    other[1] = 9;
    assert!(rt; !same_shape(&shape, &other));
}
