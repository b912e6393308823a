// What a number of a card belongs to.

/// The objective, or a row by its number.
#[derive(Clone, Copy)]
pub enum Target {
    Objective,
    Row(u32),
}
