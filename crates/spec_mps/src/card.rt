// Cards, over the type F of lists of fields.

/// What a line of a text of a model is.
#[derive(Drop)]
pub enum Card<F> {
    /// A comment or a blank line.
    Skip,
    /// A line that begins in column 1, with its words.
    Section(F),
    /// Any other line.
    Given(F),
}
