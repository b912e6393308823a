// Lines.

/// A line of an input, or what stands in its place at the end; `B` is the type that keeps a line's bytes.
#[derive(Drop)]
pub enum Line<B> {
    /// The bytes of a line, without what ends it.
    Text(B),
    /// A line that is too long to be kept, by its length.
    Long(u64),
    /// No line is left.
    End,
    /// The input is longer than may be read, and the next line does not end in what may be read.
    Over,
}
