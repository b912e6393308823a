// The words in which a basis, and the shape of its form, are passed on.

/// The words of a basis (`packed`): those of its form's shape, and then 24 words with the status of each column. Which
/// words have a basis says `IsWellFormed` of specs/Words; docs/FORMATS.md has their bits.
pub type BasisWords = [u64; 49];

/// The words of a form's shape (`shape_of`): one with the numbers of rows and columns, and 24 words with the bounds
/// that each column has. docs/FORMATS.md has their bits.
pub type ShapeWords = [u64; 25];
