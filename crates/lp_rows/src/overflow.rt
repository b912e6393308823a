// A number overflows the width of the words.

// Functions answer so where they may also find nothing.
#[derive(Clone, Copy)]
pub(crate) struct Overflow;
