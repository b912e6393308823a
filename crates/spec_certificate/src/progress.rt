// The reading of a certificate's text, over the type R of certificates as their texts have them.

/// What a line of a certificate's text leads to.
#[derive(Drop)]
pub enum Progress<R> {
    /// The text continues.
    More(R),
    /// The text ends, and spells this.
    Done(R),
    /// The line does not fit.
    Unfit,
}
