// What a reader of texts answers at a line.

/// What a line is answered by a reader of texts, each of which spells a `T` or is wrong at a line by an `E`.
#[derive(Drop)]
pub enum Feed<T, E> {
    /// The text continues.
    More,
    /// It has ended, and spells this.
    Done(T),
    /// It spells nothing, by this line.
    Refused(E),
    NoMemory,
}
