// The two forms of texts.

/// How the fields of a line are separated.
#[derive(Clone, Copy)]
pub enum Style {
    /// By spaces and tabs.
    Free,
    /// By columns.
    Fixed,
}
