//! The form of an answer.

/// The form of an answer.
#[derive(Clone, Copy, PartialEq, Eq)]
pub enum Format {
    /// For people.
    Text,
    /// Records with commas, under a line that names their fields.
    Csv,
    /// A graph, as the programs of Graphviz read it.
    Dot,
}
