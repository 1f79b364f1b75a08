//! Why something was not done to a server's folder.

/// Why something was not done to a server's folder.
#[derive(Clone, Copy, Debug, PartialEq, Eq)]
pub enum TendFault {
    /// It may not be done yet.
    Early,
    /// The folder could not do it.
    Broken,
}
