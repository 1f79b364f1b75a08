//! What stands between the items of a list.

/// What stands between two items of a list: a comma, or between conditions AND.
#[derive(Clone, Copy)]
pub enum Separator {
    Comma,
    And,
}
