//! Why a file of users is not taken.

/// What is wrong with a line.
#[derive(Clone, Copy, Debug, PartialEq, Eq)]
pub enum WrongLine {
    /// It is not a name, a colon and a verifier.
    NoUser,
    /// A line before it is of the same user.
    Twice,
    /// There are 10,000 lines before it.
    TooMany,
}

/// Why a file of users is not taken.
#[derive(Clone, Copy, Debug, PartialEq, Eq)]
pub enum UsersFault {
    /// The first line that is wrong, counted from 1.
    Line { number: u64, why: WrongLine },
    /// A request for memory was refused.
    NoMemory,
}
