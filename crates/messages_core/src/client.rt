//! Messages that clients send.

use crate::bytes::Bytes;
use crate::lists::{Int16s, Int32s, Values};

/// A statement to be prepared.
#[derive(Drop)]
pub struct Parse<'a> {
    /// Its name: empty for the unnamed one.
    pub name: Bytes<'a>,
    /// Its text.
    pub text: Bytes<'a>,
    /// The types of its first parameters. 0 leaves one open.
    pub types: Int32s<'a>,
}

/// A portal to be made of a prepared statement.
#[derive(Drop)]
pub struct Bind<'a> {
    /// Its name: empty for the unnamed one.
    pub portal: Bytes<'a>,
    /// The name of the statement.
    pub statement: Bytes<'a>,
    /// The formats of the values: none for text, one for all of them, or one for each.
    pub formats: Int16s<'a>,
    /// The values of the parameters.
    pub values: Values<'a>,
    /// The formats of the columns of the result, likewise.
    pub result_formats: Int16s<'a>,
}

/// What a Describe or a Close names.
#[derive(Clone, Copy, Debug, PartialEq, Eq)]
pub enum Target {
    /// A prepared statement.
    Statement,
    /// A portal.
    Portal,
}

/// A message of a client that has begun.
#[derive(Drop)]
pub enum ClientMessage<'a> {
    Bind(Bind<'a>),
    Close {
        target: Target,
        name: Bytes<'a>,
    },
    Describe {
        target: Target,
        name: Bytes<'a>,
    },
    Execute {
        /// The name of the portal.
        portal: Bytes<'a>,
        /// The greatest number of rows. 0 is no limit, and so is a number from 2^31 on, which stands
        /// for a negative one.
        most: u32,
    },
    Flush,
    Parse(Parse<'a>),
    /// What a client says while it logs in: a password, or a message of SASL.
    Password(Bytes<'a>),
    /// The text of statements.
    Query(Bytes<'a>),
    Sync,
    Terminate,
}

/// Why bytes are no message.
#[derive(Clone, Copy, Debug, PartialEq, Eq)]
pub enum MessageFault {
    /// This first byte is that of no type.
    Type(u8),
    /// The length is less than that of itself, or greater than it may be.
    Length,
    /// The body is not what the fields of its type say.
    Body,
}
