//! Messages of PostgreSQL's protocol 3.0: bytes to messages and back, exactly.
//!
//! What came from a client is read by [`read_start`], as long as no session has begun, and then by
//! [`read_message`]. Each is given all bytes that have come and are not yet read, and says what stands
//! first: a whole message with the rest, a part of one, or what is wrong. It waits for nothing, takes no
//! memory and copies nothing: a message is an enum whose texts lie where the bytes do. A body may have
//! at most so many bytes as the call says, so nobody has to keep more than that.
//!
//! ```text
//! match read_message(came, 65_536) {
//!     Reading::Whole { message, rest } => match message {
//!         ClientMessage::Query(text) => ..,          // Q, a length, and a text
//!         ..
//!     },
//!     Reading::Part => ..,                           // ask again when more has come
//!     Reading::Faulty(fault) => ..,                  // no message, whatever may come
//! }
//! ```
//!
//! [`Int16s`], [`Int32s`], [`Values`] and [`Parameters`] are the lists within a message: iterators, of
//! which contracts see the items that are left. [`InitialResponse::read`] reads the body with which a
//! client begins a login by SASL.
//!
//! The one contract is that of the two calls: which bytes spell a message stands in `specs/Client.antt`
//! and `specs/Start.antt`, in the protocol's words, and a reading is what they say of the bytes
//! (`specs/MessageReading.antt`, `specs/StartReading.antt`). There is just one ([`laws`]): what was
//! spelled is read, and a stream is the messages that were sent and no others.
//!
//! What a server sends is written to a [`Sink`](base_core::Sink): by [`write_message`], by [`write_row`]
//! of the values of a row, by [`write_data_row`] of other cells, by [`write_columns`] of the columns of a
//! table, by [`write_row_description`] of others, and by [`write_parameter_description`];
//! [`refuse_encryption`] answers a client that asks for it. They write what spells the message
//! (`specs/Server.antt`, `specs/Rows.antt`, `specs/Columns.antt`), or, where the writer fails, a front of
//! it. They take no memory either, and leave it to the caller to flush.
//!
//! Whether a message may come now, how many values a statement wants, and what a format code means is
//! the session's to say. So is what texts mean: they are bytes, and a server's with a zero byte would
//! end there for a client.
//!
//! # Cost
//!
//! Reading goes once over the texts and the values of a body, once it is whole; what is a part is told
//! from its first five bytes. A list goes over its bytes once more. A row is gone over twice: its length
//! stands before it.
#![tactic(auto)]

mod bodies;
mod bytes;
mod client;
mod columns;
mod fields;
mod frames;
mod kinds;
pub mod laws;
mod lists;
mod message_reading;
mod parameters;
mod reading;
mod rows;
mod sasl;
mod server;
mod start;
mod writing;

pub use bytes::Bytes;
pub use client::{Bind, ClientMessage, MessageFault, Parse, Target};
pub use columns::{format_at, write_columns};
pub use lists::{Int16s, Int32s, Values};
pub use message_reading::read_message;
pub use parameters::Parameters;
pub use reading::Reading;
pub use rows::{
    Cell, ColumnDescription, Format, write_data_row, write_parameter_description, write_row,
    write_row_description,
};
pub use sasl::InitialResponse;
pub use server::{Notice, ServerMessage, Severity, Status, refuse_encryption, write_message};
pub use start::{StartFault, StartMessage, read_start};
