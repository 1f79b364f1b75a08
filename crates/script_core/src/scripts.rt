//! Scripts: who speaks in a line, what is said of it, and the server that answers a script's lines.

pub mod address;
pub mod answer;
pub mod fault;
pub mod server;
