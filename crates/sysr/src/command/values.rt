//! Values that clap would take, and that are refused.

use crate::command::commands::program;
use clap::Error;
use clap::error::ErrorKind;
use std::alloc::{AllocError, Global};
use std::fmt::Display;

fn no_value<V: Display + Drop>(
    alloc: Global,
    value: V,
    of: &str,
    why: &str,
) -> Result<Error, AllocError> {
    let text = format!(in alloc; "invalid value '{value}' for '{of}': {why}")?;
    program(alloc)?.error(ErrorKind::ValueValidation, text.as_str())
}

/// Why a value is refused, as clap says it of others; or that there was no memory to say it.
pub fn refused<V: Display + Drop>(alloc: Global, value: V, of: &str, why: &str) -> Error {
    match no_value(alloc, value, of, why) {
        Ok(error) => error,
        Err(no_memory) => Error::from(no_memory),
    }
}
