//! Values bound to the places of a statement, as PostgreSQL's messages Parse and Bind say them.
//!
//! A client prepares a statement whose text has places, `$1` to `$99`, and sends values for these
//! later: bytes in a text format or a binary one, each of the type that its place has. [`bind`]
//! makes the line of the language that has the value of each in its place, and so tells exactly
//! which line that is or why there is none.
//!
//! - The type of a place is the one that the client told, or else that of the column for which the
//!   place stands. [`place_types`] finds these: the text is filled with two numbers in each place
//!   and read twice, and a place stands where the two statements differ. [`wanted_types`] puts the
//!   types that were told before those, and [`told_numbers`] gives the number of each place in
//!   PostgreSQL's catalogue, as its client told it.
//! - [`bind`] reads each value by its type and format, and fills the text with all of them.
//! - [`result_formats`] gives the formats of a result's columns, of which a table has at most 32, by
//!   codes as those of the values.
//!
//! ```text
//! // Parse, of a text that is filled with 1, 2 and so on, and again with 101, 102 and so on
//! fill(&mut line, text, place_numbers(alloc, 1, count)?.as_slice())?;
//! let ones = read_with(alloc, &mut tokens, line.as_slice())?;
//! let guessed = place_types(alloc, &columns, &ones, &others, count)?;
//! let types = wanted_types(alloc, &parse.types, guessed.as_slice())?;
//! // Bind
//! let line = bind(alloc, text, types.as_slice(), &bind.formats, &bind.values)?;
//! // INSERT INTO t VALUES ($1, $2) with 5 and it's:  INSERT INTO t VALUES ( 5 ,  'it''s' )
//! ```
//!
//! The one contract is that of [`bind`]: `Binds` of `specs/Binding.antt`, which stands on
//! `specs/Formats.antt`, `specs/Parameters.antt` and what `parameters_core` says of filled texts.
//! There is one such line, or a fault ([`laws::one_binding`], [`laws::binding_or_fault`]). Whatever
//! bytes a client sends, a value is one literal in the line, and what stands around it is the same
//! for all values ([`laws::values_are_literals`], [`laws::other_values_change_only_literals`]).
//!
//! `specs/Standing.antt` says where a place stands by the two statements. There its value stands,
//! with whatever values the text is filled ([`laws::places_have_their_values`]), and each place
//! stands somewhere ([`laws::places_stand_somewhere`]). `specs/Telling.antt` has the types that a
//! client tells.
//!
//! [`place_types`] goes over the literals of a statement, of which there are at most 64, once for
//! each place, and over the columns of the table for the one that it finds. [`bind`] goes over the
//! text twice, and for each of at most 99 values over the codes before its own. The types, the
//! values and the line take memory; [`result_formats`] takes none.
#![tactic(auto)]

mod binding;
mod fault;
mod formats;
pub mod laws;
mod literals;
mod parameters;
mod standing;
mod telling;

pub use binding::bind;
pub use fault::{BindFault, TypeFault};
pub use formats::result_formats;
pub use standing::{place_numbers, place_types};
pub use telling::{told_numbers, wanted_types};
