//! The core: the journal of accepted changes, the tables and rights that it makes, and the
//! checkpoints of them.
//!
//! A [`System`] stands for a world: its journal; how many checkpoints were begun, those that are
//! kept, each by its number and its point, and the active one with the number of its records that
//! are left; its chunk (the number of records in a step of the checkpointer) and its limits. The
//! tables, the rights (owners, and grants in force) and what a checkpoint has are not part of it,
//! since they follow from the journal: the rights are those that a replay of its changes leaves,
//! without the revoked grants and options and all that could not have been made without them, and a
//! checkpoint has the tables and the rights of the journal as it was at its point. A moment is the
//! number of accepted changes so far, and entry m of the journal, counted from 1, made moment m.
//! Every entry was allowed at the journal before it.
//!
//! [`System::step`] is the one contract: it is a step of the machine from the world that the system
//! stands for to the one after. [`System::change`] is the same step of an allowed change, without a
//! reply. A user's statement is judged at the journal, by the monitor's
//! [`judge`](monitor_core::judge), and then by the checkpoints. What is allowed is carried out, and
//! a change is entered; else the first lack is the answer, as a denial or a refusal, and the world
//! stays. A lack bears the moment, or, of what was missing at a checkpoint, its point. Out of
//! memory is a refusal too, and changes nothing; it never stands in place of a lack (a law of
//! [`laws`]).
//!
//! GRANT and REVOKE name lists, which are carried out whole or not at all: the lack is that of the
//! first atom in the order written (of UPDATE without columns, of every column in table order), and
//! of both forms of REVOKE for each atom that of the first user. [`System::changes`] gives the
//! journal as changes of rights, and [`System::audit`] replays it and compares.
//!
//! CHECKPOINT begins a checkpoint, at most one at a time, and the events [`Step`](Event::Step) and
//! [`Abandon`](Event::Abandon) carry it on or give it up. It takes no memory, so it is never
//! refused any. The last eight that were finished are kept. EXPORT answers a ticket, which tells of
//! each table of a kept checkpoint what the user may select, then and now.
//!
//! The event [`Describe`](Event::Describe) is about a statement that is not carried out. It tells the
//! denial that the statement would get, or which columns its answer would have: those of the table of
//! which it reads or changes rows. They stay right for good, since no statement alters a table.
//!
//! ```text
//! let mut system = System::new(alloc, 16)?;
//! system.step(Event::Say { pass: 0, user: ann, statement });  // Done { at: Moment(1) }
//! ```
//!
//! # Mechanism
//!
//! A `Ledger` has the journal, the tables and the rights; the system has it beside the active
//! capture and the catalogue of the images that are kept. A change first makes room for its entry
//! in the journal, then changes the tables or the rights, which are as before if memory runs out,
//! and then enters it. So at no point is a change half done. CREATE TABLE sets the owner before it
//! makes the table. Where the table then finds no memory, the owner of a name that is no table is
//! left; no verdict reads it, and the next creation of that name sets another.
//!
//! CHECKPOINT notes that a capture begins, and copies nothing: tables and rights keep what changes
//! from then on until the capture's steps have come to it (Copy-on-Update, Cao et al. 2011). What
//! the capture has taken, and what they have still to give, is at each moment the image of the
//! journal at the checkpoint's point: that is the invariant of the system.
//!
//! The ninth image pushes the oldest out, and a capture may be given up half way. To free such an
//! image may take as long as to copy it. So the system keeps it until [`System::take_parting`]
//! hands it out, for whoever asked to let go of behind the turn.
//!
//! Judging goes over privileges, columns and users as they are written, without memory. A list of
//! the atoms that they are is made only to carry them out.
//!
//! # Cost
//!
//! Beside the rights, a CREATE TABLE or an INSERT is constant, amortised, and a SELECT, DELETE or
//! UPDATE goes over the rows of its table once. A question after a right is a look-up of the owner
//! and, of who is not the owner, of the privilege and then of the user among its grants in force,
//! by halves. A REVOKE costs what falls and what loses its option, and an audit replays the whole
//! journal. A CHECKPOINT is constant; a step of the checkpointer copies a chunk of rows and grants,
//! and the columns of the tables that become whole with them. An EXPORT asks two rights of each
//! table and then costs what it writes. A description costs its judgement, and a copy of the columns
//! of a table. The journal keeps each change, the tables each row, the
//! rights each grant in force, and each checkpoint the grants and the places of the rows of its
//! point; a row is shared until it is changed.
#![tactic(auto)]

pub mod laws;
mod machine;

pub use machine::event::{Checkpoint, Entry, Event, Reply};
pub use machine::parting::Parting;
pub use machine::size::Size;
pub use machine::system::System;
