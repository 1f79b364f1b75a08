//! The machine: what an event makes of the journal, the tables, the rights and the checkpoints.
//!
//! `ledger` has the accepted changes and what they make, `checkpoints` what is asked of those that
//! are kept, and `system` joins the two: its `step` is a step of the machine.

pub mod atoms;
pub mod carry;
pub mod change;
pub mod checkpoints;
pub mod event;
pub mod ledger;
pub mod parting;
pub mod size;
pub mod system;
