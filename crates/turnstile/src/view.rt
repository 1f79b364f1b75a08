//! What a seat at the table knows. These types are for the proofs alone: of [`Terms`] one value is
//! made, and of the others none.
use std::collections::LinkedList;
use std::snapshot::Snapshot;

/// What one pass knows.
pub struct Known<E> {
    pub number: u64,
    pub seen: LinkedList<E>,
    pub mark: u64,
    pub turns: u64,
    pub drawn: u64,
}

/// The passes that the seat stands for, what it was told, its ticket, the object as it was taken, and
/// the terms of the table.
pub struct View<O, E, F> {
    pub passes: LinkedList<Known<E>>,
    pub told: LinkedList<E>,
    pub told_mark: u64,
    pub ticket: Option<u64>,
    pub taken: Option<O>,
    pub terms: Option<Terms<F>>,
}

/// What the table is told when it is made: the number of passes, what turns are counted from, and the
/// object's fixed part.
#[derive(Drop)]
pub struct Terms<F> {
    pub count: u64,
    pub start: u64,
    pub fixed: F,
}

/// What the table is told when it is made, and the object as it came.
#[derive(Drop)]
pub struct Opening<O, F> {
    pub terms: Terms<F>,
    pub object: Snapshot<O>,
}
