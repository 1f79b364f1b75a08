//! What a server counts, for whoever asks how it fares.

use base_core::{Lack, Moment, NoMemory};
use reader_core::Statement;
use std::alloc::Global;
use std::sync::atomic::{AtomicU64, Ordering};
use std::time::Duration;
use system_core::Reply;

/// The kinds of statements, by the words that begin them, in the order in which they are counted.
pub const KINDS: [&str; 11] = [
    "create table",
    "insert",
    "select",
    "delete",
    "update",
    "grant",
    "revoke",
    "revoke grant option",
    "checkpoint",
    "checkpoints",
    "export",
];

// Codes of lacks are below.
const CODES: usize = 32;

/// How many sessions began and ended, how many lines say no statement, how many statements of each kind
/// were read, and how many were denied and refused for each lack, by its code; the last moment that was
/// told, and how long a statement waited for a turn at most. Threads count together. No contract
/// speaks of it.
#[derive(Drop)]
pub struct Counters {
    begun: AtomicU64,
    ended: AtomicU64,
    faults: AtomicU64,
    moment: AtomicU64,
    faulty: AtomicU64,
    longest: AtomicU64,
    looks: AtomicU64,
    statements: Vec<AtomicU64>,
    denied: Vec<AtomicU64>,
    refused: Vec<AtomicU64>,
}

fn kind_of(statement: &Statement) -> usize {
    match statement {
        Statement::CreateTable { .. } => 0,
        Statement::Insert { .. } => 1,
        Statement::Select { .. } => 2,
        Statement::Delete { .. } => 3,
        Statement::Update { .. } => 4,
        Statement::Grant { .. } => 5,
        Statement::Revoke { .. } => 6,
        Statement::RevokeOption { .. } => 7,
        Statement::Checkpoint => 8,
        Statement::Checkpoints => 9,
        Statement::Export { .. } => 10,
    }
}

fn noughts(alloc: Global, count: usize) -> Result<Vec<AtomicU64>, NoMemory> {
    let mut noughts = Vec::with_capacity(alloc, count)?;
    for _ in 0..count {
        noughts.push(AtomicU64::new(0))?;
    }
    Ok(noughts)
}

fn count(counts: &[AtomicU64], place: usize) {
    if let Some(count) = counts.get(place) {
        count.fetch_add(1, Ordering::SeqCst);
    }
}

fn counted(counts: &[AtomicU64], place: usize) -> u64 {
    match counts.get(place) {
        Some(count) => count.load(Ordering::SeqCst),
        None => 0,
    }
}

impl Counters {
    /// Nothing was counted, and the last moment is this one. `NoMemory` where a request for memory was
    /// refused.
    pub fn new(alloc: Global, moment: Moment) -> Result<Counters, NoMemory> {
        Ok(Counters {
            begun: AtomicU64::new(0),
            ended: AtomicU64::new(0),
            faults: AtomicU64::new(0),
            moment: AtomicU64::new(moment.0),
            faulty: AtomicU64::new(0),
            longest: AtomicU64::new(0),
            looks: AtomicU64::new(0),
            statements: noughts(alloc, KINDS.len())?,
            denied: noughts(alloc, CODES)?,
            refused: noughts(alloc, CODES)?,
        })
    }

    pub(crate) fn begin(&self) {
        self.begun.fetch_add(1, Ordering::SeqCst);
    }

    pub(crate) fn end(&self, by_fault: bool) {
        self.ended.fetch_add(1, Ordering::SeqCst);
        if by_fault {
            self.faults.fetch_add(1, Ordering::SeqCst);
        }
    }

    pub(crate) fn said(&self, statement: &Statement) {
        count(&self.statements, kind_of(statement));
    }

    pub(crate) fn faulty(&self) {
        self.faulty.fetch_add(1, Ordering::SeqCst);
    }

    pub(crate) fn unread(&self) {
        count(&self.refused, Lack::NoMemory.code() as usize);
    }

    /// A statement had waited so long for a turn, and taken it. Of two at once the shorter may be noted.
    pub(crate) fn took(&self, time: Duration) {
        let micros = u64::try_from(time.as_micros()).unwrap_or(u64::MAX);
        if micros > self.longest_turn() {
            self.longest.store(micros, Ordering::SeqCst);
        }
    }

    /// The checkpointer has looked, and found no checkpoint active.
    pub(crate) fn looked(&self) {
        self.looks.fetch_add(1, Ordering::SeqCst);
    }

    /// How often it has.
    pub(crate) fn looks(&self) -> u64 {
        self.looks.load(Ordering::SeqCst)
    }

    /// Of two replies that are told at once the earlier may be the last that is noted here.
    pub(crate) fn replied(&self, reply: &Reply) {
        if let Some(Moment(at)) = reply.moment() {
            self.moment.store(at, Ordering::SeqCst);
        }
        match reply {
            Reply::Denied { lack, .. } => count(&self.denied, lack.code() as usize),
            Reply::Refused { lack, .. } => count(&self.refused, lack.code() as usize),
            _ => {}
        }
    }

    /// How many sessions have begun.
    pub fn begun(&self) -> u64 {
        self.begun.load(Ordering::SeqCst)
    }

    /// How many sessions have ended.
    pub fn ended(&self) -> u64 {
        self.ended.load(Ordering::SeqCst)
    }

    /// How many of them have ended by a fault.
    pub fn faults(&self) -> u64 {
        self.faults.load(Ordering::SeqCst)
    }

    /// The last moment that was told.
    pub fn moment(&self) -> u64 {
        self.moment.load(Ordering::SeqCst)
    }

    /// How many lines say no statement.
    pub fn lines_faulty(&self) -> u64 {
        self.faulty.load(Ordering::SeqCst)
    }

    /// For how many microseconds a statement waited for a turn at most, and took it.
    pub fn longest_turn(&self) -> u64 {
        self.longest.load(Ordering::SeqCst)
    }

    /// How many statements of the kind at this place of [`KINDS`] were read.
    pub fn statements(&self, kind: usize) -> u64 {
        counted(&self.statements, kind)
    }

    /// How many statements were denied for lacks of this code.
    pub fn denied(&self, code: usize) -> u64 {
        counted(&self.denied, code)
    }

    /// How many statements were refused for lacks of this code.
    pub fn refused(&self, code: usize) -> u64 {
        counted(&self.refused, code)
    }
}
