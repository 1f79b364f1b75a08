//! What a replay leaves, or why it leaves nothing.

use crate::fault::Undone;
use std::marker::Model;
use system_core::System;

/// A line that was left out, and why.
#[derive(Drop)]
pub struct LeftOut {
    /// From 1.
    pub number: u64,
    pub why: Undone,
}

/// A last line without a line feed: its number, from 1, and its front, of at most 4,130 bytes.
/// Contracts see the number and the bytes.
#[derive(Drop)]
pub struct CutFront {
    pub number: u64,
    pub front: Vec<u8>,
}

impl Model for CutFront {
    ghost use Rattle.load_core.specs.Replaying.{DroppedLine};

    ghost Value = { DroppedLine };

    ghost view = { λ c. record { number = c.number; front = c.front.items } };
}

/// What an input leaves, and what became of its lines. Contracts see the world, the numbers, and
/// what was left out and dropped.
#[derive(Drop)]
pub struct Replayed {
    pub system: System,
    /// Of the m-th change that the input made at m - 1: the number of its line, from 1.
    pub lines: Vec<u64>,
    /// How many lines were left out.
    pub left_out: u64,
    pub first_left_out: Option<LeftOut>,
    /// The cut line that was dropped.
    pub dropped: Option<CutFront>,
}

impl Model for Replayed {
    ghost use Rattle.load_core.specs.Replaying.{ReplayedState};

    ghost Value = { ReplayedState };

    ghost view = { λ r. record {
      world = r.system;
      numbers = r.lines.items;
      left_out = r.left_out;
      first_left_out = r.first_left_out;
      dropped = r.dropped;
    } };
}

/// Why an input could not be replayed.
#[derive(Drop)]
pub enum ReplayFault {
    /// The reader failed.
    Read,
    /// 2^32 bytes were read, and the end had not come.
    Bound,
    /// There was no memory for what has to be there before the first read.
    NoMemory,
    /// At the line of this number, from 1, memory ran out, or it is a journal's and too long.
    Line { number: u64, why: Undone },
    /// The last line, of this number from 1, has no line feed: this is its front, of at most 4,130
    /// bytes.
    CutOff { number: u64, front: Vec<u8> },
}
