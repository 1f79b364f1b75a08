//! Who looks on at the checkpointer and the tender.

use crate::bell::Bell;
use crate::counters::Counters;
use base_core::{Gate, User};
use session_core::Witness;
use std::cell::Cell;
use std::sync::Wait;
use std::time::Clock;
use system_core::Reply;

/// One who has the checkpointer rest until the bell is rung, and counts how often it looked. For a checkpoint that
/// the tender has begun he rings it.
#[derive(Drop)]
pub struct Lookout<'a, R> {
    rt: &'a R,
    bell: &'a Bell,
    counters: &'a Counters,
    // How often the bell was rung when the checkpointer rested last.
    rings: Cell<u64>,
}

impl<'a, R> Lookout<'a, R> {
    pub fn new(rt: &'a R, bell: &'a Bell, counters: &'a Counters) -> Lookout<'a, R> {
        Lookout {
            rt,
            bell,
            counters,
            rings: Cell::new(0),
        }
    }
}

impl<'a, R: Wait> Gate for Lookout<'a, R> {
    fn before_record(&self, _given: u64) {}

    fn before_step(&self, _left: u64) {}
}

impl<'a, R: Wait> Witness for Lookout<'a, R> {
    fn replied(&self, _user: &User, reply: &Reply) {
        match reply {
            Reply::Begun { .. } => self.bell.ring(),
            _ => {}
        }
    }

    fn rest<T: Clock>(&self, _clock: &T) {
        self.counters.looked();
        self.rings.set(self.bell.wait(self.rt, self.rings.get()));
    }
}
