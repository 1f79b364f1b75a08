//! The sessions that wait for their clients.

use crate::guest::Guest;
use crate::instance::Instance;
use crate::sign::Sign;
use base_core::NoMemory;
use door_core::{Entrance, Readiness};
use journal_core::Keeper;
use slab::Slab;
use std::alloc::Global;
use std::sync::atomic::{AtomicU64, Ordering};
use std::sync::{Mutex, Wait};
use std::time::Instant;

// Locks that workers seldom meet at.
const SHARDS: usize = 16;

/// The sessions that wait for their clients, and how many there are in all, with those that a worker goes
/// on with.
#[derive(Drop)]
pub(crate) struct Sessions<K: Keeper + Drop, I: Instance<K>> {
    shards: Vec<Mutex<Slab<Guest<K, I>>>>,
    open: AtomicU64,
}

/// Where a session waits: in which shard, and under which key.
fn place_of(number: u64) -> (usize, usize) {
    let shard = number as usize % SHARDS;
    (shard, number as usize / SHARDS)
}

fn number_of(shard: usize, key: usize) -> u64 {
    (key.saturating_mul(SHARDS).saturating_add(shard)) as u64
}

/// Ends what each of these is sent, or its whole connection.
fn shut_each<K: Keeper + Drop, I: Instance<K>>(guests: &Slab<Guest<K, I>>, how: i32) {
    for (_, guest) in guests.iter() {
        let _ = libc::net::shutdown(guest.connection.descriptor(), how);
    }
}

/// Has each of these go on whose time is over. Whether anybody's time runs.
fn watch_each<K: Keeper + Drop, I: Instance<K>>(
    guests: &Slab<Guest<K, I>>,
    readiness: &Readiness,
    shard: usize,
    now: Instant,
) -> bool {
    let mut is_timed = false;
    for (key, guest) in guests.iter() {
        is_timed |= guest.watch_time(readiness, number_of(shard, key), now);
    }
    is_timed
}

/// Has the session wait for its client among these, of this shard. Whether there was memory for it, and
/// the system can.
fn insert_among<K: Keeper + Drop, I: Instance<K>>(
    guests: &mut Slab<Guest<K, I>>,
    readiness: &Readiness,
    shard: usize,
    guest: Guest<K, I>,
) -> bool {
    let descriptor = guest.connection.descriptor();
    let (interest, is_known) = (guest.interest(), guest.connection.is_known);
    let mut guest = guest;
    guest.connection.is_known = true;
    let Ok(key) = guests.insert(guest) else {
        return false;
    };
    let number = number_of(shard, key);
    let is_waited_for = if is_known {
        readiness.again(descriptor, interest, number)
    } else {
        readiness.add(descriptor, interest, number)
    };
    if !is_waited_for {
        let _ = guests.try_remove(key);
    }
    is_waited_for
}

impl<K: Keeper + Drop, I: Instance<K>> Sessions<K, I> {
    /// None waits. `NoMemory` where a request for memory was refused.
    pub(crate) fn new(alloc: Global) -> Result<Sessions<K, I>, NoMemory> {
        let mut shards = Vec::with_capacity(alloc, SHARDS)?;
        for _ in 0..SHARDS {
            shards.push(Mutex::new(Slab::new(alloc)))?;
        }
        Ok(Sessions {
            shards,
            open: AtomicU64::new(0),
        })
    }

    /// How many there are.
    pub(crate) fn open(&self) -> u64 {
        self.open.load(Ordering::SeqCst)
    }

    /// One more has come.
    pub(crate) fn begin(&self) {
        self.open.fetch_add(1, Ordering::SeqCst);
    }

    /// One has gone. How many are left.
    pub(crate) fn end(&self) -> u64 {
        self.open.fetch_sub(1, Ordering::SeqCst).saturating_sub(1)
    }

    /// The session under this number, if one waits there.
    pub(crate) fn take<R: Wait>(&self, rt: &R, number: u64) -> Option<Guest<K, I>> {
        let (shard, key) = place_of(number);
        self.shards.get(shard)?.lock(rt).try_remove(key)
    }

    /// Has the session wait for its client, who is heard no further where it is stopped. Whether there was
    /// memory for it, and the system can.
    fn insert<R: Wait>(
        &self,
        rt: &R,
        readiness: &Readiness,
        sign: &Sign,
        guest: Guest<K, I>,
    ) -> bool {
        let descriptor = guest.connection.descriptor();
        let shard = usize::try_from(descriptor).unwrap_or(0) % SHARDS;
        let Some(slab) = self.shards.get(shard) else {
            return false;
        };
        let mut guests = slab.lock(rt);
        let is_waited_for = insert_among(&mut guests, readiness, shard, guest);
        // Whoever stops the server later comes by here.
        if is_waited_for && let Some(how) = sign.shut() {
            let _ = libc::net::shutdown(descriptor, how);
        }
        is_waited_for
    }

    /// Has the session wait for its client, for as long as its time goes. Whether it does.
    pub(crate) fn park<R: Wait>(
        &self,
        rt: &R,
        entrance: &Entrance,
        sign: &Sign,
        guest: Guest<K, I>,
    ) -> bool {
        let is_timed = guest.connection.until.is_some();
        let is_parked = self.insert(rt, entrance.readiness(), sign, guest);
        if is_timed && is_parked {
            entrance.alarm().need();
        }
        is_parked
    }

    /// Ends what each session that waits is sent, or its whole connection.
    pub(crate) fn shut_all<R: Wait>(&self, rt: &R, how: i32) {
        for slab in self.shards.iter() {
            shut_each(&slab.lock(rt), how);
        }
    }

    /// Has each session go on whose time is over. Whether anybody's time runs.
    pub(crate) fn watch_time<R: Wait>(&self, rt: &R, readiness: &Readiness, now: Instant) -> bool {
        let mut is_timed = false;
        for (shard, slab) in self.shards.iter().enumerate() {
            is_timed |= watch_each(&slab.lock(rt), readiness, shard, now);
        }
        is_timed
    }
}
