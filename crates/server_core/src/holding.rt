//! Guests who wait to be told.
ghost use Rattle.std.specs.Prelude.{◌≡◌, [], Some};
ghost use Rattle.session_core.specs.Gains.{Watches};
ghost use Rattle.server_core.specs.Sessions.{IsOf};

use crate::guest::Guest;
use crate::instance::Instance;
use crate::leaving::rest;
use crate::outcome::Behind;
use crate::room::{Room, Speech};
use crate::service::Service;
use desk_core::{Desk, Pass};
use door_core::{Log, Ready};
use journal_core::Keeper;
use std::alloc::Global;
use std::sync::Wait;
use std::time::Clock;

// How often a worker looks for others who are ready, before he has those told who wait for it.
const MOST_LOOKS: u32 = 64;

/// A guest who waits to be told what was gathered for him.
#[derive(Drop)]
struct Held<K: Keeper + Drop, I: Instance<K>> {
    behind: Behind<K, I>,
    gathered: Vec<u8>,
}

/// The guests who wait to be told, until all is durable that the worker's pass has seen. Meanwhile he answers
/// others, so that one sync serves them too.
#[derive(Drop)]
pub(crate) struct Holding<K: Keeper + Drop, I: Instance<K>> {
    held: Vec<Held<K, I>>,
    looks: u32,
}

impl<K: Keeper + Drop, I: Instance<K>> Holding<K, I> {
    /// Nobody waits.
    pub(crate) fn new(alloc: Global) -> Holding<K, I> {
        Holding {
            held: Vec::new(alloc),
            looks: 0,
        }
    }

    pub(crate) fn is_empty(&self) -> bool {
        self.held.is_empty()
    }

    /// Who is ready. While guests wait to be told it does not wait for others, and looks for them only so
    /// often, and where no other worker would take them.
    pub(crate) fn ready(&mut self, service: &Service<'_, K, I>) -> Ready {
        if self.held.is_empty() {
            self.looks = 0;
            return service.idle.while_waiting(service.entrance);
        }
        if self.looks >= MOST_LOOKS || service.idle.is_any() {
            return Ready::Nothing;
        }
        self.looks += 1;
        service.entrance.ready()
    }

    /// Has a guest wait to be told what was gathered for him. Without memory for that he is told at once,
    /// and given back where he may have sent more.
    pub(crate) fn hold<R: Wait + Clock, G: Log>(
        &mut self,
        rt: &R,
        alloc: Global,
        desk: &Desk<K>,
        pass: &mut Pass<K>,
        behind: Behind<K, I>,
        speech: &mut Speech,
        service: &Service<'_, K, I>,
        log: &G,
    ) -> Option<Guest<K, I>>
        requires desk { I.desk ≡ Some desk.now }
        requires pass { IsOf desk.now pass.old }
        ensures watched { Watches pass.old pass.new }
        ensures handed_on { speech.new.output.items ≡ [] }
    {
        let mut gathered = Vec::new(alloc);
        if gathered
            .extend_from_slice(speech.output.as_slice())
            .is_err()
        {
            return behind.tell(rt, desk, pass, speech, service, log);
        }
        match self.held.push(Held { behind, gathered }) {
            Ok(()) => {
                speech.output.clear();
                None
            }
            Err(refused) => {
                let Held { behind, .. } = refused.value;
                behind.tell(rt, desk, pass, speech, service, log)
            }
        }
    }

    /// Tells all who wait for it, behind one sync.
    pub(crate) fn tell_all<R: Wait + Clock, G: Log>(
        &mut self,
        rt: &R,
        desk: &Desk<K>,
        pass: &mut Pass<K>,
        room: &mut Room,
        service: &Service<'_, K, I>,
        log: &G,
    )
        requires desk { I.desk ≡ Some desk.now }
        requires pass { IsOf desk.now pass.old }
        requires nothing { room.old ≡ [] }
        ensures watched { Watches pass.old pass.new }
        ensures handed_on { room.new ≡ [] }
    {
        if self.held.is_empty() {
            return;
        }
        let synced = service.syncing.sync_seen(rt, desk, pass).ok();
        while let Some(held) = self.held.pop() {
            let Held {
                behind,
                mut gathered,
            } = held;
            let behind = behind.hand_on(synced.as_ref(), &mut gathered, service);
            drop(gathered);
            let speech = &mut room.speech;
            if let Some(guest) = behind.conclude(rt, desk, pass, speech, service, log) {
                rest(rt, guest, service, log);
            }
        }
    }
}
