//! A thread that serves sessions.
ghost use Rattle.std.specs.Prelude.{◌≡◌, ◌+◌, ◌⊎◌, ◌<◌, [], Some};
ghost use Rattle.server_core.specs.Sessions.{IsOf, Attended};

use crate::attending::attend;
use crate::holding::Holding;
use crate::instance::Instance;
use crate::letting_in::{take_in, turn_away, unmet};
use crate::room::Room;
use crate::service::Service;
use desk_core::{Desk, Pass};
use door_core::{Door, Log, Ready};
use journal_core::Keeper;
use std::alloc::Global;
use std::marker::Model;
use std::sync::ledger::{Ledger, Share};
use std::sync::{Mutex, Wait};
use std::time::Clock;

/// Who serves sessions: his pass of the desk, the token that counts the sessions which he was admitted,
/// and room for what he answers. Contracts see the pass, and how many sessions it counts.
#[derive(Drop)]
pub struct Worker<K: Keeper + Drop, L: Ledger> {
    pass: Pass<K>,
    token: Share<L>,
    room: Room,
}

impl<K: Keeper + Drop, L: Ledger> Model for Worker<K, L> {
    ghost use Rattle.std.specs.Prelude.{◌≡◌, []};
    ghost use Rattle.server_core.specs.Sessions.{Working};

    ghost Value = { Working K };

    ghost view = { λ w. record { pass = w.pass; sessions = w.token.amount } };

    ghost invariant = { λ w. (w.token.parts ≡ 1) × (w.room ≡ []) };
}

impl<K: Keeper + Drop, L: Ledger> Worker<K, L> {
    /// One who has served nobody.
    pub fn new(pass: Pass<K>, token: Share<L>, room: Room) -> Worker<K, L>
        requires part { token.parts ≡ 1 }
        requires nobody { token.amount ≡ 0 }
        requires nothing { room ≡ [] }
        ensures { result ≡ record { pass = pass; sessions = 0 } }
    {
        Worker { pass, token, room }
    }

    /// His pass and his token, which has one part.
    pub fn into_parts(self) -> (Pass<K>, Share<L>)
        ensures pass { result.0 ≡ self.pass }
        ensures amount { result.1.amount ≡ self.sessions }
        ensures parts { result.1.parts ≡ 1 }
    {
        let Worker {
            pass,
            token,
            room: _,
        } = self;
        (pass, token)
    }
}

/// Lets in who is at the door, if anybody is. The worker is admitted one session more then. Where as many
/// sessions are open as there may be, he is turned away.
fn open_door<K: Keeper + Drop, L: Ledger, I: Instance<K>, R: Wait + Clock, G: Log>(
    rt: &R,
    alloc: Global,
    service: &Service<'_, K, I>,
    door: &Mutex<Door<L>>,
    token: &mut Share<L>,
    log: &G,
)
    requires by { I.by ≡ service.now.entrance.now }
    requires part { 0 < token.old.parts }
    ensures amount { (token.new.amount ≡ token.old.amount)
        ⊎ (token.new.amount ≡ token.old.amount + 1) }
    ensures parts { token.new.parts ≡ token.old.parts }
{
    let mut opened = door.lock(rt);
    if service.is_full() {
        let came = opened.turn_away(service.entrance);
        drop(opened);
        return turn_away(rt, service, came, log);
    }
    let admitted = opened.admit(rt, service.entrance, token);
    if admitted.is_ok() {
        service.sessions.begin();
    }
    if opened.is_closed() {
        service.close();
    }
    drop(opened);
    match admitted {
        Ok(arrival) => {
            service.entrance.ask_again();
            take_in(rt, alloc, arrival, service, log);
        }
        Err(why) => unmet(service, why),
    }
}

/// Goes on with sessions through the worker's pass, and lets clients in, until none is open and none is
/// taken any more. Nothing else is done through the pass, and the worker counts just the sessions that he
/// was admitted. Any worker goes on with any session: what it has seen his pass meets. The permits of the
/// service say how many sessions run at once, and its counters what they do.
pub fn work<K: Keeper + Drop, L: Ledger, I: Instance<K>, R: Wait + Clock, G: Log>(
    rt: &R,
    alloc: Global,
    desk: &Desk<K>,
    worker: Worker<K, L>,
    service: &Service<'_, K, I>,
    door: &Mutex<Door<L>>,
    log: &G,
) -> Worker<K, L>
    requires desk { I.desk ≡ Some desk.now }
    requires by { I.by ≡ service.now.entrance.now }
    requires pass { IsOf desk.now worker.pass }
    ensures { Attended I.Session.protocol service.now.entrance.now desk.now worker result }
{
    let Worker {
        mut pass,
        mut token,
        mut room,
    } = worker;
    let mut holding = Holding::new(alloc);
    for _ in rt.forever() {
        if holding.is_empty() && service.is_done() {
            break;
        }
        match holding.ready(service) {
            Ready::Door => open_door(rt, alloc, service, door, &mut token, log),
            Ready::Session(number) => {
                let Some(guest) = service.sessions.take(rt, number) else {
                    continue;
                };
                let (pass, room) = (&mut pass, &mut room);
                attend(
                    rt,
                    alloc,
                    desk,
                    pass,
                    guest,
                    room,
                    &mut holding,
                    service,
                    log,
                );
            }
            Ready::Nothing => {
                holding.tell_all(rt, desk, &mut pass, &mut room, service, log);
            }
        }
    }
    service.go();
    Worker { pass, token, room }
}
