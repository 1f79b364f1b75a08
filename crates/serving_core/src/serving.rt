//! A server, from its first session to its last.
ghost use Rattle.std.specs.Prelude.{◌≡◌, ◌+◌, ◌<◌, ◌≤◌, length, All, false, IfOk, OnOk};
ghost use Rattle.turnstile.specs.Closed.{AreAll};
ghost use Rattle.desk_core.specs.Guarded.{origin_of, origin_at};
ghost use Rattle.desk_core.specs.Kept.{HasKept};
ghost use Rattle.desk_core.specs.Turns.{Ended};
ghost use Rattle.server_core.specs.Sessions.{IsOf, IsOfInstance, IsNew, AreServers, Leaves};
ghost use Rattle.load_core.specs.Ready.{IsReady};
ghost use Rattle.serving_core.specs.Promises.{AreNew};
ghost use Rattle.serving_core.specs.Protocols.{SpeaksServed};

use crate::dealing::{gathered, workers_of};
use crate::own_passes::OwnPasses;
use crate::threads::serve_all;
use base_core::Moment;
use desk_core::{Desk, Pass};
use door_core::{Door, Entrance, Log, Manners, ServeFault, SharedLog, Taken};
use either_core::EitherSession;
use journal_core::{Keeper, Syncs};
use server_core::{AtSite, Control, Service, Site};
use session_core::{Parked, SessionMachine, Tender};
use std::alloc::Global;
use std::io::Write;
use std::marker::Brand;
use std::mem::forget;
use std::snapshot::Snapshot;
use std::sync::atomic::AtomicBool;
use std::sync::ledger::{Blank, Ledger, Share};
use std::sync::{Mutex, Wait};
use std::thread;
use std::thread::Threads;
use std::time::Clock;
use system_core::System;
use wire_core::WireSession;

/// How many processors the threads may use: one, where that is not known.
fn processors<R: Threads>(rt: &R) -> usize {
    match thread::available_parallelism(rt) {
        Ok(count) => count.get(),
        Err(_) => 1,
    }
}

/// Serves sessions through these passes, and gives them back with those of the server's own threads behind
/// them, and all of the token.
fn serve_dealt<K, L, S, M, Y, T, R, G, C>(
    rt: &R,
    alloc: Global,
    desk: &Desk<K>,
    begun: &Snapshot<System>,
    passes: Vec<Pass<K>>,
    own: OwnPasses<K>,
    rest: Share<L>,
    service: &Service<'_, K, AtSite<S, M, Y>>,
    door: &Mutex<Door<L>>,
    tender: &T,
    log: &G,
    control: &C,
) -> Result<(Vec<Pass<K>>, Share<L>), ServeFault>
where
    K: Keeper + Drop + Send,
    L: Ledger + Send + Sync,
    S: Site<K> + Send + Sync,
    M: SessionMachine<K> + Send,
    Y: Syncs<K> + Send + Sync,
    T: Tender<K> + Sync,
    R: Threads + Wait + Clock + Sync,
    G: Log + Sync,
    C: Control,
    requires instance { IsOfInstance S.desk S.by desk.now service.now.entrance.now }
    requires new { All (IsNew begun.now.value.journal desk.now) passes.items }
    requires own { AreNew begun.now.value.journal desk.now own }
    requires begins { T.may_begin tender.now begun.now.value.journal (origin_of desk.now) }
    requires parts { (rest.parts ≡ L.parts) × (L.parts ≡ length passes.items + 1) }
    requires nothing { rest.amount ≡ 0 }
    ensures servers { IfOk result
        (λ b. AreServers M.protocol service.now.entrance.now begun.now.value.journal desk.now
        b.1.amount b.0.items) }
    ensures parts { IfOk result (λ b. b.1.parts ≡ L.parts) }
{
    let workers = passes.len();
    let stop = AtomicBool::new(false);
    let mut rest = rest;
    let dealt = workers_of(alloc, desk, begun, passes, &mut rest)?;
    let (back, own) = serve_all(
        rt, alloc, desk, begun, dealt, own, service, door, tender, log, control, &stop,
    )?;
    if back.len() != workers {
        return Err(ServeFault::NoMemory);
    }
    let entrance = service.entrance;
    Ok(gathered::<K, L, M>(alloc, desk, entrance, begun, back, own, rest)?)
}

/// Serves so many sessions of the entrance through these passes, of which the last two are the tender's and
/// the checkpointer's, and gives their number and the passes.
fn serve_through<K, L, S, M, Y, T, R, G, C>(
    rt: &R,
    alloc: Global,
    blank: Blank,
    desk: &Desk<K>,
    begun: &Snapshot<System>,
    passes: Vec<Pass<K>>,
    workers: usize,
    entrance: &Entrance,
    sessions: u64,
    syncer: Y,
    tender: &T,
    manners: Manners,
    moment: Moment,
    log: &G,
    control: &C,
) -> Result<(Taken, Vec<Pass<K>>), ServeFault>
where
    K: Keeper + Drop + Send,
    L: Ledger + Send + Sync,
    S: Site<K> + Send + Sync,
    M: SessionMachine<K> + Send,
    Y: Syncs<K> + Send + Sync,
    T: Tender<K> + Sync,
    R: Threads + Wait + Clock + Sync,
    G: Log + Sync,
    C: Control,
    requires instance { IsOfInstance S.desk S.by desk.now entrance.now }
    requires name { blank.name ≡ L.name }
    requires parts { (blank.parts ≡ L.parts) × (L.parts ≡ workers + 1) }
    requires new { All (IsNew begun.now.value.journal desk.now) passes.items }
    requires begins { T.may_begin tender.now begun.now.value.journal (origin_of desk.now) }
    requires passes { length passes.items ≡ workers + 2 }
    ensures count { IfOk result (λ b. b.0.stopped ≡ false → b.0.sessions ≡ sessions) }
    ensures servers { IfOk result
        (λ b. AreServers M.protocol entrance.now begun.now.value.journal desk.now b.0.sessions
        b.1.items) }
{
    let mut passes = passes;
    let Some(checkpointer) = passes.pop() else {
        return Err(ServeFault::NoMemory);
    };
    let Some(tenders) = passes.pop() else {
        return Err(ServeFault::NoMemory);
    };
    let own = OwnPasses {
        tender: tenders,
        checkpointer,
    };
    let machines = processors(rt);
    let service = Service::<K, AtSite<S, M, Y>>::new(
        alloc, entrance, machines, syncer, manners, moment,
    )?;
    let (book, rest) = blank.open::<L>();
    let door = Mutex::new(Door::new(sessions, book));
    let served = serve_dealt(
        rt, alloc, desk, begun, passes, own, rest, &service, &door, tender, log, control,
    );
    // (each destructor is called once, where it would be unrolled at each exit)
    drop(service);
    let door = door.into_inner();
    match served {
        Ok((passes, all)) => match door.served(sessions, all) {
            Ok(taken) => Ok((taken, passes)),
            Err(fault) => Err(fault),
        },
        Err(fault) => {
            drop(door);
            Err(fault)
        }
    }
}

/// What a server leaves: how many sessions it served, and whether it was stopped; the core, and the
/// keeper of its changes.
#[derive(Drop)]
pub struct Served<K> {
    pub taken: Taken,
    pub system: System,
    pub keeper: K,
}

/// What so many sessions left, where these are all passes of the desk: they are what the threads
/// gave back.
fn close<K: Keeper + Drop>(
    desk: Desk<K>,
    passes: Vec<Pass<K>>,
    taken: Taken,
) -> Result<Served<K>, ServeFault>
    requires { All (IsOf desk) passes.items }
    ensures all { OnOk result (AreAll desk passes.items) }
    ensures count { IfOk result (λ served. served.taken ≡ taken) }
    ensures ended { IfOk result (λ served. Ended desk passes.items served.system) }
    ensures kept { IfOk result (λ served. HasKept K.Keeper (origin_of desk)
        served.system.journal served.keeper) }
{
    match desk.close(passes) {
        Ok((system, keeper)) => Ok(Served {
            taken,
            system,
            keeper,
        }),
        Err(left) => {
            forget(left);
            Err(ServeFault::NoMemory)
        }
    }
}

/// As [`serve_on`], with a blank token of one part for each thread.
fn serve_sessions<K, L, M, Y, T, R, G, C>(
    rt: &R,
    alloc: Global,
    blank: Blank,
    entrance: &Entrance,
    workers: usize,
    sessions: u64,
    system: System,
    keeper: K,
    syncer: Y,
    tender: &T,
    manners: Manners,
    log: &G,
    control: &C,
) -> Result<Served<K>, ServeFault>
where
    K: Keeper + Drop + Send,
    L: Ledger + Send + Sync,
    M: SessionMachine<K> + Send,
    Y: Syncs<K> + Send + Sync,
    T: Tender<K> + Sync,
    R: Threads + Wait + Clock + Sync,
    G: Log + Sync,
    C: Control,
    requires name { blank.name ≡ L.name }
    requires parts { (blank.parts ≡ L.parts) × (L.parts ≡ workers + 1) }
    requires workers { (0 < workers) × (workers ≤ 16) }
    requires ready { IsReady system }
    requires settled { K.owing keeper ≡ false }
    requires begins { T.may_begin tender.now system.journal (origin_at system keeper) }
    ensures count { IfOk result
        (λ served. served.taken.stopped ≡ false → served.taken.sessions ≡ sessions) }
    ensures leaves { IfOk result
        (λ served. Leaves M.protocol entrance.now workers served.taken.sessions keeper system
        served.system) }
    ensures kept { IfOk result (λ served. HasKept K.Keeper (origin_at system keeper)
        served.system.journal served.keeper) }
{
    let begun = Snapshot::of(&system);
    let moment = system.moment();
    let (desk, passes) = Desk::build(alloc, system, keeper, workers + 2)?;
    match serve_through::<K, L, Brand, M, Y, T, R, G, C>(
        rt, alloc, blank, &desk, &begun, passes, workers, entrance, sessions, syncer, tender,
        manners, moment, log, control,
    ) {
        Ok((taken, passes)) => close(desk, passes, taken),
        Err(fault) => {
            // The process ends soon, and its memory goes back as a whole.
            forget(desk);
            Err(fault)
        }
    }
}

/// Serves so many sessions that come in at the entrance, by so many threads, from 1 to 16, beside
/// one that takes the steps of checkpoints, of so many records as the core's chunk says, and one by which
/// the tender tends what is kept of changes. Where
/// clients have to log in, a session is one that was proved to be its user's. They begin with this
/// core, and the keeper keeps each change before its reply is written; where the syncer is asked for it,
/// what a client is told is durable before it is sent. Behind the last session that
/// is wanted the entrance is closed, so that further clients are refused. Then it closes the desk,
/// and answers the number of sessions, and the core and the keeper that they left. Where the
/// control says that it is to stop, it takes no further session, those that run answer the lines
/// that they were sent, and it ends likewise.
///
/// Each session that ends with a fault is told on `err`, as `session fault: read`, or `write`,
/// `bound`, `journal`, `no memory`. By the manners a session whose client sends nothing for so long
/// ends with `read`, and one whose client takes nothing for so long with `write`. Where they have a
/// log, a fault is told as `session 3 fault: read`, and of an idle client as `idle, sent nothing`
/// or `idle, took nothing`; and each session is told on `err` as it begins and ends, with its
/// number from 1, its user, its client's address, the lines behind the first, and the moment of its
/// last reply that bore one. Where they have denials, each that is denied is told, with its
/// session's number and its user. A fault of `err` itself is forgotten.
///
/// `Accept` where a listener is gone: no further session is taken, and those that run are ended by
/// their clients. Of any other fault of accepting a session nothing is told, and it is tried again.
/// A session whose change could not be kept ends with a fault, and the server goes on: what is owed
/// of that change is tried again before the next is entered, and once more at the end. Where a sync failed,
/// nobody is told anything any more, and each session that would be ends with `journal`. `NoMemory`
/// where a request for memory was refused or a thread could not be started, before the first
/// session or behind the last.
pub fn serve_on<K, Y, T, R, W, C>(
    rt: &R,
    alloc: Global,
    entrance: &Entrance,
    workers: usize,
    sessions: u64,
    system: System,
    keeper: K,
    syncer: Y,
    tender: &T,
    manners: Manners,
    err: &mut W,
    control: &C,
) -> Result<Served<K>, ServeFault>
where
    K: Keeper + Drop + Send,
    Y: Syncs<K> + Send + Sync,
    T: Tender<K> + Sync,
    R: Threads + Wait + Clock + Sync,
    W: Write + Send,
    C: Control,
    requires workers { (0 < workers) × (workers ≤ 16) }
    requires ready { IsReady system }
    requires settled { K.owing keeper ≡ false }
    requires begins { T.may_begin tender.now system.journal (origin_at system keeper) }
    ensures count { IfOk result
        (λ served. served.taken.stopped ≡ false → served.taken.sessions ≡ sessions) }
    ensures leaves { IfOk result
        (λ served. Leaves SpeaksServed entrance.now workers served.taken.sessions keeper system
        served.system) }
    ensures kept { IfOk result (λ served. HasKept K.Keeper (origin_at system keeper)
        served.system.journal served.keeper) }
{
    let log = SharedLog {
        alloc,
        writer: Mutex::new(err),
        sessions: manners.log,
        denials: manners.denials,
        times: manners.times,
    };
    let blank = Blank::new(workers as u64 + 1);
    serve_sessions::<
        K,
        Brand,
        EitherSession<K, Parked<K>, WireSession<K>>,
        Y,
        T,
        R,
        SharedLog<'_, W>,
        C,
    >(
        rt, alloc, blank, entrance, workers, sessions, system, keeper, syncer, tender, manners,
        &log, control,
    )
}
