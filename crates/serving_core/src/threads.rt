//! The threads of a server.
ghost use Rattle.std.specs.Prelude.{◌≡◌, All, IfOk};
ghost use Rattle.std.specs.Thread.{IsSend, IsSync};
ghost use Rattle.desk_core.specs.Guarded.{origin_of};
ghost use Rattle.server_core.specs.Sessions.{IsOfInstance, IsNew, IsNewWorker, IsWorkers, IsTenders, IsCheckpointers};
ghost use Rattle.serving_core.specs.Promises.{IsOfServer, AreNew, AreOwn};

use crate::own_passes::OwnPasses;
use desk_core::{Desk, Pass};
use door_core::{Door, Entrance, Log, ServeFault};
use journal_core::{Keeper, Syncs};
use server_core::{AtSite, Control, Instance, Lookout, Service, Site, Worker, watch, work};
use session_core::{SessionMachine, Tender, checkpointer};
use std::alloc::Global;
use std::marker::PhantomData;
use std::snapshot::Snapshot;
use std::sync::atomic::{AtomicBool, Ordering};
use std::sync::ledger::Ledger;
use std::sync::{Mutex, Wait};
use std::thread;
use std::thread::{Promise, PromisedHandle, Threads};
use std::time::Clock;
use system_core::System;

/// The promise of a thread that sessions of this machine's protocol were served through its pass, as
/// many as its token counts, and nothing else was done.
#[derive_where(Clone, Copy)]
pub struct Works<'a, K: Keeper + Drop, M: SessionMachine<K>>(
    &'a Desk<K>,
    &'a Snapshot<System>,
    &'a Entrance,
    PhantomData<M>,
);

impl<'a, K: Keeper + Drop, L: Ledger, M: SessionMachine<K>> Promise<Worker<K, L>>
    for Works<'a, K, M> {
    ghost kept_by = { λ p worker. IsWorkers M.protocol p.2.now p.1.now.value.journal p.0.now
        worker };
}

/// The promise of a thread that its pass looked after checkpoints, and nothing else was done.
#[derive_where(Clone, Copy)]
struct LooksAfter<'a, K: Keeper + Drop>(&'a Desk<K>, &'a Snapshot<System>);

impl<'a, K: Keeper + Drop> Promise<Pass<K>> for LooksAfter<'a, K> {
    ghost kept_by = { λ p pass. IsCheckpointers p.1.now.value.journal p.0.now pass };
}

/// The promise of a thread that what is kept of changes was tended through its pass, and nothing else was
/// done.
#[derive_where(Clone, Copy)]
struct TendsKept<'a, K: Keeper + Drop>(&'a Desk<K>, &'a Snapshot<System>);

impl<'a, K: Keeper + Drop> Promise<Pass<K>> for TendsKept<'a, K> {
    ghost kept_by = { λ p pass. IsTenders p.1.now.value.journal p.0.now pass };
}

/// What is to be handed to threads: the workers, and the passes of the server's own. A type of its own, since
/// a closure that owns a vector as it is takes minutes to prove.
#[derive(Drop)]
struct Dealt<K: Keeper + Drop, L: Ledger> {
    workers: Vec<Worker<K, L>>,
    own: OwnPasses<K>,
}

/// Takes the steps of checkpoints until it is told to stop.
fn check<K: Keeper + Drop, I: Instance<K>, R: Wait + Clock>(
    rt: &R,
    desk: &Desk<K>,
    begun: &Snapshot<System>,
    pass: Pass<K>,
    service: &Service<'_, K, I>,
    stop: &AtomicBool,
) -> Pass<K>
    requires { IsNew begun.now.value.journal desk.now pass }
    ensures { IsCheckpointers begun.now.value.journal desk.now result }
{
    let mut pass = pass;
    let lookout = Lookout::new(rt, &service.bell, &service.counters);
    // Where a change could not be kept, or all turns are drawn, each session is told too.
    let _ = checkpointer(rt, desk, &mut pass, &lookout, stop);
    pass
}

/// Tends what is kept of changes until it is told to stop.
fn tend<K: Keeper + Drop, I: Instance<K>, T: Tender<K>, R: Wait + Clock>(
    rt: &R,
    alloc: Global,
    desk: &Desk<K>,
    begun: &Snapshot<System>,
    pass: Pass<K>,
    service: &Service<'_, K, I>,
    tender: &T,
    stop: &AtomicBool,
) -> Pass<K>
    requires new { IsNew begun.now.value.journal desk.now pass }
    requires begins { T.may_begin tender.now begun.now.value.journal (origin_of desk.now) }
    ensures { IsTenders begun.now.value.journal desk.now result }
{
    let mut pass = pass;
    let lookout = Lookout::new(rt, &service.bell, &service.counters);
    tender.tend(rt, alloc, desk, &mut pass, &lookout, stop);
    pass
}

/// Tells the server's own threads to stop.
fn call_off<K: Keeper + Drop, I: Instance<K>, T: Tender<K>>(
    service: &Service<'_, K, I>,
    tender: &T,
    stop: &AtomicBool,
) {
    stop.store(true, Ordering::SeqCst);
    service.bell.ring();
    tender.wake();
}

/// Serves sessions until all are taken, or no further one is.
fn attend<K: Keeper + Drop, L: Ledger, I: Instance<K>, R: Wait + Clock, G: Log>(
    rt: &R,
    alloc: Global,
    desk: &Desk<K>,
    begun: &Snapshot<System>,
    worker: Worker<K, L>,
    service: &Service<'_, K, I>,
    door: &Mutex<Door<L>>,
    log: &G,
) -> Worker<K, L>
    requires instance { IsOfInstance I.desk I.by desk.now service.now.entrance.now }
    requires new { IsNewWorker begun.now.value.journal desk.now worker }
    ensures { IsWorkers I.Session.protocol service.now.entrance.now begun.now.value.journal desk.now
        result }
{
    work(rt, alloc, desk, worker, service, door, log)
}

// Keeps a thread. There is room for it.
fn keep<'a, K: Keeper + Drop, L: Ledger, M: SessionMachine<K>>(
    desk: &'a Desk<K>,
    begun: &'a Snapshot<System>,
    entrance: &'a Entrance,
    threads: &mut Vec<PromisedHandle<Worker<K, L>, Works<'a, K, M>>>,
    thread: PromisedHandle<Worker<K, L>, Works<'a, K, M>>,
)
    requires all { All (λ w. IsOfServer desk.now begun.now entrance.now w.promise)
        threads.old.items }
    requires one { IsOfServer desk.now begun.now entrance.now thread.promise }
    ensures { All (λ w. IsOfServer desk.now begun.now entrance.now w.promise)
        threads.new.items }
{
    let _ = threads.push(thread);
}

/// Waits for each of the threads, and gives the workers that come back.
fn join_all<'a, K: Keeper + Drop, L: Ledger, M: SessionMachine<K>, R: Threads>(
    rt: &R,
    desk: &'a Desk<K>,
    begun: &'a Snapshot<System>,
    entrance: &'a Entrance,
    threads: Vec<PromisedHandle<Worker<K, L>, Works<'a, K, M>>>,
) -> Result<Vec<Worker<K, L>>, ServeFault>
    requires { All (λ w. IsOfServer desk.now begun.now entrance.now w.promise) threads.items }
    ensures { IfOk result
        (λ v. All (IsWorkers M.protocol entrance.now begun.now.value.journal desk.now)
        v.items) }
{
    match thread::join_promised(rt, threads) {
        Ok(workers) => Ok(workers),
        Err(_) => Err(ServeFault::NoMemory),
    }
}

/// Runs all threads to their end, and gives the workers back, and the passes of the server's own. Where a
/// worker could not be started, he is missing, and the door is shut.
pub fn serve_all<K, L, S, M, Y, T, R, G, C>(
    rt: &R,
    alloc: Global,
    desk: &Desk<K>,
    begun: &Snapshot<System>,
    workers: Vec<Worker<K, L>>,
    own: OwnPasses<K>,
    service: &Service<'_, K, AtSite<S, M, Y>>,
    door: &Mutex<Door<L>>,
    tender: &T,
    log: &G,
    control: &C,
    stop: &AtomicBool,
) -> Result<(Vec<Worker<K, L>>, OwnPasses<K>), ServeFault>
where
    K: Keeper + Drop + Send,
    L: Ledger + Send + Sync,
    S: Site<K> + Send + Sync,
    M: SessionMachine<K> + Send,
    Y: Syncs<K> + Send + Sync,
    T: Tender<K> + Sync,
    R: Threads + Wait + Clock + Sync,
    G: Log + Sync,
    C: Control,
    requires instance { IsOfInstance S.desk S.by desk.now service.now.entrance.now }
    requires workers { All (IsNewWorker begun.now.value.journal desk.now) workers.items }
    requires own { AreNew begun.now.value.journal desk.now own }
    requires begins { T.may_begin tender.now begun.now.value.journal (origin_of desk.now) }
    ensures workers { IfOk result
        (λ b. All (IsWorkers M.protocol service.now.entrance.now begun.now.value.journal desk.now)
        b.0.items) }
    ensures own { IfOk result (λ b. AreOwn begun.now.value.journal desk.now b.1) }
{
    let dealt = Dealt { workers, own };
    thread::scope(
        thread::scope_env(),
        rt,
        move |scope| -> Result<(Vec<Worker<K, L>>, OwnPasses<K>), ServeFault>
            requires crosses { IsSend K.row × IsSync R.row × IsSync G.row × IsSend S.row
                × IsSend M.row × IsSend Y.row × IsSync Y.row × IsSync T.row }
            requires instance { IsOfInstance S.desk S.by desk.now service.now.entrance.now }
            requires workers { All (IsNewWorker begun.now.value.journal desk.now)
                dealt.workers.items }
            requires own { AreNew begun.now.value.journal desk.now dealt.own }
            requires begins { T.may_begin tender.now begun.now.value.journal
                (origin_of desk.now) }
            ensures workers { IfOk result
                (λ b. All (IsWorkers M.protocol service.entry.now.entrance.now
                begun.entry.now.value.journal desk.entry.now) b.0.items) }
            ensures own { IfOk result
                (λ b. AreOwn begun.entry.now.value.journal desk.entry.now b.1) }
        {
            let Dealt { workers, own } = dealt;
            let OwnPasses {
                tender: tending,
                checkpointer: checking,
            } = own;
            let Ok(mut threads) = Vec::with_capacity(alloc, workers.len()) else {
                return Err(ServeFault::NoMemory);
            };
            let Ok(checks) = scope.spawn_with(
                LooksAfter(desk, begun),
                move || -> Pass<K>
                    requires { IsNew begun.now.value.journal desk.now checking }
                    ensures { IsCheckpointers begun.entry.now.value.journal desk.entry.now result }
                { check(rt, desk, begun, checking, service, stop) },
            ) else {
                return Err(ServeFault::NoMemory);
            };
            let Ok(tends) = scope.spawn_with(
                TendsKept(desk, begun),
                move || -> Pass<K>
                    requires new { IsNew begun.now.value.journal desk.now tending }
                    requires begins { T.may_begin tender.now begun.now.value.journal
                        (origin_of desk.now) }
                    ensures { IsTenders begun.entry.now.value.journal desk.entry.now result }
                { tend(rt, alloc, desk, begun, tending, service, tender, stop) },
            ) else {
                call_off(service, tender, stop);
                return Err(ServeFault::NoMemory);
            };
            // Nobody takes a session until all threads have started.
            let mut closed = door.lock(rt);
            for worker in workers {
                match scope.spawn_with(
                    Works::<K, M>(desk, begun, service.entrance, PhantomData),
                    move || -> Worker<K, L>
                        requires instance { IsOfInstance S.desk S.by desk.now
                            service.now.entrance.now }
                        requires new { IsNewWorker begun.now.value.journal desk.now worker }
                        ensures { IsWorkers M.protocol service.entry.now.entrance.now
                            begun.entry.now.value.journal desk.entry.now result }
                    { attend(rt, alloc, desk, begun, worker, service, door, log) },
                ) {
                    Ok(thread) => keep(desk, begun, service.entrance, &mut threads, thread),
                    Err(_) => closed.shut(ServeFault::NoMemory),
                }
            }
            drop(closed);
            watch(rt, desk, service, door, threads.len() as u64, control);
            let back = join_all(rt, desk, begun, service.entrance, threads);
            call_off(service, tender, stop);
            let checkpointer = checks.join(rt);
            let tender = tends.join(rt);
            Ok((
                back?,
                OwnPasses {
                    tender,
                    checkpointer,
                },
            ))
        },
    )
}
