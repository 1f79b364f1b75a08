//! How passes and tokens are dealt to the threads of a server, and gathered again.
ghost use Rattle.std.specs.Prelude.{◌≡◌, ◌+◌, ◌≤◌, length, All, IfOk};
ghost use Rattle.server_core.specs.Sessions.{IsNew, IsNewWorker, IsWorkers, AreServers};
ghost use Rattle.serving_core.specs.Promises.{AreOwn};

use crate::own_passes::OwnPasses;
use base_core::NoMemory;
use desk_core::{Desk, Pass};
use door_core::Entrance;
use journal_core::Keeper;
use server_core::{Room, Worker};
use session_core::SessionMachine;
use std::alloc::Global;
use std::snapshot::Snapshot;
use std::sync::ledger::{Ledger, Share};
use system_core::System;

/// A worker for each pass, with one part of the token, which counts nothing yet. `NoMemory` where a
/// request for memory was refused.
pub fn workers_of<K: Keeper + Drop, L: Ledger>(
    alloc: Global,
    desk: &Desk<K>,
    begun: &Snapshot<System>,
    passes: Vec<Pass<K>>,
    rest: &mut Share<L>,
) -> Result<Vec<Worker<K, L>>, NoMemory>
    requires new { All (IsNew begun.now.value.journal desk.now) passes.items }
    requires parts { length passes.items ≤ rest.old.parts }
    requires nothing { rest.old.amount ≡ 0 }
    ensures idle { IfOk result
        (λ workers. All (IsNewWorker begun.now.value.journal desk.now) workers.items) }
    ensures parts { IfOk result
        (λ workers. rest.new.parts + length passes.items ≡ rest.old.parts) }
    ensures nothing { rest.new.amount ≡ 0 }
{
    let mut workers = Vec::with_capacity(alloc, passes.len())?;
    let mut passes = passes;
    while let Some(pass) = passes.pop() {
        let token = rest.split_off(1, 0);
        workers.push(Worker::new(pass, token, Room::new(alloc)?))?;
    }
    Ok(workers)
}

/// The passes of the workers, with those of the server's own threads behind them, and all of the token: it
/// counts the sessions that they served. `NoMemory` where a request for memory was refused.
pub fn gathered<K: Keeper + Drop, L: Ledger, M: SessionMachine<K>>(
    alloc: Global,
    desk: &Desk<K>,
    entrance: &Entrance,
    begun: &Snapshot<System>,
    workers: Vec<Worker<K, L>>,
    own: OwnPasses<K>,
    rest: Share<L>,
) -> Result<(Vec<Pass<K>>, Share<L>), NoMemory>
    requires workers { All (IsWorkers M.protocol entrance.now begun.now.value.journal desk.now)
        workers.items }
    requires own { AreOwn begun.now.value.journal desk.now own }
    requires nothing { rest.amount ≡ 0 }
    ensures servers { IfOk result
        (λ b. AreServers M.protocol entrance.now begun.now.value.journal desk.now b.1.amount
        b.0.items) }
    ensures parts { IfOk result (λ b. b.1.parts ≡ rest.parts + length workers.items) }
{
    let mut passes = Vec::with_capacity(alloc, workers.len())?;
    let mut all = rest;
    let mut workers = workers;
    while let Some(worker) = workers.pop() {
        let (pass, token) = worker.into_parts();
        all.merge(token);
        passes.push(pass)?;
    }
    let OwnPasses {
        tender,
        checkpointer,
    } = own;
    passes.push(tender)?;
    passes.push(checkpointer)?;
    Ok((passes, all))
}
