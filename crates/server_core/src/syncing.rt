//! Nothing is told before it is durable, where that is asked for.
ghost use Rattle.std.specs.Prelude.{◌≡◌, ◌≤◌, ℕ, length, Some, true, false, IfOk, OnOk};
ghost use Rattle.desk_core.specs.Guarded.{DeskLock, origin_of};
ghost use Rattle.session_core.specs.Gains.{Watches};
ghost use Rattle.server_core.specs.Sessions.{IsOf};
ghost use Rattle.server_core.specs.Durable.{IsDurable, HasSynced, MayTell};

use crate::instance::Instance;
use base_core::Broken;
use desk_core::{Desk, Note, Pass};
use journal_core::{Keeper, Syncs};
use lines_core::SessionFault;
use session_core::SessionEnd;
use std::marker::{Model, PhantomData};
use std::sync::atomic::{AtomicBool, Ordering};
use std::sync::{Condvar, Mutex, Wait};

/// What a pass had seen, all of which is durable, where that is asked for: who has this may tell a client of
/// it. Contracts see the entries.
#[derive(Drop)]
pub(crate) struct Synced<K: Keeper + Drop, I: Instance<K>> {
    seen: Note<K>,
    instance: PhantomData<(K, I)>,
    ghost may_tell: { ∥ ((desk : DeskLock K) → I.desk ≡ Some desk
        → MayTell K.Keeper I.Syncer.durable I.Syncer.asks desk seen.seen) ∥₁ },
}

impl<K: Keeper + Drop, I: Instance<K>> Model for Synced<K, I> {
    ghost use Rattle.std.specs.Prelude.{List};
    ghost use Rattle.system_core.specs.declared.machine.event.Entry.{Entry};

    ghost Value = { List Entry };

    ghost view = { λ s. s.seen.seen };
}

/// How far the journal is durable: so many of its entries are, and a pass that gave this note had seen them.
#[derive(Drop)]
struct Progress<K: Keeper + Drop, I: Instance<K>> {
    count: u64,
    seen: Note<K>,
    instance: PhantomData<(K, I)>,
    ghost own: { seen.lock ≡ I.desk },
    ghost synced: { ∥ ((desk : DeskLock K) → I.desk ≡ Some desk
        → HasSynced K.Keeper I.Syncer.durable (origin_of desk) seen.seen count) ∥₁ },
}

impl<K: Keeper + Drop, I: Instance<K>> Progress<K, I> {
    /// The same, noted by this pass, which has then seen what is durable. If it had seen no more entries
    /// than are, all that it had seen is durable.
    fn meet(self, desk: &Desk<K>, pass: &mut Pass<K>) -> Progress<K, I>
        requires desk { I.desk ≡ Some desk.now }
        requires pass { IsOf desk.now pass.old }
        ensures watched { Watches pass.old pass.new }
        ensures synced { length pass.old.seen ≤ self.count
            → ∥ IsDurable K.Keeper I.Syncer.durable (origin_of desk.now) pass.old.seen ∥₁ }
    {
        let Progress {
            count,
            seen,
            instance,
        } = self;
        desk.meet(pass, seen);
        Progress {
            count,
            seen: desk.note(pass),
            instance,
        }
    }
}

/// How far the journal is durable, and whether somebody syncs it.
#[derive(Drop)]
struct Standing<K: Keeper + Drop, I: Instance<K>> {
    progress: Option<Progress<K, I>>,
    is_syncing: bool,
}

/// Sees to it that nothing is told before it is durable. Who waits for a sync waits for the one that runs,
/// and for the next, which is of all that was kept by then: so one sync serves all who wait. The first of
/// them makes it.
#[derive(Drop)]
pub(crate) struct Syncing<K: Keeper + Drop, I: Instance<K>> {
    syncer: I::Syncer,
    standing: Mutex<Standing<K, I>>,
    synced: Condvar,
    is_lost: AtomicBool,
}

impl<K: Keeper + Drop, I: Instance<K>> Syncing<K, I> {
    pub(crate) fn new(syncer: I::Syncer) -> Syncing<K, I> {
        Syncing {
            syncer,
            standing: Mutex::new(Standing {
                progress: None,
                is_syncing: false,
            }),
            synced: Condvar::new(),
            is_lost: AtomicBool::new(false),
        }
    }

    /// Whether it is asked that what is told is durable.
    pub(crate) fn is_asked(&self) -> bool {
        self.syncer.is_asked()
    }

    /// How a session ends whose client could not be told.
    pub(crate) fn untold(&self) -> SessionEnd {
        if self.is_lost.load(Ordering::SeqCst) {
            SessionEnd::Journal
        } else {
            SessionEnd::Session(SessionFault::Write)
        }
    }

    /// Syncs what was kept by now.
    fn sync<R: Wait>(
        &self,
        rt: &R,
        desk: &Desk<K>,
        pass: &mut Pass<K>,
    ) -> Result<Progress<K, I>, Broken>
        requires desk { I.desk ≡ Some desk.now }
        requires pass { IsOf desk.now pass.old }
        ensures watched { Watches pass.old pass.new }
        ensures synced { OnOk result
            (∥ IsDurable K.Keeper I.Syncer.durable (origin_of desk.now) pass.old.seen ∥₁) }
    {
        let look = desk.look(rt, pass).ok_or(Broken)?;
        self.syncer.sync(&look.keeper)?;
        Ok(Progress {
            count: look.count,
            seen: desk.note(pass),
            instance: PhantomData,
        })
    }

    /// Waits until all is durable that the pass had seen, which are so many entries, or until nobody syncs. Whether
    /// all of it is: else it is for the caller to sync now. `Broken` where a sync failed.
    fn is_reached<R: Wait>(
        &self,
        rt: &R,
        desk: &Desk<K>,
        pass: &mut Pass<K>,
        count: u64,
    ) -> Result<bool, Broken>
        requires desk { I.desk ≡ Some desk.now }
        requires pass { IsOf desk.now pass.old }
        requires count { count ≡ length pass.old.seen }
        ensures watched { Watches pass.old pass.new }
        ensures same { IfOk result (λ reached. reached ≡ false → pass.new ≡ pass.old) }
        ensures synced { IfOk result (λ reached. reached ≡ true
            → ∥ IsDurable K.Keeper I.Syncer.durable (origin_of desk.now) pass.old.seen ∥₁) }
    {
        let mut standing = self.standing.lock(rt);
        for _ in rt.forever() {
            if self.is_lost.load(Ordering::SeqCst) {
                return Err(Broken);
            }
            match standing.progress.take() {
                Some(reached) if count <= reached.count => {
                    standing.progress = Some(reached.meet(desk, pass));
                    return Ok(true);
                }
                before => standing.progress = before,
            }
            if !standing.is_syncing {
                standing.is_syncing = true;
                return Ok(false);
            }
            standing = self.synced.wait(rt, standing);
        }
        unreachable!()
    }

    /// Who synced has come so far, if he could, and others may sync.
    fn let_others<R: Wait>(&self, rt: &R, reached: Option<Progress<K, I>>) {
        let mut standing = self.standing.lock(rt);
        standing.is_syncing = false;
        if reached.is_some() {
            standing.progress = reached;
        }
        drop(standing);
        self.synced.notify_all();
    }

    /// Waits until all is durable that the pass had seen, which are so many entries. `Broken` where a sync
    /// failed, now or before.
    fn reach<R: Wait>(
        &self,
        rt: &R,
        desk: &Desk<K>,
        pass: &mut Pass<K>,
        count: u64,
    ) -> Result<(), Broken>
        requires desk { I.desk ≡ Some desk.now }
        requires pass { IsOf desk.now pass.old }
        requires count { count ≡ length pass.old.seen }
        ensures watched { Watches pass.old pass.new }
        ensures synced { OnOk result
            (∥ IsDurable K.Keeper I.Syncer.durable (origin_of desk.now) pass.old.seen ∥₁) }
    {
        if self.is_reached(rt, desk, pass, count)? {
            return Ok(());
        }
        match self.sync(rt, desk, pass) {
            Ok(reached) => {
                self.let_others(rt, Some(reached));
                Ok(())
            }
            Err(Broken) => {
                // No later sync would say what is on the disk.
                self.is_lost.store(true, Ordering::SeqCst);
                self.let_others(rt, None);
                Err(Broken)
            }
        }
    }

    /// Waits until all is durable that the pass had seen, where that is asked for. `Broken` where a sync
    /// failed, now or before.
    pub(crate) fn sync_seen<R: Wait>(
        &self,
        rt: &R,
        desk: &Desk<K>,
        pass: &mut Pass<K>,
    ) -> Result<Synced<K, I>, Broken>
        requires desk { I.desk ≡ Some desk.now }
        requires pass { IsOf desk.now pass.old }
        ensures watched { Watches pass.old pass.new }
        ensures told { IfOk result (λ synced. synced ≡ pass.old.seen) }
    {
        let seen = desk.note(pass);
        let instance = PhantomData;
        if !self.syncer.is_asked() {
            return Ok(Synced { seen, instance });
        }
        let look = desk.look(rt, pass).ok_or(Broken)?;
        self.reach(rt, desk, pass, look.count)?;
        Ok(Synced { seen, instance })
    }
}
