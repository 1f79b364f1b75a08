//! Sessions of clients whose server has a folder of its own.
ghost use Rattle.std.specs.Prelude.{◌≡◌, None, Some, false, IfOk, IfSome};
ghost use Rattle.std.specs.Option.{is_some};
ghost use Rattle.desk_core.specs.Guarded.{origin_at};
ghost use Rattle.journal_core.specs.Keeping.{owing_nothing};
ghost use Rattle.load_core.specs.Ready.{IsReady};
ghost use Rattle.checkpoint_core.specs.Beginning.{MayTend};
ghost use Rattle.sysr.specs.Ranges.{ServesInRange};
ghost use Rattle.sysr.specs.Kept.{admittance_of, in_folder, IsServed, ServesFrom};

use crate::command::{OwnFolder, Serving, UserSocketWord};
use crate::controls::Controls;
use crate::data::{DataArchive, DataSink, DataStart, begun_in, hands_of, plan_of};
use crate::files::DumpSink;
use crate::keeping::{Ended, Kept, line_keeper};
use crate::listening::{dump_of, ended, heard_and_served, served};
use crate::naming::{Named, apart_from_each_other};
use crate::users::login_of;
use base_core::{Broken, Sink};
use checkpoint_core::{Beginning, CheckpointTaker, Plan};
use directory_core::{Hands, Syncer};
use door_core::{Entrance, Login, Taken};
use journal_core::Errands;
use std::mem::forget;
use std::process::ExitCode;
use std::sync::Wait;
use std::thread::Threads;
use std::time::Clock;

/// Serves the sessions that are asked for at the entrance, and keeps each change in the folder, and checkpoints of
/// them. The error is the status, where the server ended by a fault, which is told.
fn kept_in_folder<R>(
    host: &HostRuntime,
    rt: &R,
    asked: Serving<'_>,
    entrance: &Entrance,
    controls: &Controls<'_>,
    begun: DataStart,
    syncer: Option<Syncer>,
    plan: Plan,
) -> Result<(Kept<DataSink>, Taken), ExitCode>
where
    R: Threads + Wait + Clock + Sync,
    requires range { ServesInRange asked }
    requires ready { IsReady begun.beginning.system }
    requires works { begun.beginning.sink.failed ≡ false }
    requires begins { MayTend false begun.beginning.begun begun.beginning.system.journal
        (origin_at begun.beginning.system (owing_nothing None None)) }
    ensures count { IfOk result
        (λ b. b.1.stopped ≡ false → b.1.sessions ≡ asked.entry.sessions) }
    ensures served { IfOk result (λ b. IsServed ⟦<DataSink as Sink>⟧.taken
        ⟦<DataSink as Sink>⟧.handed_on ⟦<DataSink as Errands>⟧.may_run
        ⟦<DataSink as Errands>⟧.knows entrance.now asked.entry.workers b.1.sessions
        (in_folder begun.beginning.system begun.beginning.sink) b.0) }
{
    let DataStart { beginning, hands } = begun;
    let Beginning {
        system,
        sink,
        begun,
        base,
    } = beginning;
    match line_keeper(host, sink) {
        Ok(keeper) => {
            let archive = DataArchive::new(hands, begun, asked.limits.changes);
            let taker = CheckpointTaker::new(archive, base, plan);
            let (left, taken) = served(
                host, rt, asked, entrance, controls, system, keeper, syncer, &taker,
            )?;
            Ok((Kept::Lines(left), taken))
        }
        Err(status) => {
            // The process ends here, and its memory goes back as a whole.
            forget(system);
            Err(status)
        }
    }
}

/// Serves the sessions that are asked for, and tells the end, where the files are open.
fn listen_and_serve_in_folder<'a, R>(
    host: &'a HostRuntime,
    rt: &R,
    asked: Serving<'a>,
    sockets: &[UserSocketWord],
    login: Option<Login>,
    begun: DataStart,
    last: Hands,
    syncer: Option<Syncer>,
    plan: Plan,
    dump: Option<DumpSink>,
) -> Result<(Ended<DataSink>, Taken), ExitCode>
where
    R: Threads + Wait + Clock + Sync,
    requires range { ServesInRange asked }
    requires ready { IsReady begun.beginning.system }
    requires works { begun.beginning.sink.failed ≡ false }
    requires begins { MayTend false begun.beginning.begun begun.beginning.system.journal
        (origin_at begun.beginning.system (owing_nothing None None)) }
    requires dump { IfSome dump (λ sink. sink.failed ≡ false) }
    requires login { is_some login ≡ is_some asked.users }
    ensures count { IfOk result
        (λ b. b.1.stopped ≡ false → b.1.sessions ≡ asked.entry.sessions) }
    ensures served { IfOk result (λ b. IsServed ⟦<DataSink as Sink>⟧.taken
        ⟦<DataSink as Sink>⟧.handed_on ⟦<DataSink as Errands>⟧.may_run
        ⟦<DataSink as Errands>⟧.knows (admittance_of asked.entry.users sockets.now)
        asked.entry.workers b.1.sessions
        (in_folder begun.beginning.system begun.beginning.sink) b.0.kept) }
{
    let (controls, opened) = match heard_and_served(host, rt, asked, sockets, login, None) {
        Ok(opened) => opened,
        Err(status) => {
            // The process ends here, and its memory goes back as a whole.
            forget(begun);
            return Err(status);
        }
    };
    let (kept, taken) = kept_in_folder(
        host,
        rt,
        asked,
        &opened.entrance,
        &controls,
        begun,
        syncer,
        plan,
    )?;
    let synced = last.sync_journal();
    let Ended { kept, status } = ended(
        host,
        asked,
        sockets,
        opened.made,
        taken.sessions,
        kept,
        dump,
    );
    let status = match synced {
        Ok(_) => status,
        Err(Broken) => ExitCode::FAILURE,
    };
    Ok((Ended { kept, status }, taken))
}

/// As `serve` of `listening.rt`, with a folder of its own, in which the changes are kept, and checkpoints of them. A start
/// restores what that has. So what sessions leave was kept there, from where it was opened.
pub fn serve_in_folder<'a, R>(
    host: &'a HostRuntime,
    rt: &R,
    asked: Serving<'a>,
    folder: OwnFolder<'a>,
    sockets: &[UserSocketWord],
) -> Result<(Ended<DataSink>, Taken), ExitCode>
where
    R: Threads + Wait + Clock + Sync,
    requires { ServesInRange asked }
    ensures count { IfOk result
        (λ b. b.1.stopped ≡ false → b.1.sessions ≡ asked.entry.sessions) }
    ensures served { IfOk result (λ b. ServesFrom ⟦<DataSink as Sink>⟧.taken
        ⟦<DataSink as Sink>⟧.handed_on ⟦<DataSink as Errands>⟧.may_run
        ⟦<DataSink as Errands>⟧.knows
        (admittance_of asked.entry.users sockets.now)
        asked.entry.workers b.1.sessions (Some folder.entry) b.0.kept) }
{
    let named = Named {
        load: None,
        journal: None,
        dump: asked.dump,
        users: asked.users,
    };
    apart_from_each_other(host, named)?;
    let login = login_of(host, asked.users)?;
    let plan = plan_of(host, folder)?;
    let begun = begun_in(host, folder.path, asked.chunk, asked.limits, asked.sync)?;
    let opened = match dump_of(host, named) {
        Ok(dump) => match hands_of(host, rt, &begun.hands, asked.sync) {
            Ok((last, syncer)) => Ok((dump, last, syncer)),
            Err(status) => Err(status),
        },
        Err(status) => Err(status),
    };
    match opened {
        Ok((dump, last, syncer)) => listen_and_serve_in_folder(
            host, rt, asked, sockets, login, begun, last, syncer, plan, dump,
        ),
        Err(status) => {
            forget(begun);
            Err(status)
        }
    }
}
