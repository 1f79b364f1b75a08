//! Sessions of clients.
ghost use Rattle.std.specs.Prelude.{◌≡◌, false, IfOk, IfSome};
ghost use Rattle.std.specs.Option.{is_some};
ghost use Rattle.sysr.specs.Ranges.{ServesInRange};
ghost use Rattle.desk_core.specs.Guarded.{origin_at};
ghost use Rattle.desk_core.specs.Kept.{HasKept};
ghost use Rattle.server_core.specs.Sessions.{Leaves};
ghost use Rattle.load_core.specs.Ready.{IsReady};
ghost use Rattle.serving_core.specs.Protocols.{SpeaksServed};
ghost use Rattle.sysr.specs.Kept.{admittance_of, IsServed, ServesFrom};

use crate::command::{Serving, UserSocketWord};
use crate::controls::{Controls, controls_of};
use crate::entrances;
use crate::entrances::{Opened, entrance_of};
use crate::files::{DumpSink, JournalSink, dump_file, sync};
use crate::keeping::{Ended, Kept, line_keeper};
use crate::loading::{Start, begun};
use crate::naming::{Named, apart_from_each_other};
use crate::reading_time::tell_reading;
use crate::recording::dump_to;
use crate::users::login_of;
use base_core::{Resume, Sink};
use door_core::{Entrance, Login, Manners, ServeFault, Taken};
use journal_core::{Errands, Keeper, NoKeeper, NoSync, Syncs};
use lines_core::{NO_MEMORY, SessionFault, fault_text, give_up};
use run_core::{Left, status_of};
use script_core::{ScriptFault, script_fault_text};
use serving_core::{Served, serve_on};
use session_core::{NoTender, Tender};
use std::mem::forget;
use std::process::ExitCode;
use std::sync::Wait;
use std::thread::Threads;
use std::time::{Clock, Duration, Instant};
use system_core::System;

/// What is told of a fault that ended a server.
fn serve_fault_text(fault: ServeFault) -> &'static str {
    match fault {
        ServeFault::Accept => "sysr: accept fault",
        ServeFault::NoMemory => NO_MEMORY,
    }
}

/// Serves the sessions that are asked for at the entrance, from this core on, whose changes are
/// kept, or until it is told to stop, and gives what they left, and how many they were. What clients
/// are told is durable, if there is one who makes it so; and the tender tends what is kept. The error is the
/// status, where the server ended by a fault, which is told.
pub fn served<R, K, Y, T>(
    host: &HostRuntime,
    rt: &R,
    asked: Serving<'_>,
    entrance: &Entrance,
    controls: &Controls<'_>,
    system: System,
    keeper: K,
    syncer: Option<Y>,
    tender: &T,
) -> Result<(Left<K>, Taken), ExitCode>
where
    R: Threads + Wait + Clock + Sync,
    K: Keeper + Drop + Send,
    Y: Syncs<K> + Send + Sync,
    T: Tender<K> + Sync,
    requires range { ServesInRange asked }
    requires ready { IsReady system }
    requires settled { K.owing keeper ≡ false }
    requires begins { T.may_begin tender.now system.journal (origin_at system keeper) }
    ensures count { IfOk result
        (λ b. b.1.stopped ≡ false → b.1.sessions ≡ asked.entry.sessions) }
    ensures leaves { IfOk result
        (λ b. Leaves SpeaksServed entrance.now asked.entry.workers b.1.sessions keeper system
        b.0.system) }
    ensures kept { IfOk result (λ b. HasKept K.Keeper (origin_at system keeper)
        b.0.system.journal b.0.keeper) }
{
    let manners = Manners {
        idle: asked.idle.map(Duration::from_secs),
        max_sessions: asked.max_sessions,
        log: asked.log,
        denials: asked.log_denials,
        times: asked.log_time,
    };
    let mut err = host.stderr();
    let (alloc, workers, sessions) = (host.alloc(), asked.workers, asked.sessions);
    let served = match syncer {
        Some(syncer) => serve_on(
            rt, alloc, entrance, workers, sessions, system, keeper, syncer, tender, manners,
            &mut err, controls,
        ),
        None => serve_on(
            rt, alloc, entrance, workers, sessions, system, keeper, NoSync, tender, manners,
            &mut err, controls,
        ),
    };
    match served {
        Ok(served) => {
            let Served {
                taken,
                system,
                keeper,
            } = served;
            Ok((Left { system, keeper }, taken))
        }
        Err(fault) => Err(give_up(host, serve_fault_text(fault))),
    }
}

/// Serves the sessions that are asked for at the entrance, and keeps each change in the journal, if
/// there is one. The error is the status, where the server ended by a fault, which is told.
fn kept<R, W>(
    host: &HostRuntime,
    rt: &R,
    asked: Serving<'_>,
    entrance: &Entrance,
    controls: &Controls<'_>,
    begun: Start<W>,
) -> Result<(Kept<W>, Taken), ExitCode>
where
    R: Threads + Wait + Clock + Sync,
    W: Resume + Errands + Drop + Send,
    requires range { ServesInRange asked }
    requires ready { IsReady begun.system }
    requires works { IfSome begun.journal (λ sink. W.failed sink ≡ false) }
    ensures count { IfOk result
        (λ b. b.1.stopped ≡ false → b.1.sessions ≡ asked.entry.sessions) }
    ensures served { IfOk result (λ b. IsServed W.taken W.handed_on W.may_run W.knows entrance.now
        asked.entry.workers b.1.sessions begun b.0) }
{
    let Start {
        system,
        journal,
        syncer,
    } = begun;
    let Some(sink) = journal else {
        let (left, taken) = served(
            host, rt, asked, entrance, controls, system, NoKeeper, syncer, &NoTender,
        )?;
        return Ok((Kept::Nowhere(left), taken));
    };
    match line_keeper(host, sink) {
        Ok(keeper) => {
            let (left, taken) = served(
                host, rt, asked, entrance, controls, system, keeper, syncer, &NoTender,
            )?;
            Ok((Kept::Lines(left), taken))
        }
        Err(status) => {
            // The process ends here, and its memory goes back as a whole.
            forget(system);
            Err(status)
        }
    }
}

/// Has the journal on its disk, says how many sessions were served, writes the dump of what they
/// left, and audits it, each if that is asked for. The error is the status, where that could not be
/// done.
fn tell_end(
    host: &HostRuntime,
    asked: Serving<'_>,
    sessions: u64,
    system: &System,
    dump: Option<DumpSink>,
) -> Result<ExitCode, ExitCode>
    requires { IfSome dump (λ sink. sink.failed ≡ false) }
{
    if let Some(path) = asked.journal {
        sync(host, path)?;
    }
    if println!(host; "served {sessions}").is_err() {
        return Err(give_up(host, fault_text(SessionFault::Write)));
    }
    if let Some(sink) = dump {
        write_state(host, system, sink)?;
    }
    Ok(status_of(host, system, asked.audit))
}

/// This status; or where what is left of a change is owed to the journal, that of a fault, which is
/// told.
fn status_kept<W>(host: &HostRuntime, kept: &Kept<W>, status: ExitCode) -> ExitCode
where
    W: Resume + Errands + Drop,
{
    if kept.is_owing() {
        return give_up(host, script_fault_text(ScriptFault::Journal));
    }
    status
}

/// Writes the dump. Where it cannot be written whole, what was gathered of it is not written.
fn write_state(host: &HostRuntime, system: &System, sink: DumpSink) -> Result<(), ExitCode>
    requires { sink.failed ≡ false }
{
    let mut sink = sink;
    match dump_to(host, system, &mut sink) {
        Ok(()) => Ok(()),
        Err(status) => {
            forget(sink);
            Err(status)
        }
    }
}

/// The file of a dump, if one is named. It is held from the start, so that no state is lost at the
/// end for want of it.
pub fn dump_of(host: &HostRuntime, named: Named<'_>) -> Result<Option<DumpSink>, ExitCode>
    ensures { IfOk result (λ dump. IfSome dump (λ sink. sink.failed ≡ false)) }
{
    match named.dump {
        Some(path) => {
            // The file of the journal is there by now, and may be this one under another name.
            apart_from_each_other(host, named)?;
            Ok(Some(dump_file(host, path)?))
        }
        None => Ok(None),
    }
}

/// Serves the sessions that are asked for, and tells the end, where the files are open. To load
/// what was loaded began then, if the clock says it.
fn listen_and_serve<'a, R, W>(
    host: &'a HostRuntime,
    rt: &R,
    asked: Serving<'a>,
    sockets: &[UserSocketWord],
    login: Option<Login>,
    since: Option<Instant>,
    begun: Start<W>,
    dump: Option<DumpSink>,
) -> Result<(Ended<W>, Taken), ExitCode>
where
    R: Threads + Wait + Clock + Sync,
    W: Resume + Errands + Drop + Send,
    requires range { ServesInRange asked }
    requires ready { IsReady begun.system }
    requires works { IfSome begun.journal (λ sink. W.failed sink ≡ false) }
    requires dump { IfSome dump (λ sink. sink.failed ≡ false) }
    requires login { is_some login ≡ is_some asked.users }
    ensures count { IfOk result
        (λ b. b.1.stopped ≡ false → b.1.sessions ≡ asked.entry.sessions) }
    ensures served { IfOk result (λ b. IsServed W.taken W.handed_on W.may_run W.knows
        (admittance_of asked.entry.users sockets.now)
        asked.entry.workers b.1.sessions begun b.0.kept) }
{
    let (controls, opened) = match heard_and_served(host, rt, asked, sockets, login, since) {
        Ok(opened) => opened,
        Err(status) => {
            // The process ends here, and its memory goes back as a whole.
            forget(begun);
            return Err(status);
        }
    };
    let (kept, taken) = kept(host, rt, asked, &opened.entrance, &controls, begun)?;
    let ended = ended(
        host,
        asked,
        sockets,
        opened.made,
        taken.sessions,
        kept,
        dump,
    );
    Ok((ended, taken))
}

/// Tells the end of a server that has left this, and removes what it has made to listen at.
pub fn ended<'a, W>(
    host: &HostRuntime,
    asked: Serving<'a>,
    sockets: &[UserSocketWord],
    made: Option<&'a str>,
    sessions: u64,
    kept: Kept<W>,
    dump: Option<DumpSink>,
) -> Ended<W>
where
    W: Resume + Errands + Drop,
    requires { IfSome dump (λ sink. sink.failed ≡ false) }
    ensures { result.kept ≡ kept }
{
    let status = match tell_end(host, asked, sessions, kept.system(), dump) {
        Ok(status) | Err(status) => status,
    };
    let status = status_kept(host, &kept, status);
    entrances::remove(host, asked.control);
    entrances::remove(host, made);
    entrances::remove_all(host, sockets);
    Ended { kept, status }
}

/// What listens to who may tell the server to stop, and to its clients. It says where; and before
/// that how long it took to load a file, if one was loaded, which began then.
pub fn heard_and_served<'a, R: Threads + Clock>(
    host: &'a HostRuntime,
    rt: &R,
    asked: Serving<'a>,
    sockets: &[UserSocketWord],
    login: Option<Login>,
    since: Option<Instant>,
) -> Result<(Controls<'a>, Opened<'a>), ExitCode>
    requires { is_some login ≡ is_some asked.users }
    ensures { IfOk result
        (λ b. b.1.entrance ≡ admittance_of asked.entry.users sockets.now) }
{
    tell_reading(host, rt, asked.load, since)?;
    let controls = controls_of(host, rt, asked)?;
    let opened = entrance_of(host, asked, sockets, login)?;
    Ok((controls, opened))
}

/// Serves the sessions that are asked for, or until it is told to stop. It says where it listens,
/// and at the end how many sessions it served, and how an audit ended. What they left is given too,
/// and how many they were. Where a file of users is named each session began with a login, but
/// those at the sockets of users' own, each of which was that user's.
pub fn serve<'a, R>(
    host: &'a HostRuntime,
    rt: &R,
    asked: Serving<'a>,
    sockets: &[UserSocketWord],
) -> Result<(Ended<JournalSink>, Taken), ExitCode>
where
    R: Threads + Wait + Clock + Sync,
    requires { ServesInRange asked }
    ensures count { IfOk result
        (λ b. b.1.stopped ≡ false → b.1.sessions ≡ asked.entry.sessions) }
    ensures served { IfOk result (λ b. ServesFrom ⟦<JournalSink as Sink>⟧.taken
        ⟦<JournalSink as Sink>⟧.handed_on ⟦<JournalSink as Errands>⟧.may_run
        ⟦<JournalSink as Errands>⟧.knows
        (admittance_of asked.entry.users sockets.now)
        asked.entry.workers b.1.sessions asked.entry.journal b.0.kept) }
{
    let named = Named {
        load: asked.load,
        journal: asked.journal,
        dump: asked.dump,
        users: asked.users,
    };
    apart_from_each_other(host, named)?;
    let login = login_of(host, asked.users)?;
    let since = Instant::now(rt).ok();
    let begun = begun(host, rt, named, asked.chunk, asked.limits, asked.sync)?;
    match dump_of(host, named) {
        Ok(dump) => listen_and_serve(host, rt, asked, sockets, login, since, begun, dump),
        Err(status) => {
            forget(begun);
            Err(status)
        }
    }
}
