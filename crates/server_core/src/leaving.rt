//! How a guest waits, and leaves.
ghost use Rattle.std.specs.Prelude.{◌≡◌, [], Some};
ghost use Rattle.session_core.specs.Gains.{Watches};
ghost use Rattle.server_core.specs.Sessions.{IsOf};

use crate::connection::Connection;
use crate::conversing::has_room;
use crate::guest::{Guest, Stage};
use crate::hearing::{Heard, hear};
use crate::instance::Instance;
use crate::outbox::Outbox;
use crate::owing::Owing;
use crate::parked_session::ParkedSession;
use crate::room::Speech;
use crate::service::Service;
use base_core::{Broken, Name, Unbuffered};
use desk_core::{Desk, Pass};
use door_core::Log;
use journal_core::Keeper;
use session_core::{SessionEnd, SessionFault, Summary};
use std::alloc::Global;
use std::sync::Wait;
use std::time::{Clock, Duration, Instant};

// The seconds in which a login has to be whole.
const LOGIN_SECONDS: u64 = 10;

// The seconds after which a refusal is told, and those that a client has to read the last that he is told.
const REFUSAL_SECONDS: u64 = 1;

const LEAVING_SECONDS: u64 = 6;

// How often in all it reads what a client sends who leaves.
const LAST_READS: u32 = 64;

/// What a client is told whose login is refused before it is judged.
pub(crate) const REFUSED: &[u8] = b"refused: login\n";

fn after<R: Clock>(rt: &R, seconds: u64) -> Option<Instant> {
    Instant::now(rt)
        .ok()?
        .checked_add(Duration::from_secs(seconds))
}

/// Lets a client go. His connection ends.
fn gone<K: Keeper + Drop, I: Instance<K>>(connection: Connection, service: &Service<'_, K, I>) {
    drop(connection);
    service.let_go();
}

/// Has a guest who leaves wait on.
fn stay<K: Keeper + Drop, I: Instance<K>, R: Wait>(
    rt: &R,
    connection: Connection,
    service: &Service<'_, K, I>,
) {
    let stage = Stage::Leaving;
    let _ = park(rt, Guest { connection, stage }, service);
}

/// Has a guest wait for his client. Whether he does: one for whom there is no memory is let go.
fn park<K: Keeper + Drop, I: Instance<K>, R: Wait>(
    rt: &R,
    guest: Guest<K, I>,
    service: &Service<'_, K, I>,
) -> bool {
    let is_parked = service
        .sessions
        .park(rt, service.entrance, &service.sign, guest);
    if !is_parked {
        service.let_go();
    }
    is_parked
}

/// Has a session wait for its client. Where there is no memory for that it has ended so, which is told.
fn park_session<K: Keeper + Drop, I: Instance<K>, R: Wait + Clock, G: Log>(
    rt: &R,
    guest: Guest<K, I>,
    lost: Summary,
    service: &Service<'_, K, I>,
    log: &G,
) {
    let client = guest.connection.client;
    if !park(rt, guest, service) {
        service.counters.end(true);
        if let Err(end) = lost.ended {
            log.fault(rt, client, end, false);
        }
        log.ended(rt, client, &lost);
    }
}

/// Has a session wait for its client, behind these bytes that he has sent.
pub(crate) fn wait<K: Keeper + Drop, I: Instance<K>, R: Wait + Clock, G: Log>(
    rt: &R,
    connection: Connection,
    session: ParkedSession<K, I>,
    left: Vec<u8>,
    service: &Service<'_, K, I>,
    log: &G,
) {
    let mut connection = connection;
    connection.is_late.set(false);
    if !session.is_logging_in() {
        connection.until = service.idle_until(rt);
    }
    let lost = session.told(SessionFault::NoMemory);
    let stage = Stage::Speaking(session, left);
    park_session(rt, Guest { connection, stage }, lost, service, log);
}

/// Has a guest wait, wherever he is.
pub(crate) fn rest<K: Keeper + Drop, I: Instance<K>, R: Wait + Clock, G: Log>(
    rt: &R,
    guest: Guest<K, I>,
    service: &Service<'_, K, I>,
    log: &G,
) {
    let Guest { connection, stage } = guest;
    match stage {
        Stage::Speaking(session, left) => wait(rt, connection, session, left, service, log),
        stage => {
            let _ = park(rt, Guest { connection, stage }, service);
        }
    }
}

/// Has a session wait for the first that its client says. A login has to be whole in ten seconds.
pub(crate) fn wait_first<K: Keeper + Drop, I: Instance<K>, R: Wait + Clock, G: Log>(
    rt: &R,
    alloc: Global,
    connection: Connection,
    session: ParkedSession<K, I>,
    service: &Service<'_, K, I>,
    log: &G,
) {
    let mut connection = connection;
    if session.is_logging_in() {
        connection.until = after(rt, LOGIN_SECONDS);
    }
    wait(rt, connection, session, Vec::new(alloc), service, log);
}

/// Tells of a session for which there was no memory.
pub(crate) fn unserved<K: Keeper + Drop, I: Instance<K>, R: Wait + Clock, G: Log>(
    rt: &R,
    connection: Connection,
    service: &Service<'_, K, I>,
    log: &G,
) {
    let summary = Summary {
        user: None,
        lines: 0,
        moment: None,
        ended: Err(SessionEnd::Session(SessionFault::NoMemory)),
    };
    end(rt, connection, summary, service, log);
}

/// Lets a client read the last that he was told, and leave.
pub(crate) fn leave<K: Keeper + Drop, I: Instance<K>, R: Wait + Clock>(
    rt: &R,
    connection: Connection,
    service: &Service<'_, K, I>,
) {
    let mut connection = connection;
    connection.is_late.set(false);
    connection.until = if connection.unsent.is_empty() {
        after(rt, LEAVING_SECONDS)
    } else {
        service.idle_until(rt)
    };
    if !connection.send() || !connection.shut() {
        return gone(connection, service);
    }
    let stage = Stage::Leaving;
    let _ = park(rt, Guest { connection, stage }, service);
}

/// Reads what a client still sends who leaves, until he is gone or his time is over.
pub(crate) fn hear_out<K: Keeper + Drop, I: Instance<K>, R: Wait + Clock>(
    rt: &R,
    connection: Connection,
    input: &mut Vec<u8>,
    service: &Service<'_, K, I>,
) {
    let mut connection = connection;
    if connection.is_late.get() || !connection.send() || !connection.shut() {
        return gone(connection, service);
    }
    if !connection.unsent.is_empty() {
        return stay(rt, connection, service);
    }
    for _ in 0..LAST_READS {
        match hear(&connection.stream, input.as_mut_slice()) {
            Heard::Piece(_) => {}
            Heard::Nothing => return stay(rt, connection, service),
            Heard::End | Heard::Failed => return gone(connection, service),
        }
    }
    gone(connection, service)
}

/// Ends a session, and tells of it.
pub(crate) fn end<K: Keeper + Drop, I: Instance<K>, R: Wait + Clock, G: Log>(
    rt: &R,
    connection: Connection,
    summary: Summary,
    service: &Service<'_, K, I>,
    log: &G,
) {
    service.counters.end(summary.ended.is_err());
    if let Err(end) = summary.ended {
        log.fault(rt, connection.client, end, connection.is_late.get());
    }
    log.ended(rt, connection.client, &summary);
    let mut connection = connection;
    if let Err(SessionEnd::Session(SessionFault::Write)) = summary.ended {
        // He takes nothing more.
        connection.unsent.clear();
    }
    leave(rt, connection, service);
}

/// Writes what is still to come of a reply, as far as the client takes it, and sends it. What is to come
/// behind that, if anything is.
fn tell_more<K: Keeper + Drop, I: Instance<K>, R: Wait>(
    rt: &R,
    desk: &Desk<K>,
    pass: &mut Pass<K>,
    connection: &mut Connection,
    owed: Option<Owing<K, I>>,
    speech: &mut Speech,
    service: &Service<'_, K, I>,
) -> Result<Option<Owing<K, I>>, Broken>
    requires desk { I.desk ≡ Some desk.now }
    requires pass { IsOf desk.now pass.old }
    ensures { Watches pass.old pass.new }
{
    let mut owed = owed;
    for _ in rt.forever() {
        let Some(owing) = owed else {
            owed = None;
            break;
        };
        let room = has_room(rt, desk, pass, connection, &mut speech.output, service);
        if !room.ok_or(Broken)? {
            owed = Some(owing);
            break;
        }
        let mut writer = Unbuffered::new(Outbox::new(&mut speech.output));
        owed = owing.go_on(&mut speech.scratch, &mut writer)?;
    }
    let synced = service.syncing.sync_seen(rt, desk, pass)?;
    if !connection.hand_on(&synced, &mut speech.output) {
        return Err(Broken);
    }
    Ok(owed)
}

/// Sends what waits, and writes and sends what is still to come of a reply, as far as the client takes it.
/// What is to come behind that, if anything is.
fn tell_rest<K: Keeper + Drop, I: Instance<K>, R: Wait>(
    rt: &R,
    desk: &Desk<K>,
    pass: &mut Pass<K>,
    connection: &mut Connection,
    owed: Option<Owing<K, I>>,
    speech: &mut Speech,
    service: &Service<'_, K, I>,
) -> Result<Option<Owing<K, I>>, Broken>
    requires desk { I.desk ≡ Some desk.now }
    requires pass { IsOf desk.now pass.old }
    requires nothing { speech.old.output.items ≡ [] }
    ensures watched { Watches pass.old pass.new }
    ensures handed_on { speech.new.output.items ≡ [] }
{
    if !connection.send() {
        return Err(Broken);
    }
    if !connection.unsent.is_empty() {
        return Ok(owed);
    }
    let told = tell_more(rt, desk, pass, connection, owed, speech, service);
    // What could not be handed on is no other client's.
    speech.output.clear();
    told
}

/// Has a session that has ended wait until its client takes more of its last reply.
fn wait_behind<K: Keeper + Drop, I: Instance<K>, R: Wait + Clock, G: Log>(
    rt: &R,
    connection: Connection,
    owing: Owing<K, I>,
    summary: Summary,
    service: &Service<'_, K, I>,
    log: &G,
) {
    let mut connection = connection;
    connection.is_late.set(false);
    connection.until = service.idle_until(rt);
    let ended = Err(SessionEnd::Session(SessionFault::NoMemory));
    let lost = Summary { ended, ..summary };
    let stage = Stage::Hearing(owing, summary);
    park_session(rt, Guest { connection, stage }, lost, service, log);
}

/// Ends a session once its last reply is written, as far as its client takes that.
pub(crate) fn end_behind<K: Keeper + Drop, I: Instance<K>, R: Wait + Clock, G: Log>(
    rt: &R,
    desk: &Desk<K>,
    pass: &mut Pass<K>,
    connection: Connection,
    owed: Option<Owing<K, I>>,
    summary: Summary,
    speech: &mut Speech,
    service: &Service<'_, K, I>,
    log: &G,
)
    requires desk { I.desk ≡ Some desk.now }
    requires pass { IsOf desk.now pass.old }
    requires nothing { speech.old.output.items ≡ [] }
    ensures watched { Watches pass.old pass.new }
    ensures handed_on { speech.new.output.items ≡ [] }
{
    if owed.is_none() {
        return end(rt, connection, summary, service, log);
    }
    let mut connection = connection;
    let told = tell_rest(rt, desk, pass, &mut connection, owed, speech, service);
    match told {
        Ok(Some(owing)) => wait_behind(rt, connection, owing, summary, service, log),
        Ok(None) => end(rt, connection, summary, service, log),
        Err(Broken) => {
            let ended = Err(service.syncing.untold());
            end(rt, connection, Summary { ended, ..summary }, service, log);
        }
    }
}

/// Ends a session as the server was stopped, which is no fault.
pub(crate) fn stop<K: Keeper + Drop, I: Instance<K>, R: Wait + Clock, G: Log>(
    rt: &R,
    connection: Connection,
    summary: Summary,
    service: &Service<'_, K, I>,
    log: &G,
) {
    service.counters.end(true);
    log.ended(rt, connection.client, &summary);
    leave(rt, connection, service);
}

/// Has a client wait for a second whose login was refused, and then hear it.
pub(crate) fn refuse<K: Keeper + Drop, I: Instance<K>, R: Wait + Clock, G: Log>(
    rt: &R,
    connection: Connection,
    claimed: Option<Name>,
    service: &Service<'_, K, I>,
    log: &G,
) {
    service.counters.end(false);
    log.login_refused(rt, connection.client.peer, claimed);
    let mut connection = connection;
    connection.until = after(rt, REFUSAL_SECONDS);
    let stage = Stage::Refused;
    let _ = park(rt, Guest { connection, stage }, service);
}

/// Tells a client whose login was not whole in time.
pub(crate) fn dismiss<K: Keeper + Drop, I: Instance<K>, R: Wait + Clock, G: Log>(
    rt: &R,
    connection: Connection,
    claimed: Option<Name>,
    service: &Service<'_, K, I>,
    log: &G,
) {
    service.counters.end(false);
    log.login_refused(rt, connection.client.peer, claimed);
    let mut connection = connection;
    if connection.unsent.extend_from_slice(REFUSED).is_err() {
        return gone(connection, service);
    }
    leave(rt, connection, service);
}
