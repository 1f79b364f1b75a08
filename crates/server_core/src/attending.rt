//! A worker goes on with a guest.
ghost use Rattle.std.specs.Prelude.{◌≡◌, [], Some};
ghost use Rattle.server_core.specs.Sessions.{IsOf, ServesPieces};

use crate::connection::Connection;
use crate::conversing::{Spoken, converse};
use crate::counting::Counting;
use crate::guest::{Guest, Stage};
use crate::hearing::{Heard, hear};
use crate::holding::Holding;
use crate::instance::Instance;
use crate::leaving::{end_behind, hear_out, leave, rest};
use crate::outbox::Outbox;
use crate::outcome::{Behind, Outcome};
use crate::parked_session::{ParkedSession, Progress};
use crate::permit::Permit;
use crate::room::{PIECE_BYTES, Room, Speech};
use crate::service::Service;
use base_core::Unbuffered;
use desk_core::{Desk, Pass};
use door_core::Log;
use journal_core::Keeper;
use login_core::Beginning;
use session_core::SessionFault;
use std::alloc::Global;
use std::sync::Wait;
use std::time::Clock;

// Behind so many rounds a session that goes on at once has others go first.
const ROUNDS: u32 = 8;

/// What comes of a session that has come so far by this piece. What is left of that is kept.
fn behind_piece<K: Keeper + Drop, I: Instance<K>>(
    alloc: Global,
    spoken: Spoken<K, I>,
    piece: &[u8],
) -> Outcome<K, I> {
    match spoken {
        Spoken::Waits(session, taken) => {
            let mut left = Vec::new(alloc);
            match left.extend_from_slice(&piece[taken.min(piece.len())..]) {
                Ok(()) => Outcome::GoesOn(session, left),
                Err(_) => Outcome::Ended(session.fails(SessionFault::NoMemory), None),
            }
        }
        Spoken::Ended(summary, owed) => Outcome::Ended(summary, owed),
        Spoken::Refused(claimed) => Outcome::Refused(claimed),
    }
}

/// What comes of a session whose client sends nothing more, and that has answered all.
fn behind_all<K: Keeper + Drop, I: Instance<K>>(progress: Progress<K, I>) -> Outcome<K, I> {
    match progress {
        Progress::Ended { summary, owed, .. } => Outcome::Ended(summary, owed),
        Progress::Parked(session, _) => Outcome::Ended(session.fails(SessionFault::Read), None),
    }
}

/// Goes on with a session by bytes that its client has sent. Those that are left are kept.
fn answer<K: Keeper + Drop, I: Instance<K>, R: Wait + Clock, G: Log>(
    rt: &R,
    alloc: Global,
    desk: &Desk<K>,
    pass: &mut Pass<K>,
    connection: &Connection,
    session: ParkedSession<K, I>,
    speech: &mut Speech,
    piece: &[u8],
    service: &Service<'_, K, I>,
    log: &G,
) -> Outcome<K, I>
    requires desk { I.desk ≡ Some desk.now }
    requires pass { IsOf desk.now pass.old }
    ensures { ServesPieces I.Session.protocol I.by desk.now pass.old pass.new }
{
    let permit = Permit::new(rt, &service.permits);
    let gate = Counting::new(
        rt,
        &permit,
        &service.counters,
        &service.bell,
        log,
        connection.client.number,
    );
    permit.run();
    let spoken = converse(
        rt, alloc, desk, pass, connection, session, speech, piece, service, &gate,
    );
    permit.rest();
    behind_piece(alloc, spoken, piece)
}

/// The same, but that others have their turn behind as much as is read at once.
fn answer_piece<K: Keeper + Drop, I: Instance<K>, R: Wait + Clock, G: Log>(
    rt: &R,
    alloc: Global,
    desk: &Desk<K>,
    pass: &mut Pass<K>,
    connection: &Connection,
    session: ParkedSession<K, I>,
    speech: &mut Speech,
    piece: &[u8],
    service: &Service<'_, K, I>,
    log: &G,
) -> Outcome<K, I>
    requires desk { I.desk ≡ Some desk.now }
    requires pass { IsOf desk.now pass.old }
    ensures { ServesPieces I.Session.protocol I.by desk.now pass.old pass.new }
{
    let outcome = answer(
        rt, alloc, desk, pass, connection, session, speech, piece, service, log,
    );
    if piece.len() < PIECE_BYTES {
        return outcome;
    }
    outcome.in_turn()
}

/// Goes on with a session by what is left of what its client has sent.
fn answer_left<K: Keeper + Drop, I: Instance<K>, R: Wait + Clock, G: Log>(
    rt: &R,
    alloc: Global,
    desk: &Desk<K>,
    pass: &mut Pass<K>,
    connection: &Connection,
    session: ParkedSession<K, I>,
    left: Vec<u8>,
    room: &mut Room,
    service: &Service<'_, K, I>,
    log: &G,
) -> Outcome<K, I>
    requires desk { I.desk ≡ Some desk.now }
    requires pass { IsOf desk.now pass.old }
    ensures { ServesPieces I.Session.protocol I.by desk.now pass.old pass.new }
{
    let Room { speech, .. } = room;
    let piece = left.as_slice();
    answer(
        rt, alloc, desk, pass, connection, session, speech, piece, service, log,
    )
}

/// Answers the last line of a session, whose client sends nothing more.
fn finish<K: Keeper + Drop, I: Instance<K>, R: Wait + Clock, G: Log>(
    rt: &R,
    alloc: Global,
    desk: &Desk<K>,
    pass: &mut Pass<K>,
    connection: &Connection,
    session: ParkedSession<K, I>,
    speech: &mut Speech,
    service: &Service<'_, K, I>,
    log: &G,
) -> Outcome<K, I>
    requires desk { I.desk ≡ Some desk.now }
    requires pass { IsOf desk.now pass.old }
    ensures { ServesPieces I.Session.protocol I.by desk.now pass.old pass.new }
{
    let Speech { output, scratch } = speech;
    let permit = Permit::new(rt, &service.permits);
    let gate = Counting::new(
        rt,
        &permit,
        &service.counters,
        &service.bell,
        log,
        connection.client.number,
    );
    let mut writer = Unbuffered::new(Outbox::new(output));
    permit.run();
    let progress = session.finish(rt, alloc, desk, pass, scratch, &mut writer, &gate);
    permit.rest();
    behind_all(progress)
}

/// What comes of a session whose client sent nothing for too long.
fn late<K: Keeper + Drop, I: Instance<K>>(session: ParkedSession<K, I>) -> Outcome<K, I> {
    let is_logging_in = session.is_logging_in();
    let claimed = session.begun().map(Beginning::user);
    let summary = session.fails(SessionFault::Read);
    if is_logging_in {
        Outcome::Late(claimed)
    } else {
        Outcome::Ended(summary, None)
    }
}

/// What comes of a session whose client has said nothing by now, or nothing more as the server was stopped.
fn unspoken<K: Keeper + Drop, I: Instance<K>>(
    alloc: Global,
    connection: &Connection,
    session: ParkedSession<K, I>,
    heard: Heard,
) -> Outcome<K, I> {
    match heard {
        Heard::Nothing if connection.is_late.get() => late(session),
        Heard::Nothing => Outcome::Waits(session, Vec::new(alloc)),
        Heard::End => Outcome::Stopped(session.fails(SessionFault::Read)),
        Heard::Piece(_) | Heard::Failed => {
            Outcome::Ended(session.fails(SessionFault::Read), None)
        }
    }
}

/// Goes on with a session by what its client has sent, if he has.
fn speak<K: Keeper + Drop, I: Instance<K>, R: Wait + Clock, G: Log>(
    rt: &R,
    alloc: Global,
    desk: &Desk<K>,
    pass: &mut Pass<K>,
    connection: &Connection,
    session: ParkedSession<K, I>,
    room: &mut Room,
    service: &Service<'_, K, I>,
    log: &G,
) -> Outcome<K, I>
    requires desk { I.desk ≡ Some desk.now }
    requires pass { IsOf desk.now pass.old }
    ensures { ServesPieces I.Session.protocol I.by desk.now pass.old pass.new }
{
    let Room { input, speech } = room;
    match hear(&connection.stream, input.as_mut_slice()) {
        Heard::Piece(count) => {
            let piece = &input[..count.min(input.len())];
            answer_piece(
                rt, alloc, desk, pass, connection, session, speech, piece, service, log,
            )
        }
        Heard::End if !service.sign.is_stopped() => finish(
            rt, alloc, desk, pass, connection, session, speech, service, log,
        ),
        heard => unspoken(alloc, connection, session, heard),
    }
}

/// Goes on with a session by what it owes and what is left of what its client has sent, and else by what he
/// sends now.
fn go_further<K: Keeper + Drop, I: Instance<K>, R: Wait + Clock, G: Log>(
    rt: &R,
    alloc: Global,
    desk: &Desk<K>,
    pass: &mut Pass<K>,
    connection: &Connection,
    session: ParkedSession<K, I>,
    left: Vec<u8>,
    room: &mut Room,
    service: &Service<'_, K, I>,
    log: &G,
) -> Outcome<K, I>
    requires desk { I.desk ≡ Some desk.now }
    requires pass { IsOf desk.now pass.old }
    ensures { ServesPieces I.Session.protocol I.by desk.now pass.old pass.new }
{
    if session.is_owing() || !left.is_empty() {
        return answer_left(
            rt, alloc, desk, pass, connection, session, left, room, service, log,
        );
    }
    speak(
        rt, alloc, desk, pass, connection, session, room, service, log,
    )
}

/// Sends what a session has written before, and then goes on with it.
fn go_on<K: Keeper + Drop, I: Instance<K>, R: Wait + Clock, G: Log>(
    rt: &R,
    alloc: Global,
    desk: &Desk<K>,
    pass: &mut Pass<K>,
    connection: &mut Connection,
    session: ParkedSession<K, I>,
    left: Vec<u8>,
    room: &mut Room,
    service: &Service<'_, K, I>,
    log: &G,
) -> Outcome<K, I>
    requires desk { I.desk ≡ Some desk.now }
    requires pass { IsOf desk.now pass.old }
    ensures { ServesPieces I.Session.protocol I.by desk.now pass.old pass.new }
{
    if !connection.send() {
        return Outcome::Ended(session.fails(SessionFault::Write), None);
    }
    if !connection.unsent.is_empty() {
        return Outcome::Waits(session, left);
    }
    go_further(
        rt, alloc, desk, pass, connection, session, left, room, service, log,
    )
}

/// Goes on with the session of a guest, tells him what was gathered for him, and gives him back where he may
/// have sent more since. Where that is to be durable before, he waits to be told.
fn go_on_and_tell<K: Keeper + Drop, I: Instance<K>, R: Wait + Clock, G: Log>(
    rt: &R,
    alloc: Global,
    desk: &Desk<K>,
    pass: &mut Pass<K>,
    connection: Connection,
    session: ParkedSession<K, I>,
    left: Vec<u8>,
    room: &mut Room,
    holding: &mut Holding<K, I>,
    service: &Service<'_, K, I>,
    log: &G,
) -> Option<Guest<K, I>>
    requires desk { I.desk ≡ Some desk.now }
    requires pass { IsOf desk.now pass.old }
    requires nothing { room.old ≡ [] }
    ensures pieces { ServesPieces I.Session.protocol I.by desk.now pass.old pass.new }
    ensures handed_on { room.new ≡ [] }
{
    let mut connection = connection;
    let outcome = go_on(
        rt,
        alloc,
        desk,
        pass,
        &mut connection,
        session,
        left,
        room,
        service,
        log,
    );
    let behind = Behind {
        connection,
        outcome,
    };
    let speech = &mut room.speech;
    if speech.output.is_empty() {
        return behind.conclude(rt, desk, pass, speech, service, log);
    }
    if service.syncing.is_asked() {
        return holding.hold(rt, alloc, desk, pass, behind, speech, service, log);
    }
    behind.tell(rt, desk, pass, speech, service, log)
}

/// Goes on with a guest by what he has sent by now, and gives him back where he may have sent more since.
/// Else he waits for it, or to be told, or has left. What was gathered for him is handed on, held, or
/// dropped: it is no other guest's.
fn attend_once<K: Keeper + Drop, I: Instance<K>, R: Wait + Clock, G: Log>(
    rt: &R,
    alloc: Global,
    desk: &Desk<K>,
    pass: &mut Pass<K>,
    guest: Guest<K, I>,
    room: &mut Room,
    holding: &mut Holding<K, I>,
    service: &Service<'_, K, I>,
    log: &G,
) -> Option<Guest<K, I>>
    requires desk { I.desk ≡ Some desk.now }
    requires pass { IsOf desk.now pass.old }
    requires nothing { room.old ≡ [] }
    ensures pieces { ServesPieces I.Session.protocol I.by desk.now pass.old pass.new }
    ensures handed_on { room.new ≡ [] }
{
    let Guest { connection, stage } = guest;
    match stage {
        Stage::Speaking(session, left) => {
            return go_on_and_tell(
                rt, alloc, desk, pass, connection, session, left, room, holding, service, log,
            );
        }
        Stage::Hearing(owing, summary) => {
            let owed = Some(owing);
            let speech = &mut room.speech;
            end_behind(
                rt, desk, pass, connection, owed, summary, speech, service, log,
            );
        }
        Stage::Refused => leave(rt, connection, service),
        Stage::Leaving => hear_out(rt, connection, &mut room.input, service),
    }
    None
}

/// Goes on with a guest, as far as that goes without waiting for him, and has him wait then. Most who wait
/// for an answer send the next line as soon as they have it, so it looks for that first. Behind some
/// rounds others have their turn.
pub(crate) fn attend<K: Keeper + Drop, I: Instance<K>, R: Wait + Clock, G: Log>(
    rt: &R,
    alloc: Global,
    desk: &Desk<K>,
    pass: &mut Pass<K>,
    guest: Guest<K, I>,
    room: &mut Room,
    holding: &mut Holding<K, I>,
    service: &Service<'_, K, I>,
    log: &G,
)
    requires desk { I.desk ≡ Some desk.now }
    requires pass { IsOf desk.now pass.old }
    requires nothing { room.old ≡ [] }
    ensures pieces { ServesPieces I.Session.protocol I.by desk.now pass.old pass.new }
    ensures handed_on { room.new ≡ [] }
{
    let mut guest = guest;
    for _ in 0..ROUNDS {
        match attend_once(rt, alloc, desk, pass, guest, room, holding, service, log) {
            Some(next) => guest = next,
            None => return,
        }
    }
    rest(rt, guest, service, log);
}
