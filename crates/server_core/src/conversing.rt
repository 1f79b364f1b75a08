//! How lines of a session are answered, as far as its client takes the answers.
ghost use Rattle.std.specs.Prelude.{◌≡◌, Some};
ghost use Rattle.session_core.specs.Gains.{Watches};
ghost use Rattle.server_core.specs.Sessions.{IsOf, ServesPiece, ServesPieces};

use crate::connection::Connection;
use crate::instance::Instance;
use crate::leaving::REFUSED;
use crate::outbox::{Outbox, send};
use crate::owing::Owing;
use crate::parked_session::{ParkedSession, Progress};
use crate::room::{OUTPUT_BYTES, Speech};
use crate::service::Service;
use base_core::{Name, NoGate, Unbuffered};
use desk_core::{Desk, Pass};
use journal_core::Keeper;
use session_core::{SessionFault, Summary, Witness};
use std::alloc::Global;
use std::sync::Wait;

/// How far a session has come by what its client has sent.
#[derive(Drop)]
pub(crate) enum Spoken<K: Keeper + Drop, I: Instance<K>> {
    /// It waits for its client, and has taken so many bytes.
    Waits(ParkedSession<K, I>, usize),
    /// It has ended, once this is written, if anything is still to be.
    Ended(Summary, Option<Owing<K, I>>),
    /// Its login was refused, that of this user, if he has said who he is.
    Refused(Option<Name>),
}

/// Whether there is room for more, where the client takes what was gathered. None where his connection is
/// gone, or he may not be told.
pub(crate) fn has_room<K: Keeper + Drop, I: Instance<K>, R: Wait>(
    rt: &R,
    desk: &Desk<K>,
    pass: &mut Pass<K>,
    connection: &Connection,
    gathered: &mut Vec<u8>,
    service: &Service<'_, K, I>,
) -> Option<bool>
    requires desk { I.desk ≡ Some desk.now }
    requires pass { IsOf desk.now pass.old }
    ensures { Watches pass.old pass.new }
{
    if gathered.len() < OUTPUT_BYTES {
        return Some(true);
    }
    let synced = service.syncing.sync_seen(rt, desk, pass).ok()?;
    match send(&connection.stream, &synced, gathered) {
        Ok(()) => Some(gathered.len() < OUTPUT_BYTES),
        Err(_) => None,
    }
}

/// What comes of a session that has ended so: where it was logging in, and its client has said who he is, his
/// login was refused. What it owes then is that one message, which is written.
fn ended<K: Keeper + Drop, I: Instance<K>>(
    was_logging_in: bool,
    summary: Summary,
    claimed: Option<Name>,
    owed: Option<Owing<K, I>>,
    speech: &mut Speech,
) -> Spoken<K, I> {
    if !was_logging_in || summary.user.is_some() || claimed.is_none() {
        return Spoken::Ended(summary, owed);
    }
    if let Some(owing) = owed {
        let Speech { output, scratch } = speech;
        let mut writer = Unbuffered::new(Outbox::new(output));
        let _ = owing.go_on(scratch, &mut writer);
    }
    Spoken::Refused(claimed)
}

/// Goes on with the reply that a session owes.
fn tell_on<K: Keeper + Drop, I: Instance<K>>(
    session: ParkedSession<K, I>,
    speech: &mut Speech,
) -> Progress<K, I> {
    let Speech { output, scratch } = speech;
    let mut writer = Unbuffered::new(Outbox::new(output));
    session.go_on(scratch, &mut writer, &NoGate)
}

/// Answers the next line of a session. A login that may not be made any more as it was begun is refused.
fn answer_next<K: Keeper + Drop, I: Instance<K>, R: Wait, G: Witness>(
    rt: &R,
    alloc: Global,
    desk: &Desk<K>,
    pass: &mut Pass<K>,
    session: ParkedSession<K, I>,
    speech: &mut Speech,
    piece: &[u8],
    service: &Service<'_, K, I>,
    gate: &G,
) -> Progress<K, I>
    requires desk { I.desk ≡ Some desk.now }
    requires pass { IsOf desk.now pass.old }
    ensures { ServesPiece I.Session.protocol I.by desk.now pass.old pass.new }
{
    let Speech { output, scratch } = speech;
    if session.is_outdated(rt, service.entrance.login()) {
        let _ = output.extend_from_slice(REFUSED);
        return session.given_up();
    }
    let mut writer = Unbuffered::new(Outbox::new(output));
    session.feed(rt, alloc, desk, pass, scratch, &mut writer, gate, piece)
}

/// Goes on with a session by these bytes, line by line, as far as its client takes the answers.
pub(crate) fn converse<K: Keeper + Drop, I: Instance<K>, R: Wait, G: Witness>(
    rt: &R,
    alloc: Global,
    desk: &Desk<K>,
    pass: &mut Pass<K>,
    connection: &Connection,
    session: ParkedSession<K, I>,
    speech: &mut Speech,
    piece: &[u8],
    service: &Service<'_, K, I>,
    gate: &G,
) -> Spoken<K, I>
    requires desk { I.desk ≡ Some desk.now }
    requires pass { IsOf desk.now pass.old }
    ensures { ServesPieces I.Session.protocol I.by desk.now pass.old pass.new }
{
    let mut session = session;
    let mut taken = 0;
    for _ in rt.forever() {
        match has_room(rt, desk, pass, connection, &mut speech.output, service) {
            Some(true) => {}
            Some(false) => return Spoken::Waits(session, taken),
            None => return Spoken::Ended(session.fails(SessionFault::Write), None),
        }
        let was_logging_in = session.is_logging_in();
        let progress = if session.is_owing() {
            tell_on(session, speech)
        } else if taken < piece.len() {
            let left = &piece[taken..];
            answer_next(rt, alloc, desk, pass, session, speech, left, service, gate)
        } else {
            return Spoken::Waits(session, taken);
        };
        match progress {
            Progress::Parked(next, more) => {
                session = next;
                taken = taken.saturating_add(more);
            }
            Progress::Ended {
                summary,
                claimed,
                owed,
            } => return ended(was_logging_in, summary, claimed, owed, speech),
        }
    }
    unreachable!()
}
