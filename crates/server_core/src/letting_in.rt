//! How a guest begins.
ghost use Rattle.door_core.specs.Entrance.{IsAdmitted};

use crate::connection::Connection;
use crate::instance::Instance;
use crate::leaving::{unserved, wait_first};
use crate::parked_session::ParkedSession;
use crate::service::Service;
use door_core::{Arrival, Log, Peer, Unmet, keep_alive};
use journal_core::Keeper;
use lines_core::Steady;
use std::alloc::Global;
use std::io::{Read, Write};
use std::net::{Shutdown, TcpStream};
use std::sync::Wait;
use std::time::Clock;

// What a client is told for whom no session is left.
const FULL: &[u8] = b"refused: sessions\n";

/// Tells a client that no session is left for him. He is not waited for.
fn tell_full(stream: &TcpStream) {
    if stream.set_nonblocking(true).is_ok() {
        let _ = Steady::new(stream).write(FULL);
        let _ = stream.shutdown(Shutdown::Write);
        // To close a connection with unread bytes would take the text from him.
        let _ = Steady::new(stream).read(&mut [0; 1024]);
    }
}

/// What comes of the look for a client for whom no session is left.
pub(crate) fn turn_away<K: Keeper + Drop, I: Instance<K>, R: Wait + Clock, G: Log>(
    rt: &R,
    service: &Service<'_, K, I>,
    came: Result<(TcpStream, Peer), Unmet>,
    log: &G,
) {
    match came {
        Ok((stream, peer)) => {
            service.entrance.ask_again();
            tell_full(&stream);
            log.turned_away(rt, peer);
        }
        Err(why) => unmet(service, why),
    }
}

/// What comes of it that nobody was let in.
pub(crate) fn unmet<K: Keeper + Drop, I: Instance<K>>(service: &Service<'_, K, I>, why: Unmet) {
    match why {
        Unmet::Nobody => service.entrance.ask_again(),
        Unmet::Failed => service.ask_later(),
        Unmet::Closed => service.close(),
    }
}

/// Has a client who was let in wait for what he says. For whom there is no memory is let go.
pub(crate) fn take_in<K: Keeper + Drop, I: Instance<K>, R: Wait + Clock, G: Log>(
    rt: &R,
    alloc: Global,
    arrival: Arrival,
    service: &Service<'_, K, I>,
    log: &G,
)
    requires { IsAdmitted I.by arrival.admission }
{
    let Arrival {
        stream,
        client,
        admission,
    } = arrival;
    service.counters.begin();
    log.begun(rt, client);
    // A stream that refuses such a setting serves as well.
    let _ = stream.set_nodelay(true);
    keep_alive(&stream);
    let is_still = stream.set_nonblocking(true).is_ok();
    let connection = Connection::new(alloc, stream, client);
    match ParkedSession::new(alloc, admission) {
        Ok(session) if is_still => wait_first(rt, alloc, connection, session, service, log),
        _ => unserved(rt, connection, service, log),
    }
}
