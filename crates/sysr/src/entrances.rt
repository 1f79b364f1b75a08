//! Where a server listens.
ghost use Rattle.std.specs.Prelude.{◌≡◌, IfOk, map};
ghost use Rattle.std.specs.Option.{is_some};
ghost use Rattle.sysr.specs.Kept.{admittance_of};

use crate::command::{Serving, UserSocketWord};
use crate::lent::{Listeners, lent_listeners};
use crate::places::{Place, Places, places_of, refuse};
use crate::socket_files;
use door_core::{Entrance, Login, UserSocket};
use lines_core::{NO_MEMORY, SessionFault, fault_text, give_up};
use std::fs;
use std::net::TcpListener;
use std::os::unix::net::UnixListener;
use std::process::ExitCode;

/// Refuses words that name no place to listen at.
fn check(
    host: &HostRuntime,
    asked: Serving<'_>,
    sockets: &[UserSocketWord],
    is_lent: bool,
) -> Result<(), ExitCode> {
    let has_port = asked.port.is_some() || asked.pg_port.is_some();
    if is_lent || has_port || asked.socket.is_some() || !sockets.is_empty() {
        return Ok(());
    }
    let why = "serve needs --port, --pg-port, --socket, --user-socket, or a socket of a supervisor";
    Err(refuse(host, why))
}

fn told(host: &HostRuntime, written: std::io::Result<()>) -> Result<(), ExitCode> {
    match written {
        Ok(()) => Ok(()),
        Err(_) => Err(give_up(host, fault_text(SessionFault::Write))),
    }
}

/// Listens there, if that is asked for, and says so, and for whom.
fn port_at(
    host: &HostRuntime,
    place: Option<Place>,
    for_whom: &str,
) -> Result<Option<TcpListener>, ExitCode> {
    let Some(place) = place else {
        return Ok(None);
    };
    let Ok(listener) = TcpListener::bind(host, (place.address, place.port)) else {
        let _ = eprintln!(host; "sysr: cannot listen on {place}");
        return Err(ExitCode::FAILURE);
    };
    told(host, println!(host; "listening on {place}{for_whom}"))?;
    Ok(Some(listener))
}

/// Listens at a socket file, and says so.
fn file_at(host: &HostRuntime, path: &str, mode: u32) -> Result<UnixListener, ExitCode> {
    let listener = socket_files::listener_at(host, path, mode)?;
    told(host, println!(host; "listening at {path}"))?;
    Ok(listener)
}

/// Listens at a socket file of a user's own, and says so.
fn user_socket_at(host: &HostRuntime, word: &UserSocketWord) -> Result<UserSocket, ExitCode>
    ensures { IfOk result (λ socket. socket.user ≡ word.now.user) }
{
    let path = word.path.as_str();
    let listener = socket_files::user_listener_at(host, word.user, path)?;
    told(host, println!(host; "listening at {path}"))?;
    let user = word.user;
    Ok(UserSocket { user, listener })
}

/// Listens at the socket files of users' own, and says so.
fn user_sockets_at(
    host: &HostRuntime,
    words: &[UserSocketWord],
) -> Result<Vec<UserSocket>, ExitCode>
    ensures { IfOk result (λ sockets.
        map (λ s. s.user) sockets.items ≡ map (λ w. w.user) words.now) }
{
    let mut sockets = Vec::new(host.alloc());
    for word in words {
        let socket = user_socket_at(host, word)?;
        if sockets.push(socket).is_err() {
            return Err(give_up(host, NO_MEMORY));
        }
    }
    Ok(sockets)
}

/// The listeners that are asked for, of which the ports' are to be there.
fn listeners_of(
    host: &HostRuntime,
    asked: Serving<'_>,
    places: Places,
) -> Result<Listeners, ExitCode> {
    let port = port_at(host, places.port, "")?;
    let pg_port = port_at(host, places.pg_port, " for PostgreSQL's clients")?;
    let file = match asked.socket {
        Some(path) => Some(file_at(host, path, asked.mode)?),
        None => None,
    };
    Ok(Listeners {
        port,
        pg_port,
        file,
    })
}

fn entrance_at(
    host: &HostRuntime,
    listeners: Listeners,
    sockets: Vec<UserSocket>,
    login: Option<Login>,
    is_lent: bool,
) -> Result<Entrance, ExitCode>
    ensures { IfOk result (λ entrance. entrance ≡ record {
      login = is_some login;
      sockets = map (λ s. s.user) sockets.items;
    }) }
{
    let Listeners {
        port,
        pg_port,
        file,
    } = listeners;
    match Entrance::new(host, port, pg_port, file, sockets, login, is_lent) {
        Ok(entrance) => Ok(entrance),
        Err(_) => {
            let _ = eprintln!(host; "sysr: cannot listen");
            Err(ExitCode::FAILURE)
        }
    }
}

/// Where clients come in, and the socket file that was made for that, if one was.
#[derive(Drop)]
pub struct Opened<'a> {
    pub entrance: Entrance,
    pub made: Option<&'a str>,
}

/// Where clients come in: at the listeners of a supervisor, where it has opened some for this
/// process, and else at the ports and the socket file that are asked for; and at socket files of
/// users' own. It says where it listens. The error is the status, where it cannot, which is told.
pub fn entrance_of<'a>(
    host: &HostRuntime,
    asked: Serving<'a>,
    sockets: &[UserSocketWord],
    login: Option<Login>,
) -> Result<Opened<'a>, ExitCode>
    requires { is_some login ≡ is_some asked.users }
    ensures { IfOk result
        (λ opened. opened.entrance ≡ admittance_of asked.entry.users sockets.now) }
{
    let lent = lent_listeners(host);
    check(host, asked, sockets, lent.is_some())?;
    let places = places_of(host, asked)?;
    let (listeners, made, is_lent) = match lent {
        Some(lent) => {
            told(host, println!(host; "listening where the supervisor does"))?;
            (lent, None, true)
        }
        None => (listeners_of(host, asked, places)?, asked.socket, false),
    };
    let sockets = user_sockets_at(host, sockets)?;
    let entrance = entrance_at(host, listeners, sockets, login, is_lent)?;
    Ok(Opened { entrance, made })
}

/// Removes the socket file, if there is one.
pub fn remove(host: &HostRuntime, path: Option<&str>) {
    if let Some(path) = path {
        let _ = fs::remove_file(host, path);
    }
}

/// Removes the socket files of users' own.
pub fn remove_all(host: &HostRuntime, sockets: &[UserSocketWord]) {
    for socket in sockets {
        let _ = fs::remove_file(host, socket.path.as_str());
    }
}
