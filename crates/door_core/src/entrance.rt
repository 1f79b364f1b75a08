//! Where clients come in.
ghost use Rattle.std.specs.Prelude.{◌≡◌, map, Contains, None, IfOk, IfSome};
ghost use Rattle.std.specs.Option.{is_some};

use crate::alarm::Alarm;
use crate::login::Login;
use crate::readiness::{Interest, NO_LIMIT, NO_WAIT, Readiness};
use crate::user_socket::UserSocket;
use base_core::User;
use libc::net::SHUT_RDWR;
use std::io;
use std::io::{Error, ErrorKind};
use std::marker::Model;
use std::net::{Net, Shutdown, SocketAddr, TcpListener, TcpStream};
use std::os::fd::{AsRawFd, OwnedFd};
use std::os::unix::net::{UnixListener, UnixStream};
use std::sync::atomic::{AtomicU64, Ordering};

// The system's errors that say that a descriptor is no socket that listens.
const EBADF: i32 = 9;

const EFAULT: i32 = 14;

const EINVAL: i32 = 22;

const ENOTSOCK: i32 = 88;

const EOPNOTSUPP: i32 = 95;

/// From where a client came.
#[derive(Clone, Copy)]
pub enum Peer {
    /// From this address, to one of the ports.
    Address(SocketAddr),
    /// From this machine, to a socket file.
    Local,
}

/// Who has come in, from where, and at whose socket, if it is a user's.
#[derive(Drop)]
pub(crate) struct Came {
    pub stream: TcpStream,
    pub peer: Peer,
    pub user: Option<User>,
}

/// Why nobody has come in.
#[derive(Clone, Copy, Debug, PartialEq, Eq)]
pub(crate) enum Missed {
    /// Nobody is there.
    Nobody,
    /// A listener is gone: no later call can come to anything.
    Gone,
    /// A later call may come to something.
    Failed,
}

/// Where clients come in: at a port, at one for PostgreSQL's clients, at a socket file, and at sockets
/// of single users. Who comes at one of these sockets is that user; others have to log in, if there is
/// a login. Contracts see whether there is, and the users of the sockets.
#[derive(Drop)]
pub struct Entrance {
    port: Option<TcpListener>,
    pg_port: Option<TcpListener>,
    file: Option<UnixListener>,
    sockets: Vec<UserSocket>,
    login: Option<Login>,
    // A supervisor has opened them, and lets clients wait there when no server takes them.
    is_lent: bool,
    // How often it looked for a client. It begins at each of the places in turn.
    looks: AtomicU64,
    // Once the bell is shut, everyone who waits here is woken.
    bell: UnixStream,
    ear: UnixStream,
    alarm: Alarm,
    listeners: Readiness,
    readiness: Readiness,
}

// The ports, the socket file, and the users' sockets together.
const PLACES: u64 = 4;

// The numbers of the listeners together and of the ear. Those of sessions are below.
const DOOR: u64 = u64::MAX;

const EAR: u64 = u64::MAX - 1;

/// What a worker waits for.
#[derive(Clone, Copy, Debug, PartialEq, Eq)]
pub enum Ready {
    /// Somebody may come in.
    Door,
    /// The session that waits under this number may go on.
    Session(u64),
    /// Neither by now; or the bell was rung, or a signal came.
    Nothing,
}

impl Model for Entrance {
    ghost use Rattle.std.specs.Prelude.{map};
    ghost use Rattle.std.specs.Option.{is_some};
    ghost use Rattle.door_core.specs.Entrance.{Admittance};

    ghost Value = { Admittance };

    ghost view = { λ e. record {
      login = is_some e.login;
      sockets = map (λ s. s.user) e.sockets.items;
    } };
}

/// Whether no later call can accept a session.
fn is_gone(error: &Error) -> bool {
    match error.raw_os_error() {
        Some(EBADF | EFAULT | EINVAL | ENOTSOCK | EOPNOTSUPP) => true,
        _ => false,
    }
}

fn missed_by(error: &Error) -> Missed {
    if error.kind() == ErrorKind::WouldBlock {
        Missed::Nobody
    } else if is_gone(error) {
        Missed::Gone
    } else {
        Missed::Failed
    }
}

fn at_port(port: &Option<TcpListener>) -> Result<Came, Missed>
    ensures { IfOk result (λ came. came.user ≡ None) }
{
    let Some(port) = port else {
        return Err(Missed::Nobody);
    };
    match port.accept() {
        Ok((stream, address)) => Ok(Came {
            stream,
            peer: Peer::Address(address),
            user: None,
        }),
        Err(error) => Err(missed_by(&error)),
    }
}

/// A client at the socket file, which is this user's, if it is one's. A stream does by its
/// descriptor what it does, whatever its family.
fn at_file(file: &UnixListener, user: Option<User>) -> Result<Came, Missed>
    ensures { IfOk result (λ came. came.user ≡ user) }
{
    match file.accept() {
        Ok((stream, _)) => Ok(Came {
            stream: TcpStream::from(OwnedFd::from(stream)),
            peer: Peer::Local,
            user,
        }),
        Err(error) => Err(missed_by(&error)),
    }
}

fn at_sockets(sockets: &[UserSocket]) -> Result<Came, Missed>
    ensures { IfOk result
        (λ came. IfSome came.user (λ user. Contains (map (λ s. s.user) sockets.now) user)) }
{
    for socket in sockets {
        match at_file(&socket.listener, Some(socket.user)) {
            Err(Missed::Nobody) => {}
            tried => return tried,
        }
    }
    Err(Missed::Nobody)
}

fn descriptor<T: AsRawFd>(listener: &Option<T>) -> i32 {
    match listener {
        Some(listener) => listener.as_raw_fd(),
        None => -1,
    }
}

/// What the system could not do.
fn done(is_done: bool) -> io::Result<()> {
    if is_done {
        Ok(())
    } else {
        Err(Error::from(ErrorKind::Other))
    }
}

/// Has no call at this port wait, and waits for it too, if there is one.
fn watch_port(listeners: &Readiness, port: &Option<TcpListener>) -> io::Result<()> {
    if let Some(port) = port {
        port.set_nonblocking(true)?;
        done(listeners.add_for_all(port.as_raw_fd(), DOOR))?;
    }
    Ok(())
}

/// Has no call at these listeners wait, and waits for all of them together.
fn watch_all<N: Net>(
    net: &N,
    port: &Option<TcpListener>,
    pg_port: &Option<TcpListener>,
    file: &Option<UnixListener>,
    sockets: &[UserSocket],
) -> io::Result<Readiness> {
    let listeners = Readiness::new(net)?;
    watch_port(&listeners, port)?;
    watch_port(&listeners, pg_port)?;
    if let Some(file) = file {
        file.set_nonblocking(true)?;
        done(listeners.add_for_all(file.as_raw_fd(), DOOR))?;
    }
    for socket in sockets {
        socket.listener.set_nonblocking(true)?;
        done(listeners.add_for_all(socket.listener.as_raw_fd(), DOOR))?;
    }
    Ok(listeners)
}

impl Entrance {
    /// An entrance at these listeners, from which no call waits from now on, where clients log in,
    /// if there is a login. Where the listeners are lent, closing the entrance leaves them as they
    /// are. An error is the system's.
    pub fn new<N: Net>(
        net: &N,
        port: Option<TcpListener>,
        pg_port: Option<TcpListener>,
        file: Option<UnixListener>,
        sockets: Vec<UserSocket>,
        login: Option<Login>,
        is_lent: bool,
    ) -> io::Result<Entrance>
        ensures { IfOk result (λ entrance. entrance ≡ record {
          login = is_some login;
          sockets = map (λ s. s.user) sockets.items;
        }) }
    {
        let listeners = watch_all(net, &port, &pg_port, &file, sockets.as_slice())?;
        let (bell, ear) = UnixStream::pair(net)?;
        let alarm = Alarm::new(net)?;
        let readiness = Readiness::new(net)?;
        done(readiness.add(listeners.as_raw_fd(), Interest::Input, DOOR))?;
        done(readiness.add_for_all(ear.as_raw_fd(), EAR))?;
        Ok(Entrance {
            port,
            pg_port,
            file,
            sockets,
            login,
            is_lent,
            looks: AtomicU64::new(0),
            bell,
            ear,
            alarm,
            listeners,
            readiness,
        })
    }

    /// Who may log in here, if clients have to.
    pub fn login(&self) -> Option<&Login>
        ensures { is_some result ≡ self.now.login }
    {
        self.login.as_ref()
    }

    /// Has it take no further client: who connects from now on is refused, or, where a supervisor has
    /// opened the listeners, waits for another server. Where it was closed before nothing changes.
    pub fn close(&self) {
        // What is closed already takes no client either.
        if !self.is_lent {
            let _ = libc::net::shutdown(descriptor(&self.port), SHUT_RDWR);
            let _ = libc::net::shutdown(descriptor(&self.pg_port), SHUT_RDWR);
            let _ = libc::net::shutdown(descriptor(&self.file), SHUT_RDWR);
        }
        for socket in self.sockets.iter() {
            let _ = libc::net::shutdown(socket.listener.as_raw_fd(), SHUT_RDWR);
        }
    }

    /// Wakes everyone who waits here, for good: from now on nobody waits.
    pub fn ring(&self) {
        let _ = self.bell.shutdown(Shutdown::Both);
    }

    /// What wakes who watches over the time of those who have come in.
    pub fn alarm(&self) -> &Alarm {
        &self.alarm
    }

    /// The descriptors for which everyone waits here. Sessions are added by numbers of their own, below
    /// 2^64 - 2.
    pub fn readiness(&self) -> &Readiness {
        &self.readiness
    }

    /// Waits until somebody may come in, or a session may go on, or the bell was rung. Of somebody who may
    /// come in one is told, and nobody again until it is asked for.
    pub fn wait(&self) -> Ready {
        self.ready_within(NO_LIMIT)
    }

    /// The same, of what is ready by now: it does not wait.
    pub fn ready(&self) -> Ready {
        self.ready_within(NO_WAIT)
    }

    fn ready_within(&self, millis: i32) -> Ready {
        match self.readiness.wait(millis) {
            Some(DOOR) => Ready::Door,
            Some(EAR) | None => Ready::Nothing,
            Some(number) => Ready::Session(number),
        }
    }

    /// From now on one who waits is told again where somebody may come in, also of who is there already.
    pub fn ask_again(&self) {
        let descriptor = self.listeners.as_raw_fd();
        let _ = self.readiness.again(descriptor, Interest::Input, DOOR);
    }

    fn look_at(&self, place: u64) -> Result<Came, Missed>
        ensures { IfOk result
            (λ came. IfSome came.user (λ user. Contains self.now.sockets user)) }
    {
        match (place, &self.file) {
            (0, _) => at_port(&self.port),
            (1, _) => at_port(&self.pg_port),
            (2, Some(file)) => at_file(file, None),
            (2, None) => Err(Missed::Nobody),
            _ => at_sockets(self.sockets.as_slice()),
        }
    }

    /// The next client, if one is there. It does not wait.
    pub(crate) fn look(&self) -> Result<Came, Missed>
        ensures { IfOk result
            (λ came. IfSome came.user (λ user. Contains self.now.sockets user)) }
    {
        let first = self.looks.fetch_add(1, Ordering::SeqCst) % PLACES;
        for turn in 0..PLACES {
            match self.look_at((first + turn) % PLACES) {
                Err(Missed::Nobody) => {}
                tried => return tried,
            }
        }
        Err(Missed::Nobody)
    }
}
