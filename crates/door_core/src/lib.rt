//! How clients come in at a server, and what is told of them.
//!
//! An [`Entrance`] is where they come in: a port, one for PostgreSQL's clients, a socket file, and
//! socket files of single users. It stands for whether clients have to log in, and for the users who
//! have sockets of their own. A [`Door`] stands for how many sessions were taken, how many are wanted,
//! and why no more is taken. How a session comes by its user is a matter of the entrance: where it has
//! a [`Login`], he logs in, unless he comes at a [`UserSocket`] of his own (`specs/Entrance.antt`).
//!
//! **The one contract** is that of [`Door::admit`] and [`Door::served`] together. A client is let in
//! only while the door is open. His session comes by its user as those of the entrance do, it has
//! the next number, and the token of the worker who serves it counts one more. Once all parts of the
//! token are back, they count just as many as the door has taken; and that number is told only where
//! it is the one that was asked for, or the server was stopped (`specs/Door.antt`).
//!
//! ```text
//! let entrance = Entrance::new(&rt, Some(port), None, None, sockets, login, false)?;
//! let (book, mut token) = blank.open::<L>();
//! let mut door = Door::new(100, book);
//! door.admit(&rt, &entrance, &mut token)?.client.number          // 1
//! door.stop();
//! door.admit(&rt, &entrance, &mut token)                         // Err(Unmet::Closed)
//! door.served(100, token)?                                       // Taken { sessions: 1, stopped: true }
//! ```
//!
//! What a [`SharedLog`] says of sessions is pinned, byte for byte, by `specs/Telling.antt`, in
//! private contracts. What [`Manners`] say of sessions is the server's to do.
//!
//! # Mechanism
//!
//! **The door counts.** It adds one to the token of the worker who admits a session, and has
//! counted as many in its book; once all parts of the token are back, both are compared, by proof.
//!
//! **All who wait at an entrance wait for all descriptors together**, in one set of the system's:
//! its [`Readiness`]. Of a descriptor that is ready one of them is told, and nobody again until it is
//! asked for anew. The listeners are in a set of their own, which is one descriptor of the first.
//! Once the entrance is rung, everyone who waits is woken for good.
//!
//! **No look for a client waits.** It goes over the ports, the file and the users' sockets by turns.
//! Where a listener itself is gone, the door is shut; of any other accept that fails a later one may
//! come to something. Behind the last session that is wanted the entrance is closed, so that who
//! connects is refused. Listeners that a supervisor has lent stay open: who connects then waits for
//! the next server.
//!
//! **A login has nonces of its own**: HMACs of numbers by a secret, so none is given twice. The users
//! of its file may change while it serves; who has come in is judged by those of the moment at which
//! he came.
//!
//! One thread keeps the time of a server, and sleeps while nobody's time runs; an [`Alarm`] wakes
//! it. Of a client that is silent the system asks whether it is there, once [`keep_alive`] has told
//! it to: one that is gone without a word is noticed after four minutes.
//!
//! A fault of a session is told on the error stream even where memory is wanting: then without its
//! number, which takes none.
//!
//! # Cost
//!
//! A look for a client costs a call of the system for each listener at most, and one who logs in an
//! HMAC for his nonce. To wait costs one call, and so does it to ask anew. A line of the log is made
//! in new memory, and written by one call, or by two with the time of day.
#![tactic(auto)]

mod alarm;
mod client;
mod clock;
mod door;
mod entrance;
mod fault;
mod keepalive;
mod log;
mod login;
mod manners;
mod polling;
mod readiness;
mod telling;
mod user_socket;

pub use alarm::Alarm;
pub use client::Client;
pub use door::{Arrival, Door, Taken, Unmet};
pub use entrance::{Entrance, Peer, Ready};
pub use fault::{ServeFault, Shut};
pub use keepalive::keep_alive;
pub use log::{Log, SharedLog};
pub use login::Login;
pub use manners::Manners;
pub use polling::wait_for_any;
pub use readiness::{Interest, Readiness};
pub use user_socket::UserSocket;
