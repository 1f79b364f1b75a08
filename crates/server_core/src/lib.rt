//! Sessions over sockets: the workers that go on with them.
//!
//! A server shares one desk among threads, each with a pass of its own. [`work`] is what a worker's
//! thread does: it lets clients in at the [`Door`](door_core::Door), and goes on with whichever session has input,
//! piece by piece, through its pass. Its contract says that pieces of sessions went through the
//! pass and nothing else, and that the worker's token counts the sessions that it was admitted
//! (`specs/Sessions.antt`). Of each piece it says how far its session has come: it went by its
//! protocol, by the contract of its [`SessionMachine`](session_core::SessionMachine), through passes of
//! which each had seen no less than the session. So a session is a chain of pieces over the bytes of
//! one client, whichever worker answered which. No protocol is named here: which machine a session is
//! says the server's [`Instance`]. There too stands what a whole server leaves, of which the program's
//! threads make use. How a session comes by its user is a matter of the
//! [`Entrance`](door_core::Entrance). How many sessions run at once is a matter of [`Permits`].
//!
//! ```text
//! let (book, mut rest) = blank.open::<L>();                      // one part for each worker
//! let door = Mutex::new(Door::new(100, book));
//! let worker = Worker::new(pass, rest.split_off(1, 0), Room::new(alloc)?);
//! let worker = work(&rt, alloc, &desk, worker, &service, &door, &log);
//! let (pass, token) = worker.into_parts();
//! rest.merge(token);
//! door.into_inner().served(100, rest)?.sessions                  // 100
//! ```
//!
//! # Mechanism
//!
//! **A session between two pieces is a value.** It waits for its client in a slab, with the front
//! of a line, a login under way, and a note of what the pass had seen that it went through last.
//! Whoever goes on with it meets that note first, so its client sees its own writes. Its type bears
//! an [`Instance`]: which machine it is, and for contracts alone at which desk it is answered and how
//! its entrance admits, the [`Site`]. So what is proved of it goes with it through the slab.
//!
//! **All workers wait at the entrance** for all connections together. Of one that is ready one worker
//! is told, and nobody again until the session is parked anew: it is armed under the lock of its
//! slab, so whoever is told finds it there. Before it is parked he looks whether its client has said more,
//! up to eight times, since most say the next line once they have an answer. A session with much input hands
//! over behind 16,384 bytes.
//!
//! **What is answered is gathered, and sent as far as the client takes it.** Once 65,536 bytes wait
//! for him he is answered no further: the rest waits with the connection, what he has sent besides
//! with his session, and a long reply as a [`Pending`](reply_core::Pending), of which no text is made
//! before there is room for it. All that is sent before more of him is read, so he keeps nobody from a
//! worker.
//!
//! **Where it is asked for, nothing is told before it is durable.** What is sent of what was gathered takes
//! leave of a `Synced`, and one is made only of what a pass had seen, once all of that is durable: a sync was
//! made of a keeper that had kept it. A worker whose guests wait for that answers others who are ready
//! meanwhile, where no other worker would, and then syncs for all of them; who comes while another worker
//! syncs waits for it, and mostly finds that the next sync was of his too. So one sync serves many clients.
//!
//! **A login holds no worker.** Its messages are pieces as any others. The answer to its last is
//! held back where it is refused, and told a second later. A login is judged by the users of the
//! moment at which its client came, and refused where his line of the file is another by the time
//! of his last message.
//!
//! **One thread keeps the time**: [`watch`] has those go on whose time is over, and cuts those that
//! take nothing. While nobody's time runs it sleeps until it is rung for, so an idle server does
//! nothing. It listens to a [`Control`] too, who says that the server is to end. The entrance is
//! then closed, and each connection is shut for reading: a session answers the lines that it was
//! sent by then, and the front of a line that was not sent whole is nothing. A second word, or the
//! end of the grace, shuts connections for writing too. A control sees the [`Counters`] of what was
//! said and answered, and nothing of the desk.
//!
//! A server keeps the door's lock until all threads have started: where one can't be started, no
//! session is taken. An accept that fails is made again after 50 milliseconds. One session more than
//! the [`Manners`](door_core::Manners) allow is told so and is none.
//!
//! A session that has ended is shut for writing and then read for a while, since to close a socket
//! with unread bytes would take the last replies from the client. A fault of a session ends that
//! session, and is told; so is that of one whose change could not be kept, and others go on.
//!
//! With more threads than processors at the desk most would sleep there, and be woken for each
//! turn. So a session answers lines while it holds one of the [`Permits`], which are fewer, and
//! reads and writes without one; it goes on without one if none is free for some milliseconds.
//! Behind 32 lines it hands its permit to a session that waits, and one that has not run yet goes
//! before one that has. No contract speaks of permits.
//!
//! # Cost
//!
//! A worker has 96 KB. A session that waits has some 300 bytes, the front of its line, and what its
//! client has not taken: 65,536 bytes and one part of a reply (64 rows, or 129 records of an export) at
//! most, 16,384 bytes that he has sent, and the rows of a SELECT, shared with their table. The system
//! has its socket. Where no session
//! waits, its permit costs some five atomic steps for each piece of input. A piece costs two calls
//! of the system to hear of it and wait again, one to read it and one to write. A login costs five
//! HMACs, which is some 20 microseconds.
#![tactic(auto)]

mod attending;
mod bell;
mod connection;
mod control;
mod conversing;
mod counters;
mod counting;
mod guest;
mod hearing;
mod holding;
mod idle;
mod instance;
mod leaving;
mod letting_in;
mod lookout;
mod outbox;
mod outcome;
mod owing;
mod parked_session;
mod permit;
mod permits;
mod room;
mod service;
mod sessions;
mod sign;
mod syncing;
mod worker;

pub use bell::Bell;
pub use control::{Control, Measure, Order, watch};
pub use counters::{Counters, KINDS};
pub use instance::{AtSite, Instance, Site};
pub use lookout::Lookout;
pub use permits::Permits;
pub use room::Room;
pub use service::Service;
pub use sign::Sign;
pub use worker::{Worker, work};
