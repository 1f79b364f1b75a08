//! What is told of sessions, by any thread.
use crate::client::Client;
use crate::clock::time_text;
use crate::entrance::Peer;
use crate::telling::{
    begun_line, denied_line, ended_line, full_line, numbered_fault, plain_fault, refused_line,
};
use base_core::{Name, NoMemory, User};
use reply_core::reply_text;
use session_core::{SessionEnd, Summary};
use std::alloc::Global;
use std::io::Write;
use std::sync::{Mutex, Wait};
use std::time::Clock;
use system_core::Reply;

/// Where sessions are told of. It is a trait so that no closure of a thread holds a `&mut`: of one
/// that does, no caller learns what it ensures. A failure to tell is forgotten.
pub trait Log {
    /// Tells that a session begins.
    fn begun<R: Wait + Clock>(&self, rt: &R, client: Client);

    /// Tells why a session ended before its input did, and whether its client took too long.
    fn fault<R: Wait + Clock>(&self, rt: &R, client: Client, ended: SessionEnd, is_late: bool);

    /// Tells that a session ended, and what is told of it.
    fn ended<R: Wait + Clock>(&self, rt: &R, client: Client, summary: &Summary);

    /// Tells that a login of this user, if he has said who he is, was refused.
    fn login_refused<R: Wait + Clock>(&self, rt: &R, peer: Peer, user: Option<Name>);

    /// Tells that a client was turned away, as too many sessions were open.
    fn turned_away<R: Wait + Clock>(&self, rt: &R, peer: Peer);

    /// Tells what the desk denied the user of the session of this number.
    fn denied<R: Wait + Clock>(&self, rt: &R, number: u64, user: &User, reply: &Reply);
}

/// A writer that threads share. Faults, refused logins and clients who were turned away are told
/// always. Where sessions begin and end is told only if it is so said; then faults are told with
/// the session's number and, of an idle client, as such, unless there was no memory for that.
/// Denials are told only if it is so said, and so is the time of day before each line.
#[derive(Drop)]
pub struct SharedLog<'a, W> {
    pub alloc: Global,
    pub writer: Mutex<&'a mut W>,
    pub sessions: bool,
    pub denials: bool,
    pub times: bool,
}

impl<'a, W: Write> SharedLog<'a, W> {
    /// Writes a line by one call, behind the time of day, if that is told. A fault of the log can
    /// be told nowhere.
    fn write<R: Wait + Clock>(&self, rt: &R, line: &[u8]) {
        let time = if self.times {
            time_text(rt, self.alloc)
        } else {
            None
        };
        let mut writer = self.writer.lock(rt);
        if let Some(time) = time {
            let _ = write!(*writer, "{time} ");
        }
        let _ = writer.write_all(line);
    }

    /// Writes a line by one call, if there was memory for it.
    fn write_made<R: Wait + Clock>(&self, rt: &R, line: Result<Vec<u8>, NoMemory>) {
        if let Ok(line) = line {
            self.write(rt, line.as_slice());
        }
    }
}

/// The client's address as text.
fn peer_text(alloc: Global, peer: Peer) -> Result<String, NoMemory> {
    match peer {
        Peer::Address(address) => Ok(format!(in alloc; "{address}")?),
        Peer::Local => Ok(format!(in alloc; "local")?),
    }
}

fn begun(alloc: Global, client: Client) -> Result<Vec<u8>, NoMemory> {
    let peer = peer_text(alloc, client.peer)?;
    begun_line(alloc, client.number, peer.as_str())
}

fn ended(alloc: Global, client: Client, summary: &Summary) -> Result<Vec<u8>, NoMemory> {
    let peer = peer_text(alloc, client.peer)?;
    ended_line(alloc, client.number, peer.as_str(), summary)
}

fn login_refused(alloc: Global, peer: Peer, user: Option<Name>) -> Result<Vec<u8>, NoMemory> {
    let peer = peer_text(alloc, peer)?;
    refused_line(alloc, user.map(User), peer.as_str())
}

fn turned_away(alloc: Global, peer: Peer) -> Result<Vec<u8>, NoMemory> {
    let peer = peer_text(alloc, peer)?;
    full_line(alloc, peer.as_str())
}

fn denied(alloc: Global, number: u64, user: &User, reply: &Reply) -> Result<Vec<u8>, NoMemory> {
    let said = reply_text(alloc, reply)?;
    denied_line(alloc, number, user, said.as_slice())
}

impl<'a, W: Write> Log for SharedLog<'a, W> {
    fn begun<R: Wait + Clock>(&self, rt: &R, client: Client) {
        if self.sessions {
            self.write_made(rt, begun(self.alloc, client));
        }
    }

    fn fault<R: Wait + Clock>(&self, rt: &R, client: Client, ended: SessionEnd, is_late: bool) {
        if self.sessions
            && let Ok(line) = numbered_fault(self.alloc, client.number, ended, is_late)
        {
            return self.write(rt, line.as_slice());
        }
        self.write(rt, plain_fault(ended).as_bytes());
    }

    fn ended<R: Wait + Clock>(&self, rt: &R, client: Client, summary: &Summary) {
        if self.sessions {
            self.write_made(rt, ended(self.alloc, client, summary));
        }
    }

    fn login_refused<R: Wait + Clock>(&self, rt: &R, peer: Peer, user: Option<Name>) {
        self.write_made(rt, login_refused(self.alloc, peer, user));
    }

    fn turned_away<R: Wait + Clock>(&self, rt: &R, peer: Peer) {
        self.write_made(rt, turned_away(self.alloc, peer));
    }

    fn denied<R: Wait + Clock>(&self, rt: &R, number: u64, user: &User, reply: &Reply) {
        if self.denials {
            self.write_made(rt, denied(self.alloc, number, user, reply));
        }
    }
}
