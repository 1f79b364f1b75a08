//! Where sessions come in.
ghost use Rattle.std.specs.Prelude.{◌≡◌, ◌↔◌, ◌+◌, ◌<◌, Some, None, false, Contains, IsSome, IfOk, IfErr, IfSome, IsErrOf, OnOk, OnErr};
ghost use Rattle.std.specs.Option.{is_some};
ghost use Rattle.door_core.specs.Door.{IsOpen, after_look};
ghost use Rattle.door_core.specs.Entrance.{Admittance, IsAdmitted};

use crate::client::Client;
use crate::entrance::{Came, Entrance, Missed, Peer};
use crate::fault::{ServeFault, Shut};
use crate::login::Login;
use base_core::User;
use session_core::Admission;
use std::marker::Model;
use std::net::TcpStream;
use std::sync::Wait;
use std::sync::ledger::{Book, Ledger, Share};

/// Who was let in, and how his session comes by its user.
#[derive(Drop)]
pub struct Arrival {
    pub stream: TcpStream,
    pub client: Client,
    pub admission: Admission,
}

/// Why nobody was let in.
#[derive(Clone, Copy, Debug, PartialEq, Eq)]
pub enum Unmet {
    /// Nobody is there.
    Nobody,
    /// Nobody is let in any more.
    Closed,
    /// A later call may come to something.
    Failed,
}

/// How many sessions were taken, and whether no further one was as the server was to stop.
#[derive(Clone, Copy, Debug, PartialEq, Eq)]
pub struct Taken {
    pub sessions: u64,
    pub stopped: bool,
}

/// How many sessions were taken, how many are wanted, and why no more is taken, if there is a
/// reason. For each session that is taken it adds one to the token of the worker who serves it: so
/// the tokens of all workers have as many as were taken. Contracts see the two numbers and the
/// reason.
#[derive(Drop)]
pub struct Door<L: Ledger> {
    taken: u64,
    wanted: u64,
    shut: Option<Shut>,
    tokens: Book<L>,
}

impl<L: Ledger> Model for Door<L> {
    ghost use Rattle.std.specs.Prelude.{◌≡◌};
    ghost use Rattle.door_core.specs.Door.{Intake};

    ghost Value = { Intake };

    ghost view = { λ d. record { taken = d.taken; wanted = d.wanted; shut = d.shut } };

    ghost invariant = { λ d. d.taken ≡ d.tokens.total };
}

impl<L: Ledger> Door<L> {
    /// So many sessions are wanted, and none was taken: all tokens together have nothing.
    pub fn new(wanted: u64, tokens: Book<L>) -> Door<L>
        requires { tokens.total ≡ 0 }
        ensures { result ≡ record { taken = 0; wanted = wanted; shut = None } }
    {
        Door {
            taken: 0,
            wanted,
            shut: None,
            tokens,
        }
    }

    /// No further session is taken, for this fault.
    pub fn shut(&mut self, fault: ServeFault)
        ensures { self.new ≡ record self.old { shut = Some (Shut.Fault fault) } }
    {
        self.shut = Some(Shut::Fault(fault));
    }

    /// No further session is taken, as the server is to stop. One that was shut for a fault stays
    /// so.
    pub fn stop(&mut self)
        ensures open { self.old.shut ≡ None
            → self.new ≡ record self.old { shut = Some Shut.Stopped } }
        ensures shut { IsSome self.old.shut → self.new ≡ self.old }
    {
        if self.shut.is_none() {
            self.shut = Some(Shut::Stopped);
        }
    }

    /// The number of sessions that were taken: just as many as all tokens have, and as were asked
    /// for, unless the server was to stop. Else why there are fewer: the fault for which it was
    /// shut, or `Accept`.
    pub fn served(self, asked: u64, all: Share<L>) -> Result<Taken, ServeFault>
        requires { all.parts ≡ L.parts }
        ensures asked { IfOk result (λ t. t.stopped ≡ false → t.sessions ≡ asked) }
        ensures tokens { IfOk result (λ t. t.sessions ≡ all.amount) }
    {
        let Door {
            taken,
            wanted: _,
            shut,
            mut tokens,
        } = self;
        let mut all = all;
        tokens.audit(&mut all);
        let (sessions, stopped) = (taken, shut == Some(Shut::Stopped));
        match shut {
            Some(Shut::Fault(fault)) => Err(fault),
            None if taken != asked => Err(ServeFault::Accept),
            _ => Ok(Taken { sessions, stopped }),
        }
    }

    /// Counts one more session, which the token's holder serves.
    fn count(&mut self, token: &mut Share<L>)
        requires token { 0 < token.old.parts }
        requires wanted { self.old.taken < self.old.wanted }
        ensures counted { self.new ≡ record self.old { taken = self.old.taken + 1 } }
        ensures amount { token.new.amount ≡ token.old.amount + 1 }
        ensures parts { token.new.parts ≡ token.old.parts }
    {
        // The sum is in the range of what is wanted.
        let _wanted = self.wanted;
        let Door { taken, tokens, .. } = self;
        tokens.add(token, 1);
        *taken += 1;
    }

    /// The next client, if one is there.
    fn next(&mut self, entrance: &Entrance) -> Result<Came, Unmet>
        ensures user { IfOk result
            (λ came. IfSome came.user (λ user. Contains entrance.now.sockets user)) }
        ensures met { OnOk result (self.new ≡ self.old) }
        ensures unmet { IfErr result (λ why. self.new ≡ after_look self.old why) }
        ensures taken { self.new.taken ≡ self.old.taken }
    {
        match entrance.look() {
            Ok(came) => Ok(came),
            Err(Missed::Nobody) => Err(Unmet::Nobody),
            Err(Missed::Failed) => Err(Unmet::Failed),
            Err(Missed::Gone) => {
                self.shut(ServeFault::Accept);
                Err(Unmet::Closed)
            }
        }
    }

    /// Lets the next client in, whose session has the next number, and comes by its user as those of
    /// the entrance do. It does not wait for one, but for the file of users, while another thread has it.
    ///
    /// `Closed` where the door was shut, or as many were taken as are wanted; and where a listener is
    /// gone, for which it is shut then. `Nobody` where no client is there. `Failed` where the system
    /// could not accept one, or there was no room to count one more who has the file of users: then a
    /// client who was there is gone.
    pub fn admit<R: Wait>(
        &mut self,
        rt: &R,
        entrance: &Entrance,
        token: &mut Share<L>,
    ) -> Result<Arrival, Unmet>
        requires { 0 < token.old.parts }
        ensures open { OnOk result (IsOpen self.old) }
        ensures right { IfOk result (λ arrival. IsAdmitted entrance.now arrival.admission) }
        ensures taken { IfOk result (λ arrival. (arrival.client.number ≡ self.old.taken + 1)
            × (self.new ≡ record self.old { taken = self.old.taken + 1 })) }
        ensures closed { ¬ IsOpen self.old
            → IsErrOf result Unmet.Closed × (self.new ≡ self.old) }
        ensures unmet { IfErr result
            (λ why. IsOpen self.old → self.new ≡ after_look self.old why) }
        ensures refused { OnErr result (self.new.taken ≡ self.old.taken) }
        ensures one { OnOk result (token.new.amount ≡ token.old.amount + 1) }
        ensures nobody { OnErr result (token.new.amount ≡ token.old.amount) }
        ensures parts { token.new.parts ≡ token.old.parts }
    {
        if self.shut.is_some() || self.taken >= self.wanted {
            return Err(Unmet::Closed);
        }
        let Came { stream, peer, user } = self.next(entrance)?;
        let Some(admission) = admission_of(rt, user, entrance.login()) else {
            return Err(Unmet::Failed);
        };
        self.count(token);
        let number = self.taken;
        Ok(Arrival {
            stream,
            client: Client { peer, number },
            admission,
        })
    }

    /// Accepts the next client, for whom no session is left: he is not counted. Each error is that of
    /// [`admit`](Door::admit).
    pub fn turn_away(&mut self, entrance: &Entrance) -> Result<(TcpStream, Peer), Unmet>
        ensures open { OnOk result (IsOpen self.old) }
        ensures met { OnOk result (self.new ≡ self.old) }
        ensures closed { ¬ IsOpen self.old
            → IsErrOf result Unmet.Closed × (self.new ≡ self.old) }
        ensures unmet { IfErr result
            (λ why. IsOpen self.old → self.new ≡ after_look self.old why) }
        ensures taken { self.new.taken ≡ self.old.taken }
    {
        if self.is_closed() {
            return Err(Unmet::Closed);
        }
        let Came { stream, peer, .. } = self.next(entrance)?;
        Ok((stream, peer))
    }

    /// Whether nobody is let in any more.
    pub fn is_closed(&self) -> bool
        ensures { (result ≡ false) ↔ IsOpen self.now }
    {
        self.shut.is_some() || self.taken >= self.wanted
    }
}

/// How a client's session comes by its user who came at this user's socket, if he did. None where there
/// was no room to count one more who has the file of users.
fn admission_of<R: Wait>(rt: &R, user: Option<User>, login: Option<&Login>) -> Option<Admission>
    ensures { (by : Admittance) → by.login ≡ is_some login.entry
        → IfSome user (λ user. Contains by.sockets user)
        → IfSome result (λ admission. IsAdmitted by admission) }
{
    match (user, login) {
        (Some(user), _) => Some(Admission::Known(user)),
        (None, None) => Some(Admission::Anyone),
        (None, Some(login)) => Some(Admission::Login {
            file: login.file(rt)?,
            secret: *login.secret(),
            own: login.nonce(),
        }),
    }
}
