//! A session of lines that is parked between two pieces of what its client sends.
ghost use Rattle.std.specs.Prelude.{◌≡◌};

use crate::admission::Admission;
use crate::answering::Session;
use crate::meeting::meet;
use crate::scratch::Scratch;
use crate::session::end_of;
use crate::session_machine::SessionMachine;
use crate::summary::Summary;
use crate::witness::Witness;
use base_core::{Broken, Gate, Moment, Sink, User};
use desk_core::{Desk, Note, Pass};
use journal_core::Keeper;
use lines_core::{Feeding, SessionFault};
use login_core::Beginning;
use reply_core::Pending;
use std::alloc::{AllocError, Global};
use std::marker::Model;
use std::sync::Wait;

/// What lies between two pieces of a session of lines: the front of a line, a login under way, the user, what
/// is told of the session, and a note of what the pass had seen that it went through last. Any worker can
/// go on with it, through a pass that meets the note.
#[derive(Drop)]
pub struct Parked<K: Keeper + Drop> {
    feeding: Feeding,
    begun: Option<Beginning>,
    user: Option<User>,
    over: bool,
    unkept: bool,
    answered: u64,
    moment: Option<Moment>,
    owed: Option<Pending>,
    note: Option<Note<K>>,
}

impl<K: Keeper + Drop> Model for Parked<K> {
    ghost use Rattle.session_core.specs.Parking.{ParkedState};

    ghost Value = { ParkedState K };

    ghost view = { λ p. record {
      feeding = p.feeding;
      begun = p.begun;
      user = p.user;
      over = p.over;
      unkept = p.unkept;
      answered = p.answered;
      moment = p.moment;
      owed = p.owed;
      note = p.note;
    } };
}

/// What is told of a session by its lines.
#[derive(Clone, Copy)]
struct Standing {
    user: Option<User>,
    over: bool,
    unkept: bool,
    answered: u64,
    moment: Option<Moment>,
}

impl<'a, K: Keeper + Drop, R: Wait, G: Witness> Session<'a, K, R, G> {
    /// What is told of the session by its lines so far.
    fn standing(&self) -> Standing
        ensures { result ≡ record {
          user = self.now.user;
          over = self.now.over;
          unkept = self.now.unkept;
          answered = self.now.answered;
          moment = self.now.moment;
        } }
    {
        Standing {
            user: self.user,
            over: self.over,
            unkept: self.unkept,
            answered: self.answered,
            moment: self.moment,
        }
    }
}

impl<K: Keeper + Drop> SessionMachine<K> for Parked<K> {
    ghost use Rattle.session_core.specs.LoggedIn.{HasComeAs};
    ghost use Rattle.session_core.specs.Parking.{HasCome, HasEnded, OwesReply, SpeaksLines, machine_state};
    ghost use Rattle.session_core.specs.Stopping.{HasCome-stops, HasCome-breaks, HasCome-unseen, HasEnded-unseen, HasEnded-spoken, OwesReply-payable, OwesReply-settled};
    ghost use Rattle.session_core.specs.Showing.{SpeaksLines-rightful};

    ghost protocol = { SpeaksLines };

    ghost right = { HasComeAs };

    ghost state = { machine_state };

    ghost come = { HasCome };

    ghost ended = { HasEnded };

    ghost owes = { OwesReply };

    fn new(alloc: Global) -> Result<Parked<K>, AllocError> {
        let feeding = Feeding::new(alloc)?;
        Ok(Parked {
            feeding,
            begun: None,
            user: None,
            over: false,
            unkept: false,
            answered: 0,
            moment: None,
            owed: None,
            note: None,
        })
    }

    fn unread(&self) -> u64 {
        self.feeding.unread()
    }

    fn is_over(&self) -> bool {
        self.over
    }

    fn user(&self) -> Option<User> {
        self.user
    }

    fn begun(&self) -> Option<&Beginning> {
        self.begun.as_ref()
    }

    fn is_owing(&self) -> bool {
        self.owed.is_some()
    }

    fn feed<'x, R: Wait, W: Sink, G: Witness>(
        &mut self,
        rt: &'x R,
        alloc: Global,
        desk: &'x Desk<K>,
        pass: &'x mut Pass<K>,
        admission: &'x Admission,
        scratch: &'x mut Scratch,
        writer: &mut W,
        gate: &'x G,
        piece: &[u8],
    ) -> Result<usize, Broken> {
        let seen = self.note.take();
        meet(desk, &mut *pass, seen);
        let mut begun = self.begun.take();
        let mut owed = None;
        let mut session = Session {
            rt,
            alloc,
            desk,
            pass,
            gate,
            tokens: &mut scratch.tokens,
            buffer: &mut scratch.buffer,
            admission,
            begun: &mut begun,
            owed: &mut owed,
            holds: true,
            user: self.user,
            over: self.over,
            unkept: self.unkept,
            answered: self.answered,
            moment: self.moment,
        };
        let fed = self.feeding.feed_line(&mut session, writer, piece);
        let note = session.desk.note(session.pass);
        let standing = session.standing();
        self.begun = begun;
        self.owed = owed;
        self.user = standing.user;
        self.over = standing.over;
        self.unkept = standing.unkept;
        self.answered = standing.answered;
        self.moment = standing.moment;
        self.note = Some(note);
        fed
    }

    fn go_on<W: Sink, G: Gate>(
        &mut self,
        scratch: &mut Scratch,
        writer: &mut W,
        gate: &G,
    ) -> Result<(), Broken> {
        if let Some(pending) = self.owed.take() {
            self.owed = pending.go_on(&mut scratch.buffer, writer, gate)?;
        }
        Ok(())
    }

    fn finish<'x, R: Wait, W: Sink, G: Witness>(
        &mut self,
        rt: &'x R,
        alloc: Global,
        desk: &'x Desk<K>,
        pass: &'x mut Pass<K>,
        admission: &'x Admission,
        scratch: &'x mut Scratch,
        writer: &mut W,
        gate: &'x G,
    ) -> Result<(), Broken> {
        meet(desk, &mut *pass, self.note.take());
        let mut begun = self.begun.take();
        let mut owed = None;
        let mut session = Session {
            rt,
            alloc,
            desk,
            pass,
            gate,
            tokens: &mut scratch.tokens,
            buffer: &mut scratch.buffer,
            admission,
            begun: &mut begun,
            owed: &mut owed,
            holds: true,
            user: self.user,
            over: self.over,
            unkept: self.unkept,
            answered: self.answered,
            moment: self.moment,
        };
        let finished = self.feeding.finish(&mut session, writer);
        let note = session.desk.note(session.pass);
        let standing = session.standing();
        self.begun = begun;
        self.owed = owed;
        self.user = standing.user;
        self.over = standing.over;
        self.unkept = standing.unkept;
        self.answered = standing.answered;
        self.moment = standing.moment;
        self.note = Some(note);
        finished?;
        Ok(())
    }

    fn summary(&self, served: Result<(), SessionFault>) -> Summary {
        Summary {
            user: self.user,
            lines: self.answered,
            moment: self.moment,
            ended: end_of(self.unkept, served),
        }
    }

    ghost stops = { HasCome-stops };

    ghost payable = { OwesReply-payable };

    ghost settled = { OwesReply-settled };

    ghost breaks = { HasCome-breaks };

    ghost come_unseen = { HasCome-unseen };

    ghost ended_unseen = { HasEnded-unseen };

    ghost spoken = { HasEnded-spoken };

    ghost rightful = { SpeaksLines-rightful };
}
