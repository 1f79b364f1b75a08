//! A session between two pieces, and by what right its client was let in.
ghost use Rattle.std.specs.Prelude.{◌≡◌, ◌≤◌, Some, None, false, length, IfOk, OnOk};
ghost use Rattle.std.specs.Option.{is_some};
ghost use Rattle.desk_core.specs.Guarded.{DeskLock};
ghost use Rattle.door_core.specs.Entrance.{IsAdmitted};
ghost use Rattle.server_core.specs.Sessions.{IsOf, ServesPiece, nothing_known, lock_told};

use crate::instance::Instance;
use crate::owing::Owing;
use base_core::{Gate, Name, Sink};
use desk_core::{Desk, Pass};
use door_core::Login;
use journal_core::Keeper;
use login_core::Beginning;
use session_core::{Admission, Scratch, SessionFault, SessionMachine, Summary, Witness};
use std::alloc::{AllocError, Global};
use std::marker::PhantomData;
use std::sync::Wait;

/// A session between two pieces, and by what right its client was let in. Whichever worker goes on with
/// it, it went by its protocol, as that right says, through passes of its instance.
#[derive(Drop)]
pub(crate) struct ParkedSession<K: Keeper + Drop, I: Instance<K>> {
    admission: Admission,
    parked: I::Session,
    instance: PhantomData<(K, I)>,
    ghost admitted: { ∥ IsAdmitted I.by admission ∥₁ },
    ghost come: { ∥ ((desk : DeskLock K) → I.desk ≡ Some desk
        → I.Session.come desk admission parked nothing_known) ∥₁ },
    ghost noted: { lock_told I.desk (I.Session.state parked).note ≡ I.desk },
}

/// What becomes of a session behind a piece.
#[derive(Drop)]
pub(crate) enum Progress<K: Keeper + Drop, I: Instance<K>> {
    /// It goes on, and has taken so many bytes.
    Parked(ParkedSession<K, I>, usize),
    /// It has ended: who it was that had begun a login, if anyone had, and what is still to be written.
    Ended {
        summary: Summary,
        claimed: Option<Name>,
        owed: Option<Owing<K, I>>,
    },
}

impl<K: Keeper + Drop, I: Instance<K>> Progress<K, I> {
    /// It has ended so.
    fn ended(parked: I::Session, served: Result<(), SessionFault>) -> Progress<K, I> {
        Progress::Ended {
            summary: parked.summary(served),
            claimed: parked.begun().map(Beginning::user),
            owed: Owing::of(parked),
        }
    }
}

impl<K: Keeper + Drop, I: Instance<K>> ParkedSession<K, I> {
    /// One who was let in by this right, and has said nothing. The error is `AllocError`: there was no
    /// memory for a line.
    pub(crate) fn new(
        alloc: Global,
        admission: Admission,
    ) -> Result<ParkedSession<K, I>, AllocError>
        requires { IsAdmitted I.by admission }
    {
        let parked = I::Session::new(alloc)?;
        Ok(ParkedSession {
            admission,
            parked,
            instance: PhantomData,
        })
    }

    /// How many bytes may still come.
    pub(crate) fn unread(&self) -> u64 {
        self.parked.unread()
    }

    /// Whether its client has to log in, and has not yet.
    pub(crate) fn is_logging_in(&self) -> bool {
        match self.admission {
            Admission::Login { .. } => self.parked.user().is_none(),
            _ => false,
        }
    }

    /// Whether the one who is logging in may not any more, as he could when he came.
    pub(crate) fn is_outdated<R: Wait>(&self, rt: &R, login: Option<&Login>) -> bool {
        if !self.is_logging_in() {
            return false;
        }
        match (&self.admission, self.parked.begun(), login) {
            (Admission::Login { file, .. }, Some(begun), Some(login)) => {
                !login.keeps(rt, file, begun.user())
            }
            _ => false,
        }
    }

    /// The login that is under way, if one is.
    pub(crate) fn begun(&self) -> Option<&Beginning> {
        self.parked.begun()
    }

    /// Whether a reply is still to be written, before the next line is answered.
    pub(crate) fn is_owing(&self) -> bool
        ensures { result ≡ is_some (I.Session.state self.now.parked).owed }
    {
        self.parked.is_owing()
    }

    /// Answers what ends first in this piece, if a reply is not owed.
    pub(crate) fn feed<R: Wait, W: Sink, G: Witness>(
        self,
        rt: &R,
        alloc: Global,
        desk: &Desk<K>,
        pass: &mut Pass<K>,
        scratch: &mut Scratch,
        writer: &mut W,
        gate: &G,
        piece: &[u8],
    ) -> Progress<K, I>
        requires desk { I.desk ≡ Some desk.now }
        requires pass { IsOf desk.now pass.old }
        requires sink { W.failed writer.old ≡ false }
        ensures { ServesPiece I.Session.protocol I.by desk.now pass.old pass.new }
    {
        if self.is_owing() {
            return Progress::Parked(self, 0);
        }
        let ParkedSession {
            admission,
            mut parked,
            instance,
        } = self;
        let most = parked.unread().min(piece.len() as u64) as usize;
        let (piece, _) = piece.split_at(most);
        let Ok(taken) = parked.feed(
            rt, alloc, desk, pass, &admission, scratch, writer, gate, piece,
        ) else {
            return Progress::ended(parked, Err(SessionFault::Write));
        };
        if parked.is_over() {
            return Progress::ended(parked, Ok(()));
        }
        if parked.unread() == 0 {
            return Progress::ended(parked, Err(SessionFault::Bound));
        }
        let session = ParkedSession {
            admission,
            parked,
            instance,
        };
        Progress::Parked(session, taken)
    }

    /// Writes some more of what is owed.
    pub(crate) fn go_on<W: Sink, G: Gate>(
        self,
        scratch: &mut Scratch,
        writer: &mut W,
        gate: &G,
    ) -> Progress<K, I>
        requires sink { W.failed writer.old ≡ false }
    {
        let ParkedSession {
            admission,
            mut parked,
            instance,
        } = self;
        let Ok(()) = parked.go_on(scratch, writer, gate) else {
            return Progress::ended(parked, Err(SessionFault::Write));
        };
        let session = ParkedSession {
            admission,
            parked,
            instance,
        };
        Progress::Parked(session, 0)
    }

    /// Answers what is kept, at the end of what its client sends.
    pub(crate) fn finish<R: Wait, W: Sink, G: Witness>(
        self,
        rt: &R,
        alloc: Global,
        desk: &Desk<K>,
        pass: &mut Pass<K>,
        scratch: &mut Scratch,
        writer: &mut W,
        gate: &G,
    ) -> Progress<K, I>
        requires desk { I.desk ≡ Some desk.now }
        requires pass { IsOf desk.now pass.old }
        requires sink { W.failed writer.old ≡ false }
        ensures { ServesPiece I.Session.protocol I.by desk.now pass.old pass.new }
    {
        let ParkedSession {
            admission,
            mut parked,
            instance: _,
        } = self;
        if parked.is_over() || parked.is_owing() {
            return Progress::ended(parked, Ok(()));
        }
        let finished = parked.finish(rt, alloc, desk, pass, &admission, scratch, writer, gate);
        match finished {
            Ok(()) => Progress::ended(parked, Ok(())),
            Err(_) => Progress::ended(parked, Err(SessionFault::Write)),
        }
    }

    /// It ends here, by no wish of its client.
    pub(crate) fn given_up(self) -> Progress<K, I> {
        Progress::ended(self.parked, Err(SessionFault::Read))
    }

    /// What would be told of it, if it ended here by this fault.
    pub(crate) fn told(&self, fault: SessionFault) -> Summary {
        self.parked.summary(Err(fault))
    }

    /// It ends here by this fault: what is told of it.
    pub(crate) fn fails(self, fault: SessionFault) -> Summary {
        let summary = self.told(fault);
        drop(self);
        summary
    }
}
