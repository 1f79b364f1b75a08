//! A session of one of two protocols, which its client chooses by his first byte.
ghost use Rattle.std.specs.Prelude.{◌≡◌, None};
ghost use Rattle.either_core.specs.Choosing.{IsChosenBy, Chooses};

use base_core::{Broken, Gate, Sink, User};
use desk_core::{Desk, Note, Pass};
use journal_core::Keeper;
use lines_core::{MOST_BYTES, SessionFault};
use login_core::Beginning;
use session_core::{Admission, Scratch, SessionEnd, SessionMachine, Summary, Witness, end_of};
use std::alloc::{AllocError, Global};
use std::sync::Wait;

/// A session between two pieces, whose client chooses its protocol by the first byte that he sends: that of
/// the machine L, or, where the byte is zero, that of M.
#[derive(Drop)]
pub enum EitherSession<K: Keeper + Drop, L: SessionMachine<K>, M: SessionMachine<K>> {
    /// Nothing has come yet.
    Unspoken(Option<Note<K>>),
    /// The first byte was not zero.
    Lines(L),
    /// The first byte was zero.
    Messages(M),
    /// There was no memory for the machine that the first byte chose. The session is over; what comes is
    /// dropped, and nothing is answered. So many bytes may still come.
    Lost { unread: u64, note: Option<Note<K>> },
}

/// What is told of a session that nobody has begun.
fn told_of_nobody(ended: Result<(), SessionEnd>) -> Summary
    ensures { result ≡ record { user = None; lines = 0; moment = None; ended = ended } }
{
    Summary {
        user: None,
        lines: 0,
        moment: None,
        ended,
    }
}

impl<K: Keeper + Drop, L: SessionMachine<K>, M: SessionMachine<K>> EitherSession<K, L, M> {
    /// A session of the protocol that this byte chooses, which has not been fed the byte. It is lost where
    /// there is no memory for it.
    fn chosen_by(alloc: Global, first: u8) -> EitherSession<K, L, M>
        ensures { IsChosenBy L.state M.state L.come M.come first result }
    {
        if first == 0 {
            if let Ok(messages) = M::new(alloc) {
                return EitherSession::Messages(messages);
            }
        } else if let Ok(lines) = L::new(alloc) {
            return EitherSession::Lines(lines);
        }
        EitherSession::Lost {
            unread: MOST_BYTES,
            note: None,
        }
    }

    /// Where nothing had come before, and this piece has a first byte, that chooses the protocol. A session
    /// of which nothing had come was told nothing, so its note has nothing that a pass would have to meet.
    fn choose(&mut self, alloc: Global, piece: &[u8])
        ensures { Chooses L.state M.state L.come M.come piece.now self.old self.new }
    {
        if let (EitherSession::Unspoken(_), [first, ..]) = (&*self, piece) {
            *self = EitherSession::chosen_by(alloc, *first);
        }
    }
}

impl<K: Keeper + Drop, L: SessionMachine<K>, M: SessionMachine<K>> SessionMachine<K>
    for EitherSession<K, L, M> {
    ghost use Rattle.either_core.specs.Either.{SpeaksEither, HasComeByEither, either_state, HasComeEither, HasEndedEither, OwesEither};
    ghost use Rattle.either_core.specs.Stopping.{HasComeEither-stops, OwesEither-payable, OwesEither-settled, HasComeEither-breaks, HasComeEither-unseen, HasEndedEither-unseen, HasEndedEither-spoken, SpeaksEither-rightful};

    ghost protocol = { SpeaksEither L.protocol M.protocol };

    ghost right = { HasComeByEither L.right M.right };

    ghost state = { either_state L.state M.state };

    ghost come = { HasComeEither L.come M.come };

    ghost ended = { HasEndedEither L.ended M.ended };

    ghost owes = { OwesEither L.owes M.owes };

    fn new(_alloc: Global) -> Result<EitherSession<K, L, M>, AllocError> {
        Ok(EitherSession::Unspoken(None))
    }

    fn unread(&self) -> u64 {
        match self {
            EitherSession::Unspoken(_) => MOST_BYTES,
            EitherSession::Lines(lines) => lines.unread(),
            EitherSession::Messages(messages) => messages.unread(),
            EitherSession::Lost { unread, .. } => *unread,
        }
    }

    fn is_over(&self) -> bool {
        match self {
            EitherSession::Unspoken(_) => false,
            EitherSession::Lines(lines) => lines.is_over(),
            EitherSession::Messages(messages) => messages.is_over(),
            EitherSession::Lost { .. } => true,
        }
    }

    fn user(&self) -> Option<User> {
        match self {
            EitherSession::Lines(lines) => lines.user(),
            EitherSession::Messages(messages) => messages.user(),
            EitherSession::Unspoken(_) | EitherSession::Lost { .. } => None,
        }
    }

    fn begun(&self) -> Option<&Beginning> {
        match self {
            EitherSession::Lines(lines) => lines.begun(),
            EitherSession::Messages(messages) => messages.begun(),
            EitherSession::Unspoken(_) | EitherSession::Lost { .. } => None,
        }
    }

    fn is_owing(&self) -> bool {
        match self {
            EitherSession::Lines(lines) => lines.is_owing(),
            EitherSession::Messages(messages) => messages.is_owing(),
            EitherSession::Unspoken(_) | EitherSession::Lost { .. } => false,
        }
    }

    fn feed<'x, R: Wait, W: Sink, G: Witness>(
        &mut self,
        rt: &'x R,
        alloc: Global,
        desk: &'x Desk<K>,
        pass: &'x mut Pass<K>,
        admission: &'x Admission,
        scratch: &'x mut Scratch,
        writer: &mut W,
        gate: &'x G,
        piece: &[u8],
    ) -> Result<usize, Broken> {
        self.choose(alloc, piece);
        match self {
            EitherSession::Lines(lines) => lines.feed(
                rt, alloc, desk, pass, admission, scratch, writer, gate, piece,
            ),
            EitherSession::Messages(messages) => messages.feed(
                rt, alloc, desk, pass, admission, scratch, writer, gate, piece,
            ),
            EitherSession::Unspoken(note) => {
                *note = Some(desk.note(pass));
                Ok(0)
            }
            EitherSession::Lost { unread, note } => {
                *note = Some(desk.note(pass));
                *unread -= piece.len() as u64;
                Ok(piece.len())
            }
        }
    }

    fn go_on<W: Sink, G: Gate>(
        &mut self,
        scratch: &mut Scratch,
        writer: &mut W,
        gate: &G,
    ) -> Result<(), Broken> {
        match self {
            EitherSession::Lines(lines) => lines.go_on(scratch, writer, gate),
            EitherSession::Messages(messages) => messages.go_on(scratch, writer, gate),
            EitherSession::Unspoken(_) | EitherSession::Lost { .. } => Ok(()),
        }
    }

    fn finish<'x, R: Wait, W: Sink, G: Witness>(
        &mut self,
        rt: &'x R,
        alloc: Global,
        desk: &'x Desk<K>,
        pass: &'x mut Pass<K>,
        admission: &'x Admission,
        scratch: &'x mut Scratch,
        writer: &mut W,
        gate: &'x G,
    ) -> Result<(), Broken> {
        match self {
            EitherSession::Lines(lines) => {
                lines.finish(rt, alloc, desk, pass, admission, scratch, writer, gate)
            }
            EitherSession::Messages(messages) => {
                messages.finish(rt, alloc, desk, pass, admission, scratch, writer, gate)
            }
            EitherSession::Unspoken(note) => {
                *note = Some(desk.note(pass));
                Ok(())
            }
            EitherSession::Lost { note, .. } => {
                *note = Some(desk.note(pass));
                Ok(())
            }
        }
    }

    fn summary(&self, served: Result<(), SessionFault>) -> Summary {
        match self {
            EitherSession::Lines(lines) => lines.summary(served),
            EitherSession::Messages(messages) => messages.summary(served),
            EitherSession::Unspoken(_) => told_of_nobody(end_of(false, served)),
            EitherSession::Lost { .. } => {
                told_of_nobody(Err(SessionEnd::Session(SessionFault::NoMemory)))
            }
        }
    }

    ghost stops = { HasComeEither-stops L.state M.state L.come M.come L.ended M.ended
        L.owes M.owes L.stops M.stops };

    ghost payable = { OwesEither-payable L.owes M.owes L.payable M.payable };

    ghost settled = { OwesEither-settled L.state M.state L.owes M.owes L.settled M.settled };

    ghost breaks = { HasComeEither-breaks L.come M.come L.ended M.ended L.breaks M.breaks };

    ghost come_unseen = { HasComeEither-unseen L.come M.come L.come_unseen M.come_unseen };

    ghost ended_unseen = { HasEndedEither-unseen L.ended M.ended L.ended_unseen M.ended_unseen };

    ghost spoken = { HasEndedEither-spoken L.state M.state L.ended M.ended
        L.protocol M.protocol L.spoken M.spoken };

    ghost rightful = { SpeaksEither-rightful L.protocol M.protocol L.right M.right
        L.rightful M.rightful };
}
