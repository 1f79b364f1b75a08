//! A session: a line that names a user, and then lines of his.
ghost use Rattle.std.specs.Prelude.{◌≡◌, ◌↔◌, ◌++◌, Some, None, true, false, OnOk, OnErr, MatchResult, IsErrOf, codes};
ghost use Rattle.base_core.specs.Streams.{MayWrite, MayWriteText};
ghost use Rattle.lines_core.specs.Serving.{traffic_of};
ghost use Rattle.turnstile.specs.Passes.{IsSamePass};
ghost use Rattle.session_core.specs.Admission.{welcome_text, refused_login_text};
ghost use Rattle.session_core.specs.Session.{AnswersSession, BeginsSession, progress_of, KeepsLent, end_of, EndsSession};

use crate::admission::Admission;
use crate::answering::Session;
use crate::line::begin_line;
use crate::reception::{Reception, received};
use crate::session_end::SessionEnd;
use crate::summary::Summary;
use crate::witness::Witness;
use base_core::{Broken, Sink, Source, User, write_all};
use desk_core::{Desk, Pass, Unkept};
use journal_core::Keeper;
use lines_core::{LineServer, SessionFault, serve};
use reply_core::{ReplyBuffer, write_fault, write_rest, write_unread};
use std::alloc::Global;
use std::sync::Wait;

// What is written where a login proves nothing.
const REFUSED_LOGIN: &[u8] = b"refused: login\n";

fn write_welcome<W: Sink>(writer: &mut W, user: &User) -> Result<(), Broken>
    requires { W.failed writer.old ≡ false }
    ensures { MayWriteText W.failed W.taken (welcome_text user.now) result writer.old writer.new }
{
    write_all(writer, b"welcome ")?;
    write_all(writer, user.0.as_bytes())?;
    write_all(writer, b"\n")
}

/// Writes the server's first message of a login.
fn write_challenge<W: Sink>(writer: &mut W, message: &[u8]) -> Result<(), Broken>
    requires { W.failed writer.old ≡ false }
    ensures { MayWriteText W.failed W.taken (message.now ++ codes "\n")
        result writer.old writer.new }
{
    write_all(writer, message)?;
    write_all(writer, b"\n")
}

/// Writes the answer to the line that made a user welcome, and the welcome behind it.
fn write_admitted<W: Sink>(writer: &mut W, answer: &[u8], user: &User) -> Result<(), Broken>
    requires { W.failed writer.old ≡ false }
    ensures { MayWriteText W.failed W.taken (answer.now ++ welcome_text user.now)
        result writer.old writer.new }
{
    write_all(writer, answer)?;
    write_welcome(writer, user)
}

impl<'a, K: Keeper + Drop, R: Wait, G: Witness> Session<'a, K, R, G> {
    /// Answers a line before a user is welcome.
    fn greet<W: Sink>(&mut self, writer: &mut W, line: &[u8]) -> Result<(), Broken>
        requires first { (self.old.over ≡ false) × (self.old.user ≡ None) }
        requires sink { W.failed writer.old ≡ false }
        ensures lent { KeepsLent self.old self.new }
        ensures owed { self.new.owed.now ≡ self.old.owed.now }
        ensures text { MayWrite W.failed W.taken
            (λ text. AnswersSession self.old.desk.now (progress_of self.old) line.now text
            (progress_of self.new))
            result writer.old writer.new }
    {
        match received(self.alloc, self.admission, &*self.begun, line) {
            Reception::Welcomed { user, answer } => {
                self.user = Some(user);
                self.gate.named(&user);
                write_admitted(writer, answer.as_slice(), &user)
            }
            Reception::Challenged(begun) => {
                let written = write_challenge(writer, begun.server_first());
                let _ = self.begun.replace(begun);
                written
            }
            Reception::Faulty { code, offset } => {
                self.over = true;
                write_fault(self.buffer, code, offset, writer)
            }
            Reception::Refused => {
                self.over = true;
                write_all(writer, REFUSED_LOGIN)
            }
            Reception::Unread => {
                self.over = true;
                write_unread(writer)
            }
        }
    }

    /// Answers a later line, or begins to, where replies are held. One whose reply is withheld ends the
    /// session.
    fn attend<W: Sink>(&mut self, writer: &mut W, user: User, line: &[u8]) -> Result<(), Broken>
        requires later { (self.old.over ≡ false) × (self.old.user ≡ Some user) }
        requires free { self.old.owed.now ≡ None }
        requires sink { W.failed writer.old ≡ false }
        ensures lent { KeepsLent self.old self.new }
        ensures text { MayWrite W.failed W.taken
            (λ text. BeginsSession self.old.desk.now (progress_of self.old) line.now text
            self.new.owed.now (progress_of self.new))
            result writer.old writer.new }
        ensures whole { self.old.holds ≡ false → self.new.owed.now ≡ None }
    {
        self.answered = self.answered.saturating_add(1);
        let begun = begin_line(
            self.rt,
            self.alloc,
            self.desk,
            self.pass,
            user,
            line,
            self.tokens,
            self.buffer,
            writer,
            self.gate,
            &mut self.moment,
        )?;
        match begun {
            Ok(pending) => {
                if !self.holds {
                    return write_rest(pending, self.buffer, writer, self.gate);
                }
                *self.owed = pending;
            }
            Err(Unkept) => {
                self.over = true;
                self.unkept = true;
            }
        }
        Ok(())
    }
}

impl<'a, K: Keeper + Drop, R: Wait, G: Witness> Session<'a, K, R, G> {
    /// What is told of the session, if the answering of its lines ended so.
    fn summary(&self, served: Result<(), SessionFault>) -> Summary
        ensures { result ≡ record {
          user = self.now.user;
          lines = self.now.answered;
          moment = self.now.moment;
          ended = end_of self.now.unkept served;
        } }
    {
        Summary {
            user: self.user,
            lines: self.answered,
            moment: self.moment,
            ended: end_of(self.unkept, served),
        }
    }
}

impl<'a, K: Keeper + Drop, R: Wait, G: Witness> LineServer for Session<'a, K, R, G> {
    ghost use Rattle.session_core.specs.Session.{SessionAnswers};
    ghost use Rattle.session_core.specs.TooLong.{SessionAnswers-too_long};

    ghost answers = { SessionAnswers };

    ghost over = { λ s. s.over };

    fn is_over(&self) -> bool {
        self.over
    }

    fn answer<W: Sink>(&mut self, writer: &mut W, line: &[u8]) -> Result<(), Broken> {
        // What is owed is written before the next line is looked at.
        if self.over || self.owed.is_some() {
            return Ok(());
        }
        match self.user {
            Some(user) => self.attend(writer, user, line),
            None => self.greet(writer, line),
        }
    }

    ghost too_long = { SessionAnswers-too_long };
}

/// How a session ended of which a reply was withheld or not, and whose lines were answered so.
pub fn end_of(unkept: bool, served: Result<(), SessionFault>) -> Result<(), SessionEnd>
    ensures { result ≡ end_of unkept served }
{
    if unkept {
        return Err(SessionEnd::Journal);
    }
    match served {
        Ok(()) => Ok(()),
        Err(fault) => Err(SessionEnd::Session(fault)),
    }
}

/// A session through a pass of the desk, which comes by its user as the admission says: by its
/// first line, or by its first two, where he has to log in. Each later line is answered as his. It
/// gives what is told of it.
///
/// A line that names no user, or begins no login, is told its fault; one that proves nothing
/// `refused: login`; and one that there was no memory to look at `refused: no memory`. Each ends
/// the session. What was answered to the lines read is handed on before more is read, and at the
/// end. It has `ended` with `Journal` exactly where the desk withholds the reply to a change:
/// nothing is written for that line, and the session is over. Else it has ended with `Read` and
/// `Write` exactly where the reader or the writer has failed, with `Bound` where 2^32 bytes were
/// read and the end had not come, and with `NoMemory` before the first read.
pub fn serve_admitted<K: Keeper + Drop, R: Wait, S: Source, W: Sink, G: Witness>(
    rt: &R,
    alloc: Global,
    desk: &Desk<K>,
    pass: &mut Pass<K>,
    admission: &Admission,
    reader: &mut S,
    writer: &mut W,
    gate: &G,
) -> Summary
    requires pass { pass.old.lock ≡ Some desk.now }
    requires source { S.failed reader.old ≡ false }
    requires sink { W.failed writer.old ≡ false }
    ensures read { IsErrOf result.ended (SessionEnd.Session SessionFault.Read)
        ↔ (S.failed reader.new ≡ true) }
    ensures write { IsErrOf result.ended (SessionEnd.Session SessionFault.Write)
        ↔ ((W.failed writer.new ≡ true) × ¬ IsErrOf result.ended SessionEnd.Journal) }
    ensures flushed { W.flushed writer.old ≡ true → W.failed writer.new ≡ false
        → W.flushed writer.new ≡ true }
    ensures same { IsSamePass pass.old pass.new }
    ensures ends { EndsSession desk.now admission.now result pass.old pass.new
        (traffic_of (S.left reader.old) (S.left reader.new)
        (W.taken writer.old) (W.taken writer.new)) }
{
    let Ok(mut buffer) = ReplyBuffer::new(alloc) else {
        return Summary {
            user: None,
            lines: 0,
            moment: None,
            ended: Err(SessionEnd::Session(SessionFault::NoMemory)),
        };
    };
    let mut tokens = Vec::new(alloc);
    let mut begun = None;
    let mut owed = None;
    let mut session = Session {
        rt,
        alloc,
        desk,
        pass,
        gate,
        tokens: &mut tokens,
        buffer: &mut buffer,
        admission,
        begun: &mut begun,
        owed: &mut owed,
        holds: false,
        user: None,
        over: false,
        unkept: false,
        answered: 0,
        moment: None,
    };
    let served = serve(alloc, &mut session, reader, writer);
    session.summary(served)
}

/// A session through a pass of the desk: its first line names the user, and each later line is
/// answered as his. It gives what is told of it.
///
/// A first line that names no user is told its fault, and ends the session. What was answered to
/// the lines read is handed on before more is read, and at the end. It has `ended` with `Journal`
/// exactly where the desk withholds the reply to a change: nothing is written for that line, and
/// the session is over. Else it has ended with `Read` and `Write` exactly where the reader or the
/// writer has failed, with `Bound` where 2^32 bytes were read and the end had not come, and with
/// `NoMemory` before the first read.
pub fn serve_session<K: Keeper + Drop, R: Wait, S: Source, W: Sink, G: Witness>(
    rt: &R,
    alloc: Global,
    desk: &Desk<K>,
    pass: &mut Pass<K>,
    reader: &mut S,
    writer: &mut W,
    gate: &G,
) -> Summary
    requires pass { pass.old.lock ≡ Some desk.now }
    requires source { S.failed reader.old ≡ false }
    requires sink { W.failed writer.old ≡ false }
    ensures read { IsErrOf result.ended (SessionEnd.Session SessionFault.Read)
        ↔ (S.failed reader.new ≡ true) }
    ensures write { IsErrOf result.ended (SessionEnd.Session SessionFault.Write)
        ↔ ((W.failed writer.new ≡ true) × ¬ IsErrOf result.ended SessionEnd.Journal) }
    ensures flushed { W.flushed writer.old ≡ true → W.failed writer.new ≡ false
        → W.flushed writer.new ≡ true }
    ensures same { IsSamePass pass.old pass.new }
    ensures ends { EndsSession desk.now Admission.Anyone result pass.old pass.new
        (traffic_of (S.left reader.old) (S.left reader.new)
        (W.taken writer.old) (W.taken writer.new)) }
{
    serve_admitted(
        rt,
        alloc,
        desk,
        pass,
        &Admission::Anyone,
        reader,
        writer,
        gate,
    )
}
