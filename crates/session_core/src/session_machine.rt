//! A session of any protocol between two pieces of what its client sends.
ghost use Rattle.std.specs.Prelude.{◌≡◌, ◌≤◌, ◌+◌, ◌++◌, ◌<◌, Some, None, Ok, Err, false, true, [], length, take, Option, List, ℕ, Result, IfOk, IfSome, OnOk, OnErr, MatchResult, option_copied};
ghost use Rattle.std.specs.Option.{is_some};
ghost use Rattle.std.specs.Io.KnownBytes.{Appends, Consumes, IsAtEnd};
ghost use Rattle.base_core.specs.Streams.{Writes, WritesFrontOf};
ghost use Rattle.base_core.specs.declared.name.User.{User};
ghost use Rattle.lines_core.specs.declared.serving.SessionFault.{SessionFault};
ghost use Rattle.lines_core.specs.declared.serving.SessionFault.TheVariants as faults;
ghost use Rattle.lines_core.specs.Serving.{Traffic, traffic_of};
ghost use Rattle.desk_core.specs.Guarded.{DeskLock, DeskNote};
ghost use Rattle.session_core.specs.declared.admission.Admission.{Admission};
ghost use Rattle.session_core.specs.Parking.{GainsFor, pass_note};
ghost use Rattle.session_core.specs.Machines.{Protocol, Right, MachineState, first_state, summary_of, OwesLess, MayStop};

use crate::admission::Admission;
use crate::scratch::Scratch;
use crate::summary::Summary;
use crate::witness::Witness;
use base_core::{Broken, Gate, Sink, User};
use desk_core::{Desk, Pass};
use journal_core::Keeper;
use lines_core::SessionFault;
use login_core::Beginning;
use std::alloc::{AllocError, Global};
use std::sync::Wait;

/// A session between two pieces of what its client sends: a machine that is fed, and goes on through any
/// pass of its desk. What it may be sent and answers is its protocol.
pub trait SessionMachine<K: Keeper + Drop>: Drop {
    // What the protocol says of its sessions, wherever they end.
    ghost protocol: { Protocol K };
    // By what right its sessions are their users'.
    ghost right: { Right };
    // What is known of a session in any protocol.
    ghost state: { Self → MachineState K };
    // A session of this desk that came by its user so has come so far, over this traffic: once what it owes
    // is written, all that it was sent whole is answered.
    ghost come: { DeskLock K → Admission → Self → Traffic → Type 0 };
    // It has ended so.
    ghost ended: { DeskLock K → Admission → Self → Result (Unit {0}) SessionFault → Traffic
        → Type 0 };
    // This may still be written of its last reply.
    ghost owes: { Self → List ℕ → Type 0 };

    /// A session of which nothing has come. The error is `AllocError`: there was no memory for it.
    fn new(alloc: Global) -> Result<Self, AllocError>
        ensures first { IfOk result (λ session. state session ≡ first_state) }
        ensures come { IfOk result (λ session. (desk : DeskLock K) (admission : Admission)
            (left taken : Option (List ℕ))
            → come desk admission session (traffic_of left left taken taken)) };

    /// How many bytes may still come.
    fn unread(&self) -> u64
        ensures { result ≡ (state self.now).unread };

    /// Whether nothing more is wanted.
    fn is_over(&self) -> bool
        ensures { result ≡ (state self.now).over };

    /// Whose session it is, once he is welcome.
    fn user(&self) -> Option<User>
        ensures { result ≡ (state self.now).user };

    /// The login that is under way, or was the last, if one has begun.
    fn begun(&self) -> Option<&Beginning>
        ensures { option_copied result ≡ (state self.now).begun };

    /// Whether a reply is still to be written, before anything else is answered.
    fn is_owing(&self) -> bool
        ensures { result ≡ is_some (state self.now).owed };

    /// Answers what ends first in this piece, through this pass, which meets what the session has seen;
    /// where nothing ends there it keeps the front of it. How many bytes it took. A long reply is only
    /// begun, and the rest owed. `Broken` where the writer failed.
    fn feed<'x, R: Wait, W: Sink, G: Witness>(
        &mut self,
        rt: &'x R,
        alloc: Global,
        desk: &'x Desk<K>,
        pass: &'x mut Pass<K>,
        admission: &'x Admission,
        scratch: &'x mut Scratch,
        writer: &mut W,
        gate: &'x G,
        piece: &[u8],
    ) -> Result<usize, Broken>
        requires pass { pass.old.lock ≡ Some desk.now }
        requires note { IfSome (state self.old).note (λ n. n.lock ≡ Some desk.now) }
        requires free { (state self.old).owed ≡ None }
        requires sink { W.failed writer.old ≡ false }
        requires room { length piece.now ≤ (state self.old).unread }
        ensures failed { MatchResult result (λ _. W.failed writer.new ≡ false)
            (λ _. W.failed writer.new ≡ true) }
        ensures took { IfOk result (λ n. n ≤ length piece.now) }
        ensures some { IfOk result (λ n. 0 < length piece.now → 0 < n) }
        ensures unread { IfOk result
            (λ n. (state self.new).unread + n ≡ (state self.old).unread) }
        ensures noted { (state self.new).note ≡ Some (pass_note desk.now pass.new) }
        ensures own { pass.new.lock ≡ Some desk.now }
        ensures gained { GainsFor (state self.new).user pass.old pass.new }
        ensures fed { IfOk result (λ n. (left left' left'' taken : Option (List ℕ))
            → come desk.now admission.now self.old
            (traffic_of left left' taken (W.taken writer.old))
            → Consumes left' left'' (take n piece.now)
            → come desk.now admission.now self.new
            (traffic_of left left'' taken (W.taken writer.new))) }
        ensures broken { OnErr result ((left left' left'' taken : Option (List ℕ))
            → come desk.now admission.now self.old
            (traffic_of left left' taken (W.taken writer.old))
            → Consumes left' left'' piece.now
            → ended desk.now admission.now self.new (Err faults.Write)
            (traffic_of left left'' taken (W.taken writer.new))) };

    /// Writes some more of what is owed: with what is owed then, that is what was owed before. `Broken`
    /// where the writer failed, and then a front of that was written.
    fn go_on<W: Sink, G: Gate>(
        &mut self,
        scratch: &mut Scratch,
        writer: &mut W,
        gate: &G,
    ) -> Result<(), Broken>
        requires sink { W.failed writer.old ≡ false }
        ensures failed { MatchResult result (λ _. W.failed writer.new ≡ false)
            (λ _. W.failed writer.new ≡ true) }
        ensures kept { state self.new ≡ record (state self.old) { owed = (state self.new).owed } }
        ensures progress { OnOk result (OwesLess (state self.old).owed (state self.new).owed) }
        ensures wrote { OnOk result (Writes
            (λ text. (rest : List ℕ) → owes self.new rest → owes self.old (text ++ rest))
            (W.taken writer.old) (W.taken writer.new)) }
        ensures front { OnErr result (WritesFrontOf (owes self.old)
            (W.taken writer.old) (W.taken writer.new)) }
        ensures went_on { OnOk result ((desk : DeskLock K) (admission : Admission)
            (left left' taken : Option (List ℕ))
            → come desk admission self.old (traffic_of left left' taken (W.taken writer.old))
            → come desk admission self.new (traffic_of left left' taken (W.taken writer.new))) }
        ensures broken { OnErr result ((desk : DeskLock K) (admission : Admission)
            (left left' taken : Option (List ℕ))
            → come desk admission self.old (traffic_of left left' taken (W.taken writer.old))
            → ended desk admission self.new (Err faults.Write)
            (traffic_of left left' taken (W.taken writer.new))) };

    /// Answers what is kept at the end of what the client sends, if that is whole by then. A long reply is
    /// only begun, and the rest owed.
    fn finish<'x, R: Wait, W: Sink, G: Witness>(
        &mut self,
        rt: &'x R,
        alloc: Global,
        desk: &'x Desk<K>,
        pass: &'x mut Pass<K>,
        admission: &'x Admission,
        scratch: &'x mut Scratch,
        writer: &mut W,
        gate: &'x G,
    ) -> Result<(), Broken>
        requires pass { pass.old.lock ≡ Some desk.now }
        requires note { IfSome (state self.old).note (λ n. n.lock ≡ Some desk.now) }
        requires open { (state self.old).over ≡ false }
        requires free { (state self.old).owed ≡ None }
        requires sink { W.failed writer.old ≡ false }
        ensures failed { MatchResult result (λ _. W.failed writer.new ≡ false)
            (λ _. W.failed writer.new ≡ true) }
        ensures flushed { W.flushed writer.old ≡ true
            → OnOk result (W.flushed writer.new ≡ true) }
        ensures noted { (state self.new).note ≡ Some (pass_note desk.now pass.new) }
        ensures own { pass.new.lock ≡ Some desk.now }
        ensures gained { GainsFor (state self.new).user pass.old pass.new }
        ensures ended { OnOk result ((left left' left'' taken later : Option (List ℕ))
            (rest : List ℕ)
            → come desk.now admission.now self.old
            (traffic_of left left' taken (W.taken writer.old))
            → Consumes left' left'' []
            → IsAtEnd left''
            → owes self.new rest
            → Appends (W.taken writer.new) later rest
            → ended desk.now admission.now self.new (Ok tt)
            (traffic_of left left'' taken later)) }
        ensures broken { OnErr result ((left left' left'' taken : Option (List ℕ))
            → come desk.now admission.now self.old
            (traffic_of left left' taken (W.taken writer.old))
            → Consumes left' left'' []
            → IsAtEnd left''
            → ended desk.now admission.now self.new (Err faults.Write)
            (traffic_of left left'' taken (W.taken writer.new))) };

    /// What is told of the session, if what it was sent was answered so.
    fn summary(&self, served: Result<(), SessionFault>) -> Summary
        ensures { result ≡ summary_of (state self.now) served };

    // It may end wherever its client stops, once what it owes is written.
    ghost stops: { (desk : DeskLock K) (admission : Admission) (session : Self)
        (ending : Result (Unit {0}) SessionFault)
        (left left' taken taken' later : Option (List ℕ)) (rest : List ℕ)
        → come desk admission session (traffic_of left left' taken taken')
        → owes session rest
        → Appends taken' later rest
        → MayStop (state session) ending
        → ended desk admission session ending (traffic_of left left' taken later) };
    // Something may be written of what it owes, and be it nothing.
    ghost payable: { (session : Self) → (rest : List ℕ) × owes session rest };
    // Where nothing is counted as owed, that is nothing.
    ghost settled: { (session : Self) (rest : List ℕ)
        → (state session).owed ≡ None
        → owes session rest
        → rest ≡ [] };
    // Where its client takes no more, what was written is a front of the answers.
    ghost breaks: { (desk : DeskLock K) (admission : Admission) (session : Self)
        (left left' taken taken' : Option (List ℕ))
        → come desk admission session (traffic_of left left' taken taken')
        → ended desk admission session (Err faults.Write) (traffic_of left left' taken taken') };
    // Over streams of which nothing is known, what was written may be anything.
    ghost come_unseen: { (desk : DeskLock K) (admission : Admission) (session : Self)
        (taken taken' : Option (List ℕ))
        → come desk admission session (traffic_of None None None taken)
        → come desk admission session (traffic_of None None None taken') };

    ghost ended_unseen: { (desk : DeskLock K) (admission : Admission) (session : Self)
        (ending : Result (Unit {0}) SessionFault) (taken taken' : Option (List ℕ))
        → ended desk admission session ending (traffic_of None None None taken)
        → ended desk admission session ending (traffic_of None None None taken') };
    // However it has ended, it is one of the protocol.
    ghost spoken: { (desk : DeskLock K) (admission : Admission) (session : Self)
        (ending : Result (Unit {0}) SessionFault) (traffic : Traffic)
        → ended desk admission session ending traffic
        → protocol desk admission (state session).user (state session).note traffic };
    // Whose session it is has come by right.
    ghost rightful: { (desk : DeskLock K) (admission : Admission) (user : User)
        (note : Option (DeskNote K)) (traffic : Traffic)
        → protocol desk admission (Some user) note traffic
        → right admission traffic user };
}
