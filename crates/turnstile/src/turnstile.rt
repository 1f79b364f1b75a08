//! The turnstile: how it is made, a turn, notes, and how it is closed.
ghost use Rattle.std.specs.Prelude.{◌≡◌, ◌≢◌, ◌+◌, ◌<◌, ◌≤◌, ◌^◌, [], ◌∷◌, length, map, All, Some, None, IfOk, IfErr, OnOk, OnErr};
ghost use Rattle.turnstile.specs.Logs.{Grown, StartsWith};
ghost use Rattle.turnstile.specs.Passes.{IsSamePass, mine, passes_from, new_passes};
ghost use Rattle.turnstile.specs.Turned.{Turned};
ghost use Rattle.turnstile.specs.Closed.{AreAll, Closed};
ghost use Rattle.turnstile.specs.Rule.{dealer, fresh, fresh_from};
ghost use Rattle.turnstile.specs.Steps.{with_ticket, with_core, with_count, view_after, IsFresh};
ghost use Rattle.turnstile.specs.Places.{terms_of, known_of, known_in, IsAtRest};

use crate::bells::{Bells, Waiter};
use crate::law::Law;
use crate::object::Object;
use crate::pass::{Note, Pass, Place};
use crate::plays::{Count, Deal, Draw, End, Gather, Hear, Learn, Take, Tell};
use crate::view::{Opening, Terms, View};
use atomic_table::Table;
use base_core::NoMemory;
use std::alloc::Global;
use std::marker::Model;
use std::snapshot::Snapshot;
use std::sync::Wait;

/// All turns are drawn: their count, from the turnstile's start on, is 2^62.
#[derive(Drop)]
pub struct Worn;

const LAST: u64 = 1 << 62;

// The word that counts the turns drawn, and the word that says which of them is served.
const TICKET: usize = 0;

const SERVING: usize = 1;

/// An object that threads share by turns. Contracts see which turnstile it is, how many passes it has,
/// what its turns are counted from, and the object's fixed part.
#[derive(Drop)]
pub struct Turnstile<O: Object> {
    table: Table<Option<O>, View<O, O::Entry, O::Fixed>, Opening<O, O::Fixed>, Law<O>, Global>,
    bells: Bells,
    count: usize,
}

impl<O: Object> Model for Turnstile<O> {
    ghost use Rattle.std.specs.Prelude.{◌≡◌, ◌<◌};
    ghost use Rattle.turnstile.specs.Passes.{TurnstileState};
    ghost use Rattle.turnstile.specs.Places.{lock_at};

    ghost Value = { TurnstileState O.Fixed };

    ghost view = { λ t. lock_at t.table.shared.table_id t.table.shared.key.terms };

    ghost invariant = { λ t. (t.table.shared.key.terms.count ≡ t.count)
        × (0 < t.count)
        × (t.table.shared.table_id.words ≡ 2)
        × (t.table.shared.table_id.slots ≡ 1) };
}

impl<O: Object> Turnstile<O> {
    /// A turnstile with `count` passes, from 1 to 64, whose turns are counted from 0. Each entry of the
    /// object's log bears the number of a pass, and its mark is 0. The passes are numbered from 0, have
    /// seen that log, and have drawn no turn. `NoMemory` where a request for memory was refused; the
    /// object is then dropped.
    pub fn build(
        alloc: Global,
        object: O,
        count: usize,
    ) -> Result<(Turnstile<O>, Vec<Pass<O>>), NoMemory>
        requires bears { All (λ e. O.by e < count) (O.log object) }
        requires unmarked { O.mark object ≡ 0 }
        requires counts { (0 < count) × (count ≤ 64) }
        ensures turnstile { IfOk result
            (λ b. (b.0.count ≡ count) × (b.0.start ≡ 0) × (b.0.fixed ≡ O.fixed object)) }
        ensures passes { IfOk result (λ b. b.1.items ≡ new_passes (O.log object) b.0) }
    {
        Turnstile::build_at(alloc, object, count, 0)
    }

    /// The same, with the turns counted from `start`, at most 2^62.
    pub fn build_at(
        alloc: Global,
        object: O,
        count: usize,
        start: u64,
    ) -> Result<(Turnstile<O>, Vec<Pass<O>>), NoMemory>
        requires bears { All (λ e. O.by e < count) (O.log object) }
        requires unmarked { O.mark object ≡ 0 }
        requires counts { (0 < count) × (count ≤ 64) }
        requires start { start ≤ 2 ^ 62 }
        ensures turnstile { IfOk result
            (λ b. (b.0.count ≡ count) × (b.0.start ≡ start) × (b.0.fixed ≡ O.fixed object)) }
        ensures passes { IfOk result (λ b. b.1.items ≡ new_passes (O.log object) b.0) }
    {
        let terms = Terms {
            count: count as u64,
            start,
            fixed: object.fixed_part(),
        };
        let opening = Opening {
            terms,
            object: Snapshot::of(&object),
        };
        let bells = Bells::new(alloc)?;
        let mut slots = Vec::new(alloc);
        slots.push(Some(object))?;
        let Ok((table, seat)) = Table::new(alloc, &[start, start], slots, &opening) else {
            return Err(NoMemory);
        };
        let turnstile = Turnstile {
            table,
            bells,
            count,
        };
        let passes = turnstile.deal_all(alloc, seat)?;
        Ok((turnstile, passes))
    }

    fn deal_all(&self, alloc: Global, mut seat: Place<O>) -> Result<Vec<Pass<O>>, NoMemory>
        requires own { seat.table_id ≡ self.now.identity }
        requires all { (seen : _)
            × (seat.me
            ≡ (
              dealer (fresh_from seen self.now.start 0 self.now.count) (Some (terms_of self.now)),
              [],
            )) }
        ensures { IfOk result (λ v. (seen : _)
            → seat.me
            ≡ (
              dealer (fresh_from seen self.now.start 0 self.now.count) (Some (terms_of self.now)),
              [],
            )
            → v.items ≡ new_passes seen self.now) }
    {
        let mut passes = Vec::new(alloc);
        for number in 0..self.count {
            passes.push(self.deal(&mut seat, number as u64))?;
        }
        Ok(passes)
    }

    // A new pass, of the first number that the seat has.
    fn deal(&self, seat: &mut Place<O>, number: u64) -> Pass<O>
        requires own { seat.old.table_id ≡ self.now.identity }
        requires below { number < self.now.count }
        requires first { (seen : _)
            × (n : _)
            × (seat.old.me
            ≡ (
              dealer (fresh seen self.now.start number
                  ∷ fresh_from seen self.now.start (number + 1) n) (Some (terms_of self.now)),
              [],
            )) }
        ensures own { seat.new.table_id ≡ seat.old.table_id }
        ensures dealt { (seen : _)
            → (n : _)
            → seat.old.me
            ≡ (
              dealer (fresh seen self.now.start number
                  ∷ fresh_from seen self.now.start (number + 1) n) (Some (terms_of self.now)),
              [],
            )
            → (seat.new.me
            ≡ (
              dealer (fresh_from seen self.now.start (number + 1) n)
                  (Some (terms_of self.now)),
              [],
            ))
            × (result
            ≡ record {
              lock = Some self.now;
              number = number;
              seen = seen;
              mark = 0;
              turns = 0;
              drawn = self.now.start;
            }) }
    {
        let seat = self.table.shared.split_seat::<Deal>(seat);
        Pass { number, seat }
    }

    /// One turn: the object acts once, on what is asked, which may be asked of whatever the object has come to
    /// behind what the pass has seen. It waits for the turns that were drawn before.
    /// `Worn` where the count of turns drawn, from the start on, is 2^62: the object is then untouched, and
    /// the pass knows that count, and nothing else that is new.
    pub fn turn<R: Wait>(&self, rt: &R, pass: &mut Pass<O>, ask: O::Ask) -> Result<O::Reply, Worn>
        requires pass { pass.old.lock ≡ Some self.now }
        requires may { (x : O) → StartsWith (O.log x) pass.old.seen
            → O.fixed x ≡ self.now.fixed → O.may x ask }
        ensures same { IsSamePass pass.old pass.new }
        ensures done { IfOk result
            (λ reply. Turned O.log O.by O.mark O.fixed O.acts self.now ask reply pass.old pass.new) }
        ensures drawn { OnOk result ((pass.old.drawn < pass.new.drawn)
            × (pass.new.drawn ≤ 2 ^ 62)) }
        ensures counted { OnOk result (pass.new.turns ≡ pass.old.turns + 1) }
        ensures worn { OnErr result (pass.new ≡ record pass.old { drawn = 2 ^ 62 }) }
    {
        let ticket = self.draw(rt, &mut pass.seat)?;
        let mut object = self.take(rt, &mut pass.seat, ticket);
        let reply = object.act(pass.number, ask);
        self.end(&mut pass.seat, object);
        // those who are near are awake by the time of their turn
        self.bells.ring_from(ticket + 1);
        Ok(reply)
    }

    // Draws the next ticket, unless 2^62 were drawn.
    fn draw<R: Wait>(&self, rt: &R, seat: &mut Place<O>) -> Result<u64, Worn>
        requires own { seat.old.table_id ≡ self.now.identity }
        requires rest { IsAtRest seat.old.me }
        ensures own { seat.new.table_id ≡ seat.old.table_id }
        ensures ok { IfOk result (λ t. (seat.new.me ≡ (with_ticket seat.old.me.0 t, []))
            × ((known_of seat.old.me).drawn ≤ t)
            × (t < 2 ^ 62)) }
        ensures worn { OnErr result (seat.new.me ≡ (with_count seat.old.me.0 (2 ^ 62), [])) }
    {
        for _ in rt.forever() {
            let ticket = self.table.shared.load::<Count>(seat, TICKET);
            if ticket >= LAST {
                return Err(Worn);
            }
            let found = self
                .table
                .shared
                .compare_exchange::<Draw>(seat, TICKET, ticket, ticket + 1);
            if found == ticket {
                return Ok(ticket);
            }
        }
        unreachable!()
    }

    // Waits until the ticket is served, and takes the object.
    fn take<R: Wait>(&self, rt: &R, seat: &mut Place<O>, ticket: u64) -> O
        requires own { seat.old.table_id ≡ self.now.identity }
        requires waits { (k : _)
            × (seat.old.me.0.passes ≡ k ∷ [])
            × (seat.old.me.0.ticket ≡ Some ticket)
            × (seat.old.me.0.taken ≡ None)
            × (seat.old.me.1 ≡ []) }
        ensures own { seat.new.table_id ≡ seat.old.table_id }
        ensures out { seat.new.me ≡ (with_core seat.old.me.0 result, (0, None) ∷ []) }
        ensures fresh { (k : _)
            → seat.old.me.0.passes ≡ k ∷ []
            → IsFresh O.log O.by O.mark O.fixed k seat.old.me.0.terms result }
    {
        let mut waiter = Waiter::new(ticket);
        for _ in rt.forever() {
            let serving = self.table.shared.load::<Take>(seat, SERVING);
            if serving == ticket {
                match self.table.shared.exchange(seat, 0, None) {
                    Some(object) => return object,
                    None => unreachable!(),
                }
            }
            waiter.pause(rt, &self.bells, serving);
        }
        unreachable!()
    }

    // Gives the object back and ends the turn.
    fn end(&self, seat: &mut Place<O>, object: O)
        requires own { seat.old.table_id ≡ self.now.identity }
        requires has { (k : _)
            × (x : _)
            × (seat.old.me.0.passes ≡ k ∷ [])
            × (seat.old.me.0.taken ≡ Some x)
            × (seat.old.me.1 ≡ (0, None) ∷ [])
            × Grown O.log O.by O.mark O.fixed k.number x object }
        ensures own { seat.new.table_id ≡ seat.old.table_id }
        ensures rest { seat.new.me ≡ (view_after O.log O.mark object seat.old.me.0, []) }
    {
        match self.table.shared.exchange(seat, 0, Some(object)) {
            None => {}
            Some(_) => unreachable!(),
        }
        self.table.shared.fetch_add::<End>(seat, SERVING, 1);
    }

    /// What the pass has seen, for another pass of this turnstile to meet.
    pub fn note(&self, pass: &mut Pass<O>) -> Note<O>
        requires { pass.old.lock ≡ Some self.now }
        ensures same { pass.new ≡ pass.old }
        ensures told { result
            ≡ record { lock = pass.old.lock; seen = pass.old.seen; mark = pass.old.mark } }
    {
        Note {
            seat: self.table.shared.split_seat::<Tell>(&mut pass.seat),
        }
    }

    /// From now on the pass has seen what the note tells too.
    pub fn meet(&self, pass: &mut Pass<O>, note: Note<O>)
        requires pass { pass.old.lock ≡ Some self.now }
        requires note { note.lock ≡ Some self.now }
        ensures same { IsSamePass pass.old pass.new }
        ensures keeps { (mine O.by pass.new ≡ mine O.by pass.old)
            × (pass.new.turns ≡ pass.old.turns)
            × (pass.new.drawn ≡ pass.old.drawn) }
        ensures seen { StartsWith pass.new.seen pass.old.seen × StartsWith pass.new.seen note.seen }
        ensures mark { (pass.old.mark ≤ pass.new.mark) × (note.mark ≤ pass.new.mark) }
    {
        let Note { seat } = note;
        self.table.shared.join_seat::<Hear>(&mut pass.seat, seat);
        self.table.shared.load::<Learn>(&mut pass.seat, TICKET);
    }

    /// The object, where these are all passes of the turnstile. Where one is missing, the turnstile and
    /// the passes are given back.
    pub fn close(self, passes: Vec<Pass<O>>) -> Result<O, (Turnstile<O>, Vec<Pass<O>>)>
        requires { All (λ p. p.lock ≡ Some self) passes.items }
        ensures all { OnOk result (AreAll self passes.items) }
        ensures count { OnOk result (length passes.items ≡ self.count) }
        ensures ok { IfOk result (λ x. Closed O.log O.by O.mark O.fixed self passes.items x) }
        ensures missing { OnErr result (¬ AreAll self passes.items) }
        ensures other_count { OnErr result (length passes.items ≢ self.count) }
        ensures err { IfErr result (λ e. (e.0 ≡ self) × (e.1 ≡ passes)) }
    {
        if passes.len() != self.count {
            return Err((self, passes));
        }
        let seat = self.gather(passes);
        let Turnstile {
            table,
            bells: _,
            count: _,
        } = self;
        let mut closed = table.close_with(seat);
        let object = closed.take(0);
        closed.free();
        match object {
            Some(object) => Ok(object),
            None => unreachable!(),
        }
    }

    // A seat with all these passes.
    fn gather(&self, mut passes: Vec<Pass<O>>) -> Place<O>
        requires own { All (λ p. p.lock ≡ Some self.now) passes.items }
        requires some { 0 < length passes.items }
        ensures own { result.table_id ≡ self.now.identity }
        ensures all { (result.me.0.passes ≡ map known_in passes.items)
            × (result.me.0.ticket ≡ None)
            × (result.me.0.taken ≡ None)
            × (result.me.1 ≡ []) }
    {
        let Some(last) = passes.pop() else {
            unreachable!()
        };
        let Pass {
            number: _,
            seat: mut all,
        } = last;
        while let Some(pass) = passes.pop() {
            let Pass { number: _, seat } = pass;
            self.table.shared.join_seat::<Gather>(&mut all, seat);
        }
        all
    }
}
