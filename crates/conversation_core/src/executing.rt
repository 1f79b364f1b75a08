//! Execute: a portal is carried out, or goes on.
ghost use Rattle.std.specs.Prelude.{◌≡◌, ◌<◌, [], Some, None, false, true, length, slice_get, slice_set, IfNone, IfSome};
ghost use Rattle.std.specs.Option.{option_map_or};
ghost use Rattle.session_core.specs.Gains.{Gains};
ghost use Rattle.conversation_core.specs.Extending.{AnswersExecute, AsksPortal, ExecutesPortal, execute_manner, executed, most_rows};
ghost use Rattle.conversation_core.specs.Portals.{with_portal};
ghost use Rattle.conversation_core.specs.State.{Adds};
ghost use Rattle.conversation_core.specs.declared.portals.Bound.{Bound};

use crate::conversation::Conversation;
use crate::lent::Lent;
use crate::portals::Bound;
use crate::telling::{Telling, twin_of};
use answer_core::Portal;
use asking_core::{Manner, ask};
use base_core::User;
use desk_core::Pass;
use journal_core::Keeper;
use lexer_core::Token;
use messages_core::Status;
use parameters_core::is_empty_statement;
use sending_core::{Item, Plain, Problem};
use session_core::Witness;
use std::sync::Wait;

/// From how many rows on none is left out: such a number stands for a negative one.
const NO_LIMIT: u32 = 0x8000_0000;

/// How many rows are asked for, if not all.
fn most_rows(most: u32) -> Option<usize>
    ensures { result ≡ most_rows most }
{
    if most == 0 || most >= NO_LIMIT {
        return None;
    }
    Some(most as usize)
}

/// How the statement of a portal is asked.
fn execute_manner(status: Status) -> Manner
    ensures { result ≡ execute_manner status }
{
    Manner {
        status,
        is_alone: true,
        wants_columns: false,
    }
}

/// The same portal, once it was executed.
fn executed(portal: Bound) -> Bound
    ensures { result ≡ executed portal }
{
    let Bound {
        name,
        line,
        formats,
        ..
    } = portal;
    Bound {
        name,
        line,
        formats,
        was_executed: true,
    }
}

/// Whether a portal that stands there was executed.
fn was_executed(portal: &Option<Bound>) -> bool
    ensures { result ≡ option_map_or (λ bound. bound.was_executed) portal.now true }
{
    match portal {
        Some(bound) => bound.was_executed,
        None => true,
    }
}

impl Conversation {
    /// Takes the rows that the portal at a place has left.
    fn take_left(&mut self, place: usize) -> Option<Portal>
        requires { place < length self.old.state.portals }
        ensures left { slice_get self.old.state.lefts place ≡ Some result }
        ensures state { self.new.state ≡ record (self.old.state) {
          lefts = slice_set self.old.state.lefts place None;
        } }
        ensures sending { self.new.sending ≡ self.old.sending }
    {
        self.lefts[place].take()
    }

    /// Takes the portal at a place away, unless it was executed.
    fn take_fresh(&mut self, place: usize) -> Option<Bound>
        requires { place < length self.old.state.portals }
        ensures fresh { IfSome result (λ portal. (portal.was_executed ≡ false)
            × (slice_get self.old.state.portals place ≡ Some (Some portal))
            × (self.new.state ≡ with_portal place None self.old.state)) }
        ensures done { IfNone result ((self.new.state ≡ self.old.state) × ((portal : Bound)
            → slice_get self.old.state.portals place ≡ Some (Some portal)
            → portal.was_executed ≡ true)) }
        ensures sending { self.new.sending ≡ self.old.sending }
    {
        if was_executed(&self.portals[place]) {
            return None;
        }
        self.portals[place].take()
    }

    /// Has a portal stand at a place again, if there is such a place: it was executed.
    fn put_back(&mut self, place: usize, portal: Bound)
        ensures state { self.new.state ≡ with_portal place (Some (executed portal)) self.old.state }
        ensures sending { self.new.sending ≡ self.old.sending }
    {
        if place < self.portals.len() {
            self.portals[place] = Some(executed(portal));
        }
    }

    /// Asks the statement of a portal, which was taken from its place.
    fn execute_fresh<K: Keeper + Drop, R: Wait, G: Witness>(
        &mut self,
        lent: &Lent<'_, K, R, G>,
        pass: &mut Pass<K>,
        tokens: &mut Vec<Token>,
        user: User,
        place: usize,
        most: u32,
        portal: Bound,
    )
        requires pass { pass.old.lock ≡ Some lent.now.desk.now }
        requires free { self.old.sending.items ≡ [] }
        ensures adds { Adds self.old self.new (λ answer new. AsksPortal
            lent.now.desk.now user most place portal self.old.state pass.old answer new pass.new) }
        ensures gained { Gains user pass.old pass.new }
    {
        let line = portal.line.as_slice();
        if is_empty_statement(line) {
            self.put_back(place, portal);
            return self.send(Plain::EmptyQuery);
        }
        let manner = execute_manner(self.block);
        let asked = ask(
            lent.rt, lent.alloc, lent.desk, pass, user, line, tokens, manner, lent.gate,
        );
        let telling = Telling {
            formats: twin_of(&portal.formats),
            is_described: false,
            most: most_rows(most),
            portal: Some(place),
        };
        let is_well = self.tell_asked(tokens, telling, line, None, asked);
        self.put_back(place, portal);
        if !is_well {
            self.skip();
        }
    }

    /// Carries out the portal that stands at a place, or has it go on.
    fn execute_at<K: Keeper + Drop, R: Wait, G: Witness>(
        &mut self,
        lent: &Lent<'_, K, R, G>,
        pass: &mut Pass<K>,
        tokens: &mut Vec<Token>,
        user: User,
        place: usize,
        most: u32,
    )
        requires pass { pass.old.lock ≡ Some lent.now.desk.now }
        requires free { self.old.sending.items ≡ [] }
        requires within { place < length self.old.state.portals }
        ensures adds { (portal : Bound)
            → slice_get self.old.state.portals place ≡ Some (Some portal)
            → Adds self.old self.new (λ answer new. ExecutesPortal
            lent.now.desk.now user most place portal self.old.state pass.old answer new pass.new) }
        ensures gained { Gains user pass.old pass.new }
    {
        if let Some(left) = self.take_left(place) {
            return self.respond(Item::Rest {
                unsent: left.resume(most_rows(most)),
                portal: Some(place),
            });
        }
        match self.take_fresh(place) {
            Some(portal) => self.execute_fresh(lent, pass, tokens, user, place, most, portal),
            None => self.refuse(Problem::PortalDone),
        }
    }

    /// Answers an Execute, through the pass. What the vector of tokens has before and behind the call means
    /// nothing.
    pub(crate) fn execute<K: Keeper + Drop, R: Wait, G: Witness>(
        &mut self,
        lent: &Lent<'_, K, R, G>,
        pass: &mut Pass<K>,
        tokens: &mut Vec<Token>,
        user: User,
        name: &[u8],
        most: u32,
    )
        requires pass { pass.old.lock ≡ Some lent.now.desk.now }
        requires free { self.old.sending.items ≡ [] }
        ensures adds { Adds self.old self.new (λ answer new. AnswersExecute
            lent.now.desk.now user name.now most self.old.state pass.old answer new pass.new) }
        ensures gained { Gains user pass.old pass.new }
    {
        match self.place_of(name) {
            Some(place) => self.execute_at(lent, pass, tokens, user, place, most),
            None => self.refuse(Problem::NoPortal),
        }
    }
}
