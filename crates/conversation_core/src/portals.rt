//! The portals that a session has bound.
ghost use Rattle.std.specs.Prelude.{◌≡◌, ◌<◌, ◌++◌, [], ◌∷◌, None, Some, length, IfSome, MatchOption, OnErr, OnOk};
ghost use Rattle.conversation_core.specs.Extending.{IsPortalNameFault, IsPortalNameFree};
ghost use Rattle.conversation_core.specs.Portals.{IsPortalNamed, KeepsPortal, StandsIn, free_place, is_free};
ghost use Rattle.conversation_core.specs.State.{is_named_portal, is_portal_called, portal_count, portal_place, put_portal};

use crate::conversation::Conversation;
use crate::statements::is_unnamed;
use answer_core::Formats;
use base_core::Sequence;
use sending_core::Problem;
use std::alloc::AllocError;

/// The named portals that a session may have.
pub const MOST_PORTALS: usize = 8;

/// A portal: its name, which is empty for the unnamed one; the line of a statement whose places have their
/// values; the formats of the columns of its rows; and whether it was executed.
#[derive(Drop)]
pub struct Bound {
    pub name: Sequence<u8>,
    pub line: Sequence<u8>,
    pub formats: Formats,
    pub was_executed: bool,
}

/// Whether a portal stands there, of this name.
fn is_portal_called(portal: &Option<Bound>, name: &[u8]) -> bool
    ensures { result ≡ is_portal_called name.now portal.now }
{
    match portal {
        Some(bound) => bound.name.as_slice() == name,
        None => false,
    }
}

/// Whether a portal stands there that has a name.
fn is_named_portal(portal: &Option<Bound>) -> bool
    ensures { result ≡ is_named_portal portal.now }
{
    match portal {
        Some(bound) => !is_unnamed(bound.name.as_slice()),
        None => false,
    }
}

/// Whether no portal stands there.
fn is_free(portal: &Option<Bound>) -> bool
    ensures { result ≡ is_free portal.now }
{
    portal.is_none()
}

/// The place of the portal of this name.
fn portal_place(portals: &[Option<Bound>], name: &[u8]) -> Option<usize>
    ensures place { result ≡ portal_place name.now portals.now }
    ensures within { IfSome result (λ place. place < length portals.now) }
{
    portals
        .iter()
        .position(|portal| is_portal_called(portal, name))
}

/// The first place without a portal.
fn free_place(portals: &[Option<Bound>]) -> Option<usize>
    ensures place { result ≡ free_place portals.now }
    ensures within { IfSome result (λ place. place < length portals.now) }
{
    portals.iter().position(is_free)
}

/// The portal of this name.
fn portal_named<'a>(portals: &'a [Option<Bound>], name: &[u8]) -> Option<&'a Bound>
    ensures { MatchOption result (portal_place name.now portals.now ≡ None)
        (λ portal. IsPortalNamed name.now portals.now portal.now) }
{
    let place = portal_place(portals, name)?;
    portals[place].as_ref()
}

/// How many portals have a name.
fn portal_count(portals: &[Option<Bound>]) -> usize
    ensures { result ≡ portal_count portals.now }
{
    portals
        .iter()
        .filter(|portal| is_named_portal(portal))
        .count()
}

/// What stands in the way of a name for a portal.
fn name_fault(portals: &[Option<Bound>], name: &[u8]) -> Option<Problem>
    ensures { MatchOption result (IsPortalNameFree portals.now name.now)
        (IsPortalNameFault portals.now name.now) }
{
    if is_unnamed(name) {
        return None;
    }
    if portal_place(portals, name).is_some() {
        return Some(Problem::PortalExists);
    }
    if portal_count(portals) >= MOST_PORTALS {
        return Some(Problem::TooManyPortals);
    }
    None
}

impl Conversation {
    /// The place of the portal of this name.
    pub(crate) fn place_of(&self, name: &[u8]) -> Option<usize>
        ensures place { result ≡ portal_place name.now self.now.state.portals }
        ensures within { IfSome result (λ place. place < length self.now.state.portals) }
    {
        portal_place(self.portals.as_slice(), name)
    }

    /// The portal of this name.
    pub(crate) fn portal(&self, name: &[u8]) -> Option<&Bound>
        ensures { MatchOption result (portal_place name.now self.now.state.portals ≡ None)
            (λ portal. IsPortalNamed name.now self.now.state.portals portal.now) }
    {
        portal_named(self.portals.as_slice(), name)
    }

    /// What stands in the way of a name for a portal.
    pub(crate) fn portal_fault(&self, name: &[u8]) -> Option<Problem>
        ensures { MatchOption result (IsPortalNameFree self.now.state.portals name.now)
            (IsPortalNameFault self.now.state.portals name.now) }
    {
        name_fault(self.portals.as_slice(), name)
    }

    /// Where a portal of this name is to stand: in place of the one of its name, or where none stands.
    fn place_for(&self, name: &[u8]) -> Option<usize>
        ensures { MatchOption result
            ((portal_place name.now self.now.state.portals ≡ None)
            × (free_place self.now.state.portals ≡ None))
            (λ place. (place < length self.now.state.portals)
            × StandsIn name.now self.now.state.portals place) }
    {
        match portal_place(self.portals.as_slice(), name) {
            Some(place) => Some(place),
            None => free_place(self.portals.as_slice()),
        }
    }

    /// Has this stand at a place, and no rows left of it.
    pub(crate) fn put_portal(&mut self, place: usize, portal: Option<Bound>)
        requires { place < length self.old.state.portals }
        ensures state { self.new.state ≡ put_portal place portal self.old.state }
        ensures sending { self.new.sending ≡ self.old.sending }
    {
        self.portals[place] = portal;
        self.lefts[place] = None;
    }

    /// Has a portal stand behind all others. `AllocError` where memory was refused: then all is as before.
    fn add_portal(&mut self, portal: Bound) -> Result<(), AllocError>
        ensures ok { OnOk result (self.new.state ≡ record (self.old.state) {
          portals = self.old.state.portals ++ Some portal ∷ [];
          lefts = self.old.state.lefts ++ None ∷ [];
        }) }
        ensures err { OnErr result (self.new.state ≡ self.old.state) }
        ensures sending { self.new.sending ≡ self.old.sending }
    {
        self.portals.reserve(1)?;
        self.lefts.reserve(1)?;
        self.portals.push_reserved(Some(portal));
        self.lefts.push_reserved(None);
        Ok(())
    }

    /// Keeps a portal: in place of the one of its name, or in the first free place, or behind all others.
    /// `AllocError` where memory was refused: then all is as before.
    pub(crate) fn keep_portal(&mut self, portal: Bound) -> Result<(), AllocError>
        ensures ok { OnOk result (KeepsPortal portal self.old.state self.new.state) }
        ensures err { OnErr result (self.new.state ≡ self.old.state) }
        ensures sending { self.new.sending ≡ self.old.sending }
    {
        match self.place_for(portal.name.as_slice()) {
            Some(place) => {
                self.put_portal(place, Some(portal));
                Ok(())
            }
            None => self.add_portal(portal),
        }
    }
}
