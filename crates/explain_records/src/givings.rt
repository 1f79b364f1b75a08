//! Whom a user could give privileges to, as records.
ghost use Rattle.std.specs.Prelude.{◌≡◌, ◌++◌, IfOk, OnOk};
ghost use Rattle.std.specs.List.{flat_map};
ghost use Rattle.export_core.specs.Record.{IsBetween, text_in};
ghost use Rattle.grants_core.specs.Lawful.{AreLawful};
ghost use Rattle.grants_core.specs.Noted.{may_grant_after};
ghost use Rattle.explain_core.specs.Chains.{holds_after};
ghost use Rattle.explain_core.specs.Listed.{AreSeen};
ghost use Rattle.explain_core.specs.Lives.{lives_of};
ghost use Rattle.explain_records.specs.Cells.{word_text};
ghost use Rattle.explain_records.specs.Givings.{can_answer, gain_of, gain_text, giving_records};
ghost use Rattle.explain_records.specs.Givings.{givings_of, users_in, users_named, with_users};
ghost use Rattle.explain_records.specs.Held.{AreHeld};
ghost use Rattle.explain_records.specs.Telling.{lines};

use crate::cell::{Cell, Word};
use crate::held::Held;
use crate::writing::{below, finished};
use base_core::{Atom, NoMemory, User};
use csv::Writer;
use explain_core::{History, Users};
use export_core::record::put_line;
use grants_core::Change;
use std::alloc::Global;

const HEAD: &[u8] = b"table,by,privilege,user,gives\n";

/// What a grant would give a user.
#[derive(Clone, Copy, PartialEq, Eq)]
pub enum Gain {
    Privilege,
    /// He has the privilege without it.
    OptionAlone,
}

fn gain_word(gain: Gain) -> Word
    ensures { word_text result ≡ gain_text gain }
{
    match gain {
        Gain::Privilege => Word::Privilege,
        Gain::OptionAlone => Word::OptionAlone,
    }
}

fn note_users(known: &mut Users, users: &[User]) -> Result<(), NoMemory>
    requires { AreSeen known.old }
    ensures seen { OnOk result (AreSeen known.new) }
    ensures listed { OnOk result
        (known.new.listed.items ≡ with_users users.now known.old.listed.items) }
{
    for user in users {
        known.add(user)?;
    }
    Ok(())
}

/// Notes the users whom a change names.
fn note_change(known: &mut Users, change: &Change) -> Result<(), NoMemory>
    requires { AreSeen known.old }
    ensures seen { OnOk result (AreSeen known.new) }
    ensures listed { OnOk result
        (known.new.listed.items ≡ with_users (users_in change.now) known.old.listed.items) }
{
    match change {
        Change::Create { owner, .. } => known.add(owner),
        Change::Grant { by, whom, .. }
        | Change::Revoke { by, whom, .. }
        | Change::RevokeOption { by, whom, .. } => {
            known.add(by)?;
            note_users(known, whom.as_slice())
        }
        Change::Other => Ok(()),
    }
}

fn note_changes(known: &mut Users, changes: &[Change]) -> Result<(), NoMemory>
    requires { AreSeen known.old }
    ensures seen { OnOk result (AreSeen known.new) }
    ensures listed { OnOk result (known.new.listed.items
        ≡ with_users (flat_map users_in changes.now) known.old.listed.items) }
{
    for change in changes {
        note_change(known, change)?;
    }
    Ok(())
}

/// The users whom the changes name, each once, in order. `NoMemory` where a request for memory was refused.
pub fn users_named(alloc: Global, changes: &[Change]) -> Result<Users, NoMemory>
    ensures { IfOk result (λ users. users.listed.items ≡ users_named changes.now) }
{
    let mut known = Users::new(alloc);
    match note_changes(&mut known, changes) {
        Ok(()) => Ok(known),
        Err(NoMemory) => {
            drop(known);
            Err(NoMemory)
        }
    }
}

/// Whether the user holds the atom.
fn holds(history: &History, held: &Held, user: &User, atom: &Atom) -> bool
    requires lawful { AreLawful history.now }
    requires held { AreHeld (lives_of history.now) held.now }
    ensures { result ≡ holds_after history.now user.now atom.now }
{
    history.owns(user, atom) || held.has(user, atom)
}

/// Whether the user may grant the atom on.
pub fn may_grant(history: &History, held: &Held, user: &User, atom: &Atom) -> bool
    requires lawful { AreLawful history.now }
    requires held { AreHeld (lives_of history.now) held.now }
    ensures { result ≡ may_grant_after history.now user.now atom.now }
{
    history.owns(user, atom) || held.has_with_option(user, atom)
}

/// What a grant of the atom with the option would give the user, if anything.
pub fn gain_of(history: &History, held: &Held, user: &User, atom: &Atom) -> Option<Gain>
    requires lawful { AreLawful history.now }
    requires held { AreHeld (lives_of history.now) held.now }
    ensures { result ≡ gain_of history.now user.now atom.now }
{
    if !holds(history, held, user, atom) {
        Some(Gain::Privilege)
    } else if !may_grant(history, held, user, atom) {
        Some(Gain::OptionAlone)
    } else {
        None
    }
}

/// Who could give: a user, by the history and what is held by it.
#[derive(Clone, Copy)]
struct Giver<'a> {
    history: &'a History,
    held: &'a Held,
    by: User,
}

impl<'a> Giver<'a> {
    /// Writes what he could give another user of the atom, if anything.
    fn put_giving(
        &self,
        writer: &mut Writer<Vec<u8>>,
        atom: &Atom,
        user: &User,
    ) -> Result<(), NoMemory>
        requires between { IsBetween writer.old }
        requires lawful { AreLawful self.now.history.now }
        requires held { AreHeld (lives_of self.now.history.now) self.now.held.now }
        ensures text { OnOk result (text_in writer.new ≡ text_in writer.old ++ lines
            (giving_records self.now.history.now self.now.by atom.now user.now)) }
        ensures between { OnOk result (IsBetween writer.new) }
    {
        if *user == self.by {
            return Ok(());
        }
        let Some(gain) = gain_of(self.history, self.held, user, atom) else {
            return Ok(());
        };
        let cells = [
            Cell::Name(self.by.0),
            Cell::Kind(atom.kind),
            Cell::Name(user.0),
            Cell::Word(gain_word(gain)),
        ];
        put_line(writer, atom.table.as_bytes(), &cells)
    }

    /// Writes what he could give these users of the atom.
    fn put_to_each(
        &self,
        writer: &mut Writer<Vec<u8>>,
        atom: &Atom,
        users: &[User],
    ) -> Result<(), NoMemory>
        requires between { IsBetween writer.old }
        requires lawful { AreLawful self.now.history.now }
        requires held { AreHeld (lives_of self.now.history.now) self.now.held.now }
        ensures text { OnOk result (text_in writer.new ≡ text_in writer.old ++ lines
            (flat_map (giving_records self.now.history.now self.now.by atom.now) users.now)) }
        ensures between { OnOk result (IsBetween writer.new) }
    {
        for user in users {
            self.put_giving(writer, atom, user)?;
        }
        Ok(())
    }

    /// Writes whom he could give the atom to, of these, who are all that are named.
    fn put_givings(
        &self,
        writer: &mut Writer<Vec<u8>>,
        atom: &Atom,
        users: &[User],
    ) -> Result<(), NoMemory>
        requires between { IsBetween writer.old }
        requires lawful { AreLawful self.now.history.now }
        requires held { AreHeld (lives_of self.now.history.now) self.now.held.now }
        requires users { users.now ≡ users_named self.now.history.now }
        ensures text { OnOk result (text_in writer.new ≡ text_in writer.old ++ lines
            (givings_of self.now.history.now self.now.by atom.now)) }
        ensures between { OnOk result (IsBetween writer.new) }
    {
        if !may_grant(self.history, self.held, &self.by, atom) {
            return Ok(());
        }
        self.put_to_each(writer, atom, users)
    }

    /// Writes whom he could give each of the atoms to.
    fn put_all_givings(
        &self,
        writer: &mut Writer<Vec<u8>>,
        atoms: &[Atom],
        users: &[User],
    ) -> Result<(), NoMemory>
        requires between { IsBetween writer.old }
        requires lawful { AreLawful self.now.history.now }
        requires held { AreHeld (lives_of self.now.history.now) self.now.held.now }
        requires users { users.now ≡ users_named self.now.history.now }
        ensures { OnOk result (text_in writer.new ≡ text_in writer.old ++ lines
            (flat_map (givings_of self.now.history.now self.now.by) atoms.now)) }
    {
        for atom in atoms {
            self.put_givings(writer, atom, users)?;
        }
        Ok(())
    }

    fn givings(&self, alloc: Global, atoms: &[Atom], users: &[User]) -> Result<Vec<u8>, NoMemory>
        requires lawful { AreLawful self.now.history.now }
        requires held { AreHeld (lives_of self.now.history.now) self.now.held.now }
        requires users { users.now ≡ users_named self.now.history.now }
        ensures { IfOk result
            (λ text. text.items ≡ can_answer self.now.history.now self.now.by atoms.now) }
    {
        let mut writer = below(alloc, HEAD)?;
        let written = self.put_all_givings(&mut writer, atoms, users);
        finished(writer, written)
    }
}

/// Whom the user could give the atoms to, and what that would give them: the privilege, or the option alone. `NoMemory`
/// where a request for memory was refused.
pub fn givings_records(
    alloc: Global,
    history: &History,
    by: &User,
    atoms: &[Atom],
) -> Result<Vec<u8>, NoMemory>
    ensures { IfOk result (λ text. text.items ≡ can_answer history.now by.now atoms.now) }
{
    let users = users_named(alloc, history.changes())?;
    let held = Held::read(alloc, history)?;
    let by = *by;
    let giver = Giver {
        history,
        held: &held,
        by,
    };
    giver.givings(alloc, atoms, &users.listed)
}
