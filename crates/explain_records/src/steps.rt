//! Why a user holds privileges, or does not, as records.
ghost use Rattle.std.specs.Prelude.{◌≡◌, ◌++◌, ◌∷◌, [], true, Some, List, All, is_some, map, slice_get, IfOk, OnOk};
ghost use Rattle.export_core.specs.Record.{IsBetween, text_in};
ghost use Rattle.base_core.specs.declared.value.Moment.{Moment as moments};
ghost use Rattle.grants_core.specs.declared.grant.Grant.{Grant as grants};
ghost use Rattle.explain_core.specs.Lives.{lives_of};
ghost use Rattle.explain_records.specs.Cells.{cell_text, word_text};
ghost use Rattle.explain_records.specs.Telling.{Fields, TellEach, lines};
ghost use Rattle.explain_records.specs.Steps.{IsWhyAnswer, TellLosses, TellsLoss, TellsReason};
ghost use Rattle.explain_records.specs.Steps.{chain_steps};
ghost use Rattle.explain_records.specs.Steps.{link_step, loss_step, loss_steps, never_given, owner_step};
ghost use Rattle.explain_records.specs.Steps.{step_fields, takes_options, way_text};

use crate::cell::{Cell, Word, any};
use crate::past::Numbered;
use crate::writing::{below, finished};
use base_core::{Atom, Moment, NoMemory, User};
use csv::Writer;
use explain_core::{Life, Why, at_moment};
use export_core::record::put_line;
use grants_core::{Change, Grant};
use std::alloc::Global;

const HEAD: &[u8] =
    b"table,user,privilege,answer,given,step,since,by,to,option,fell,how,line,revoke\n";

/// Whose privilege it is of which steps tell, by the history of a script.
#[derive(Clone, Copy)]
struct Told<'a> {
    past: Numbered<'a>,
    user: User,
    atom: Atom,
}

/// A way of grants: the moment of the grant that it leads to, and of the REVOKE by which that fell.
#[derive(Clone, Copy)]
struct Way {
    given: Moment,
    fell: Moment,
}

/// The grant of a step, of the way to a grant of this moment.
fn step_of(given: Moment, step: u64, grant: &Grant) -> [Cell; 6]
    ensures { map cell_text result ≡ step_fields given step grant.now }
{
    [
        Cell::Number(given.0),
        Cell::Number(step),
        Cell::Number(grant.moment.0),
        Cell::Name(grant.grantor.0),
        Cell::Name(grant.grantee.0),
        Cell::Flag(grant.option),
    ]
}

/// Whether a change takes options alone.
fn takes_options(change: &Change) -> bool
    ensures { result ≡ takes_options change.now }
{
    match change {
        Change::RevokeOption { .. } => true,
        Change::Create { .. } | Change::Grant { .. } | Change::Revoke { .. } | Change::Other => {
            false
        }
    }
}

impl<'a> Told<'a> {
    /// The fields of the step of an owner, behind the table.
    fn owner_of(&self, since: Moment) -> [Cell; 13]
        ensures { self.now.atom.table ∷ map cell_text result
            ≡ owner_step self.now.past.numbers.now self.now.user self.now.atom since }
    {
        [
            Cell::Name(self.user.0),
            Cell::Kind(self.atom.kind),
            Cell::Word(Word::Owns),
            Cell::Nothing,
            Cell::Number(1),
            Cell::Number(since.0),
            Cell::Nothing,
            Cell::Name(self.user.0),
            Cell::Flag(true),
            Cell::Nothing,
            Cell::Nothing,
            any(self.past.line_of(since)),
            Cell::Nothing,
        ]
    }

    /// The fields of a step of a chain by which he holds it, behind the table.
    fn link_of(&self, given: Moment, step: u64, grant: &Grant) -> [Cell; 13]
        ensures { self.now.atom.table ∷ map cell_text result
            ≡ link_step self.now.past.numbers.now self.now.user self.now.atom given step grant.now }
    {
        let [given, step, since, by, to, option] = step_of(given, step, grant);
        [
            Cell::Name(self.user.0),
            Cell::Kind(self.atom.kind),
            Cell::Word(Word::Holds),
            given,
            step,
            since,
            by,
            to,
            option,
            Cell::Nothing,
            Cell::Nothing,
            any(self.past.line_of(grant.moment)),
            Cell::Nothing,
        ]
    }

    /// What ended at a step of a way.
    fn way_word(&self, fell: Moment, step: u64) -> Word
        ensures { word_text result ≡ way_text self.now.past.history.now fell step }
    {
        if step != 1 {
            return Word::Fell;
        }
        match at_moment(self.past.history.changes(), fell) {
            Some(change) if takes_options(change) => Word::OptionRevoked,
            _ => Word::Revoked,
        }
    }

    /// The fields of a step of a way down from a REVOKE, behind the table.
    fn loss_of(&self, way: Way, step: u64, life: &Life) -> [Cell; 13]
        ensures { self.now.atom.table ∷ map cell_text result
            ≡ loss_step self.now.past.history.now self.now.past.numbers.now self.now.user
            self.now.atom way.given way.fell step life.now }
    {
        let [given, number, since, by, to, option] = step_of(way.given, step, &life.grant);
        [
            Cell::Name(self.user.0),
            Cell::Kind(self.atom.kind),
            Cell::Word(Word::Lacks),
            given,
            number,
            since,
            by,
            to,
            option,
            Cell::Number(way.fell.0),
            Cell::Word(self.way_word(way.fell, step)),
            any(self.past.line_of(life.grant.moment)),
            any(self.past.line_of(way.fell)),
        ]
    }

    /// The fields of the record of who was never granted it, behind the table.
    fn never_of(&self) -> [Cell; 13]
        ensures { self.now.atom.table ∷ map cell_text result
            ≡ never_given self.now.user self.now.atom }
    {
        let mut cells = [Cell::Nothing; 13];
        cells[0] = Cell::Name(self.user.0);
        cells[1] = Cell::Kind(self.atom.kind);
        cells[2] = Cell::Word(Word::Lacks);
        cells
    }

    /// Writes a record: the table, and these fields.
    fn put(&self, writer: &mut Writer<Vec<u8>>, cells: &[Cell]) -> Result<(), NoMemory>
        requires { IsBetween writer.old }
        ensures text { OnOk result (text_in writer.new
            ≡ text_in writer.old ++ lines ((self.now.atom.table ∷ map cell_text cells.now) ∷ [])) }
        ensures between { OnOk result (IsBetween writer.new) }
    {
        put_line(writer, self.atom.table.as_bytes(), cells)
    }

    /// Writes the grants of a chain by which he holds it, down to one of this moment.
    fn put_chain(
        &self,
        writer: &mut Writer<Vec<u8>>,
        given: Moment,
        chain: &[Grant],
    ) -> Result<(), NoMemory>
        requires { IsBetween writer.old }
        ensures text { OnOk result (text_in writer.new ≡ text_in writer.old ++ lines
            (chain_steps self.now.past.numbers.now self.now.user self.now.atom given chain.now)) }
        ensures between { OnOk result (IsBetween writer.new) }
    {
        let mut step = 0;
        for grant in chain {
            step += 1;
            self.put(writer, &self.link_of(given, step, grant))?;
        }
        Ok(())
    }

    /// Writes the steps of the way down to a grant that fell.
    fn put_way(&self, writer: &mut Writer<Vec<u8>>, way: Way, line: &[Life]) -> Result<(), NoMemory>
        requires { IsBetween writer.old }
        ensures text { OnOk result (text_in writer.new ≡ text_in writer.old ++ lines
            (loss_steps self.now.past.history.now self.now.past.numbers.now self.now.user
            self.now.atom way.given way.fell line.now)) }
        ensures between { OnOk result (IsBetween writer.new) }
    {
        let mut step = 0;
        for life in line {
            step += 1;
            self.put(writer, &self.loss_of(way, step, life))?;
        }
        Ok(())
    }

    /// Writes how a grant fell.
    fn put_loss(
        &self,
        alloc: Global,
        writer: &mut Writer<Vec<u8>>,
        life: &Life,
    ) -> Result<(), NoMemory>
        requires between { IsBetween writer.old }
        requires fell { (fell : moments) × (life.now.fell ≡ Some fell) }
        requires known { slice_get (lives_of self.now.past.history.now) life.now.grant.number
            ≡ Some life.now }
        ensures text { OnOk result ((steps : List Fields)
            × TellsLoss self.now.past.history.now self.now.past.numbers.now self.now.user
            self.now.atom life.now steps
            × (text_in writer.new ≡ text_in writer.old ++ lines steps)) }
        ensures between { OnOk result (IsBetween writer.new) }
    {
        let Some(fell) = life.fell else {
            unreachable!()
        };
        let line = self.past.history.descent(alloc, life.grant.number)?;
        let given = life.grant.moment;
        self.put_way(writer, Way { given, fell }, &line)
    }

    /// Writes how each of these grants fell, which were made to him.
    fn put_losses(
        &self,
        alloc: Global,
        writer: &mut Writer<Vec<u8>>,
        given: &[Life],
    ) -> Result<(), NoMemory>
        requires between { IsBetween writer.old }
        requires fell { All (λ life. is_some life.fell ≡ true) given.now }
        requires known { All (λ life. slice_get (lives_of self.now.past.history.now)
            life.grant.number ≡ Some life) given.now }
        ensures text { OnOk result ((steps : List Fields)
            × TellEach (TellsLoss self.now.past.history.now self.now.past.numbers.now
            self.now.user self.now.atom) given.now steps
            × (text_in writer.new ≡ text_in writer.old ++ lines steps)) }
        ensures between { OnOk result (IsBetween writer.new) }
    {
        for life in given {
            self.put_loss(alloc, writer, life)?;
        }
        Ok(())
    }

    /// Writes how each of these grants fell, which are all that were made to him; or that there was none.
    fn put_lacks(
        &self,
        alloc: Global,
        writer: &mut Writer<Vec<u8>>,
        given: &[Life],
    ) -> Result<(), NoMemory>
        requires between { IsBetween writer.old }
        requires fell { All (λ life. is_some life.fell ≡ true) given.now }
        requires known { All (λ life. slice_get (lives_of self.now.past.history.now)
            life.grant.number ≡ Some life) given.now }
        ensures text { OnOk result ((steps : List Fields)
            × TellLosses self.now.past.history.now self.now.past.numbers.now
            self.now.user self.now.atom given.now steps
            × (text_in writer.new ≡ text_in writer.old ++ lines steps)) }
        ensures between { OnOk result (IsBetween writer.new) }
    {
        if given.is_empty() {
            return self.put(writer, &self.never_of());
        }
        self.put_losses(alloc, writer, given)
    }

    /// Writes the chain by which he holds it.
    fn put_held(&self, writer: &mut Writer<Vec<u8>>, chain: &[Grant]) -> Result<(), NoMemory>
        requires between { IsBetween writer.old }
        requires some { (front : List grants) × (last : grants)
            × (chain.now ≡ front ++ last ∷ []) }
        ensures text { (front : List grants) (last : grants) → chain.now ≡ front ++ last ∷ []
            → OnOk result (text_in writer.new ≡ text_in writer.old ++ lines
            (chain_steps self.now.past.numbers.now self.now.user self.now.atom last.moment
            chain.now)) }
        ensures between { OnOk result (IsBetween writer.new) }
    {
        let Some(last) = chain.last() else {
            unreachable!()
        };
        self.put_chain(writer, last.moment, chain)
    }

    /// Writes why he holds the atom, or does not.
    fn put_reason(&self, alloc: Global, writer: &mut Writer<Vec<u8>>) -> Result<(), NoMemory>
        requires { IsBetween writer.old }
        ensures text { OnOk result ((steps : List Fields)
            × TellsReason self.now.past.history.now self.now.past.numbers.now self.now.user
            self.now.atom steps
            × (text_in writer.new ≡ text_in writer.old ++ lines steps)) }
        ensures between { OnOk result (IsBetween writer.new) }
    {
        match self.past.history.why(alloc, &self.user, &self.atom)? {
            Why::Owns { since } => self.put(writer, &self.owner_of(since)),
            Why::Holds { chain } => self.put_held(writer, &chain),
            Why::Lacks { given } => self.put_lacks(alloc, writer, &given),
        }
    }
}

/// Writes why the user holds each of the atoms, or does not.
fn put_reasons(
    alloc: Global,
    writer: &mut Writer<Vec<u8>>,
    past: &Numbered<'_>,
    user: &User,
    atoms: &[Atom],
) -> Result<(), NoMemory>
    requires { IsBetween writer.old }
    ensures { OnOk result ((steps : List Fields)
        × TellEach (TellsReason past.now.history.now past.now.numbers.now user.now) atoms.now steps
        × (text_in writer.new ≡ text_in writer.old ++ lines steps)) }
{
    for atom in atoms {
        let told = Told {
            past: *past,
            user: *user,
            atom: *atom,
        };
        told.put_reason(alloc, writer)?;
    }
    Ok(())
}

/// Why the user holds the atoms, or does not: of each what leads to it, step by step. `NoMemory` where a request for
/// memory was refused.
pub fn reasons_records(
    alloc: Global,
    past: &Numbered<'_>,
    user: &User,
    atoms: &[Atom],
) -> Result<Vec<u8>, NoMemory>
    ensures { IfOk result (λ text.
        IsWhyAnswer past.now.history.now past.now.numbers.now user.now atoms.now text.items) }
{
    let mut writer = below(alloc, HEAD)?;
    let written = put_reasons(alloc, &mut writer, past, user, atoms);
    finished(writer, written)
}
