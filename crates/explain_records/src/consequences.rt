//! What a change takes from whom, as records.
ghost use Rattle.std.specs.Prelude.{◌≡◌, ◌++◌, ◌∷◌, true, filter, map, IfOk, OnOk};
ghost use Rattle.std.specs.List.{Contains};
ghost use Rattle.indexmap.specs.IndexMap.{get};
ghost use Rattle.grants_core.specs.declared.key.Holding.{Holding as holdings};
ghost use Rattle.grants_core.specs.Keys.{same_holding};
ghost use Rattle.grants_core.specs.Lawful.{AreLawful};
ghost use Rattle.export_core.specs.Record.{IsBetween, record_line, text_in};
ghost use Rattle.explain_core.specs.Falls.{is_taken_at};
ghost use Rattle.explain_core.specs.Lives.{lives_of};
ghost use Rattle.explain_records.specs.Cells.{cell_text, word_text};
ghost use Rattle.explain_records.specs.Consequences.{consequence_record, if_answer, moment_of_last};
ghost use Rattle.explain_records.specs.Consequences.{outcome_text, taking_text};
ghost use Rattle.explain_records.specs.Outcomes.{AreOutcomes, left_text};
ghost use Rattle.explain_records.specs.Telling.{answer_of, lines};

use crate::cell::{Cell, Word, any};
use crate::outcomes::{Outcome, Outcomes};
use crate::past::Numbered;
use crate::writing::{below, finished};
use base_core::{Moment, NoMemory};
use csv::Writer;
use explain_core::{History, Life, Taking};
use export_core::record::put_line;
use std::alloc::Global;

const HEAD: &[u8] = b"table,user,privilege,option,since,by,how,line,outcome\n";

/// How a grant is taken.
fn taking_word(taking: Taking) -> Word
    ensures { word_text result ≡ taking_text taking }
{
    match taking {
        Taking::Revoked => Word::Revoked,
        Taking::Fell => Word::Fell,
        Taking::OptionRevoked => Word::OptionRevoked,
    }
}

/// What is left, in words, to a user who owns the table or does not.
fn left_word(is_owner: bool, outcome: Outcome) -> Word
    ensures { word_text result ≡ left_text is_owner outcome }
{
    if is_owner {
        Word::Keeps
    } else if outcome.kept.is_none() {
        Word::Loses
    } else if outcome.lost_option && !outcome.has_option {
        Word::KeepsWithoutOption
    } else {
        Word::Keeps
    }
}

/// What the change of a moment leaves to the grantee of a life that it took.
fn outcome_word(history: &History, outcomes: &Outcomes, at: Moment, life: &Life) -> Word
    requires lawful { AreLawful history.now }
    requires outcomes { AreOutcomes (lives_of history.now) at outcomes.now }
    requires taken { is_taken_at at life.now ≡ true }
    requires known { Contains (lives_of history.now) life.now }
    ensures { word_text result
        ≡ outcome_text history.now at life.now.grant.grantee life.now.grant.atom }
{
    let is_owner = history.owns(&life.grant.grantee, &life.grant.atom);
    let Some(outcome) = outcomes.of_life(life) else {
        unreachable!()
    };
    left_word(is_owner, outcome)
}

impl<'a> Numbered<'a> {
    /// The fields of a grant that is taken, or its option, behind its table.
    fn consequence_of(&self, outcomes: &Outcomes, at: Moment, life: &Life) -> [Cell; 8]
        requires lawful { AreLawful self.now.history.now }
        requires outcomes { AreOutcomes (lives_of self.now.history.now) at outcomes.now }
        requires taken { is_taken_at at life.now ≡ true }
        requires known { Contains (lives_of self.now.history.now) life.now }
        ensures { life.now.grant.atom.table ∷ map cell_text result
            ≡ consequence_record self.now.history.now self.now.numbers.now at life.now }
    {
        [
            Cell::Name(life.grant.grantee.0),
            Cell::Kind(life.grant.atom.kind),
            Cell::Flag(life.loses_option_at(at)),
            Cell::Number(life.grant.moment.0),
            Cell::Name(life.grant.grantor.0),
            Cell::Word(taking_word(self.history.taking(life, at))),
            any(self.line_of(life.grant.moment)),
            Cell::Word(outcome_word(self.history, outcomes, at, life)),
        ]
    }

    /// Writes a grant that is taken, or its option.
    fn put_consequence(
        &self,
        writer: &mut Writer<Vec<u8>>,
        outcomes: &Outcomes,
        at: Moment,
        life: &Life,
    ) -> Result<(), NoMemory>
        requires between { IsBetween writer.old }
        requires lawful { AreLawful self.now.history.now }
        requires outcomes { AreOutcomes (lives_of self.now.history.now) at outcomes.now }
        requires taken { is_taken_at at life.now ≡ true }
        requires known { Contains (lives_of self.now.history.now) life.now }
        ensures text { OnOk result (text_in writer.new ≡ text_in writer.old ++ record_line
            (consequence_record self.now.history.now self.now.numbers.now at life.now)) }
        ensures between { OnOk result (IsBetween writer.new) }
    {
        let cells = self.consequence_of(outcomes, at, life);
        put_line(writer, life.grant.atom.table.as_bytes(), &cells)
    }

    /// Writes all that the change of this moment takes.
    fn put_consequences(
        &self,
        writer: &mut Writer<Vec<u8>>,
        outcomes: &Outcomes,
        at: Moment,
    ) -> Result<(), NoMemory>
        requires between { IsBetween writer.old }
        requires lawful { AreLawful self.now.history.now }
        requires outcomes { AreOutcomes (lives_of self.now.history.now) at outcomes.now }
        ensures { OnOk result (text_in writer.new ≡ text_in writer.old ++ lines
            (map (consequence_record self.now.history.now self.now.numbers.now at)
            (filter (is_taken_at at) (lives_of self.now.history.now)))) }
    {
        for life in self.history.lives() {
            if life.is_taken_at(at) {
                self.put_consequence(writer, outcomes, at, life)?;
            }
        }
        Ok(())
    }

    /// All that the change of this moment takes.
    fn consequences(
        &self,
        alloc: Global,
        outcomes: &Outcomes,
        at: Moment,
    ) -> Result<Vec<u8>, NoMemory>
        requires last { at ≡ moment_of_last self.now.history.now }
        requires lawful { AreLawful self.now.history.now }
        requires outcomes { AreOutcomes (lives_of self.now.history.now) at outcomes.now }
        ensures { IfOk result
            (λ text. text.items ≡ if_answer self.now.history.now self.now.numbers.now) }
    {
        let mut writer = below(alloc, HEAD)?;
        let written = self.put_consequences(&mut writer, outcomes, at);
        finished(writer, written)
    }
}

/// What the last change takes: each grant that it revokes or that falls with it, or whose option ends, and what is left
/// to its grantee. `NoMemory` where a request for memory was refused.
pub fn consequences_records(alloc: Global, past: &Numbered<'_>) -> Result<Vec<u8>, NoMemory>
    ensures { IfOk result
        (λ text. text.items ≡ if_answer past.now.history.now past.now.numbers.now) }
{
    let at = Moment(past.history.changes().len() as u64);
    let outcomes = Outcomes::read(alloc, past.history, at)?;
    past.consequences(alloc, &outcomes, at)
}
