//! Grants with how long they stood, as records.
ghost use Rattle.std.specs.Prelude.{◌≡◌, ◌++◌, ◌∷◌, [], is_some, map, filter, IfOk, OnOk};
ghost use Rattle.export_core.specs.Record.{IsBetween, record_line, text_in};
ghost use Rattle.explain_records.specs.Cells.{cell_text};
ghost use Rattle.explain_records.specs.Telling.{lines};
ghost use Rattle.explain_records.specs.Records.{fell_answer, fell_record, grant_record, grants_answer};
ghost use Rattle.explain_core.specs.Lives.{lives_of};
ghost use Rattle.explain_records.specs.Records.{how_text, revoke_text};

use crate::cell::{Cell, Word, any, any_moment};
use crate::past::Numbered;
use crate::rights::right_of;
use crate::writing::{below, finished};
use base_core::NoMemory;
use csv::Writer;
use explain_core::{Life, Taking};
use export_core::record::put_line;
use std::alloc::Global;

const FELL_HEAD: &[u8] = b"table,user,privilege,option,since,by,fell,how,revoke\n";

const GRANTS_HEAD: &[u8] =
    b"table,user,privilege,option,since,by,fell,how,revoke,option_end,line\n";

impl<'a> Numbered<'a> {
    /// How the grant fell; nothing of one in force.
    pub fn how(&self, life: &Life) -> Cell
        ensures { cell_text result ≡ how_text self.now.history.now life.now }
    {
        let Some(at) = life.fell else {
            return Cell::Nothing;
        };
        Cell::Word(match self.history.taking(life, at) {
            Taking::Revoked => Word::Revoked,
            Taking::Fell | Taking::OptionRevoked => Word::Fell,
        })
    }

    /// The line by which it fell; nothing of one in force.
    fn revoke_of(&self, life: &Life) -> Cell
        ensures { cell_text result ≡ revoke_text self.now.numbers.now life.now }
    {
        match life.fell {
            Some(at) => any(self.line_of(at)),
            None => Cell::Nothing,
        }
    }

    /// The fields of a grant and how it fell, behind its table.
    fn fallen_of(&self, life: &Life) -> [Cell; 8]
        ensures { life.now.grant.atom.table ∷ map cell_text result
            ≡ fell_record self.now.history.now self.now.numbers.now life.now }
    {
        let [user, kind, option, since, by] = right_of(&life.grant);
        let fell = any_moment(life.fell);
        [
            user,
            kind,
            option,
            since,
            by,
            fell,
            self.how(life),
            self.revoke_of(life),
        ]
    }

    /// The same, from when on it had no option, and the line that made it.
    fn grant_of(&self, life: &Life) -> [Cell; 10]
        ensures { life.now.grant.atom.table ∷ map cell_text result
            ≡ grant_record self.now.history.now self.now.numbers.now life.now }
    {
        let [user, kind, option, since, by, fell, how, revoke] = self.fallen_of(life);
        let option_end = any_moment(life.option_end);
        let line = any(self.line_of(life.grant.moment));
        [
            user, kind, option, since, by, fell, how, revoke, option_end, line,
        ]
    }

    fn put_fallen(&self, writer: &mut Writer<Vec<u8>>, life: &Life) -> Result<(), NoMemory>
        requires { IsBetween writer.old }
        ensures text { OnOk result (text_in writer.new ≡ text_in writer.old ++ record_line
            (fell_record self.now.history.now self.now.numbers.now life.now)) }
        ensures between { OnOk result (IsBetween writer.new) }
    {
        put_line(
            writer,
            life.grant.atom.table.as_bytes(),
            &self.fallen_of(life),
        )
    }

    fn put_grant(&self, writer: &mut Writer<Vec<u8>>, life: &Life) -> Result<(), NoMemory>
        requires { IsBetween writer.old }
        ensures text { OnOk result (text_in writer.new ≡ text_in writer.old ++ record_line
            (grant_record self.now.history.now self.now.numbers.now life.now)) }
        ensures between { OnOk result (IsBetween writer.new) }
    {
        put_line(
            writer,
            life.grant.atom.table.as_bytes(),
            &self.grant_of(life),
        )
    }

    fn put_all_fallen(&self, writer: &mut Writer<Vec<u8>>) -> Result<(), NoMemory>
        requires { IsBetween writer.old }
        ensures { OnOk result (text_in writer.new ≡ text_in writer.old ++ lines
            (map (fell_record self.now.history.now self.now.numbers.now)
            (filter (λ life. is_some life.fell) (lives_of self.now.history.now)))) }
    {
        for life in self.history.lives() {
            if life.fell.is_some() {
                self.put_fallen(writer, life)?;
            }
        }
        Ok(())
    }

    fn put_all_grants(&self, writer: &mut Writer<Vec<u8>>) -> Result<(), NoMemory>
        requires { IsBetween writer.old }
        ensures { OnOk result (text_in writer.new ≡ text_in writer.old ++ lines
            (map (grant_record self.now.history.now self.now.numbers.now)
            (lives_of self.now.history.now))) }
    {
        for life in self.history.lives() {
            self.put_grant(writer, life)?;
        }
        Ok(())
    }
}

/// Every grant that fell. `NoMemory` where a request for memory was refused.
pub fn fallen_records(alloc: Global, past: &Numbered<'_>) -> Result<Vec<u8>, NoMemory>
    ensures { IfOk result
        (λ text. text.items ≡ fell_answer past.now.history.now past.now.numbers.now) }
{
    let mut writer = below(alloc, FELL_HEAD)?;
    let written = past.put_all_fallen(&mut writer);
    finished(writer, written)
}

/// Every grant that was ever made: also from when on it had no option, and the line that made it. `NoMemory`
/// where a request for memory was refused.
pub fn grants_records(alloc: Global, past: &Numbered<'_>) -> Result<Vec<u8>, NoMemory>
    ensures { IfOk result
        (λ text. text.items ≡ grants_answer past.now.history.now past.now.numbers.now) }
{
    let mut writer = below(alloc, GRANTS_HEAD)?;
    let written = past.put_all_grants(&mut writer);
    finished(writer, written)
}
