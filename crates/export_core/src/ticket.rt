//! An export on its way.
ghost use Rattle.std.specs.Prelude.{◌≡◌, ◌≤◌, ◌+◌, ◌↔◌, [], true, false, length, take, drop, slice_get, position, option_map, Some, IfOk, IfErr, IsOk, IsErrOf, OnOk, OnErr};
ghost use Rattle.std.specs.Arc.{arc_value};
ghost use Rattle.std.specs.List.{concat};
ghost use Rattle.std.specs.Io.KnownBytes.{Appends};
ghost use Rattle.base_core.specs.Words.{same_name};
ghost use Rattle.export_core.specs.Export as exports;
ghost use Rattle.export_core.specs.Export.{IsAllowed};
ghost use Rattle.export_core.specs.Ticket.{issued, after_giving, finished, WritesSome, Stops};

use crate::asked::Asked;
use crate::fault::ExportFault;
use crate::judgement::judged_now;
use crate::passage::Passage;
use crate::walk::Walk;
use base_core::{Gate, Moment, Name, NoMemory, Sink, User};
use capture_core::{Image, TableImage};
use grants_core::Authority;
use std::alloc::Global;
use std::marker::Model;
use std::sync::Arc;

/// An export of a checkpoint to a user. Contracts see the number and the point of the checkpoint,
/// the moment of the request, the records given so far, and those to come.
///
/// It shares the checkpoint's image and copies nothing of it: each record is made when it is asked
/// for. What the image says of the user's rights is looked up once, for the first record.
#[derive(Drop)]
pub struct Ticket {
    asked: Asked,
    // From the first record on.
    walk: Option<Walk>,
    // How many records gates have let through.
    passed: u64,
}

impl Model for Ticket {
    ghost use Rattle.std.specs.Prelude.{unwrap_or};
    ghost use Rattle.export_core.specs.Ticket.{TicketState};

    ghost Value = { TicketState };

    ghost view = { λ t. unwrap_or t.walk t.asked };
}

fn place_of(tables: &[TableImage], name: Name) -> Option<usize>
    ensures { result ≡ position (λ t. same_name name t.name) tables.now }
{
    tables.iter().position(|table| name == table.name)
}

// The tables of an export, and how many of the image's stand before them.
fn chosen(tables: &[TableImage], only: Option<Name>) -> (usize, &[TableImage])
    ensures tables { result.1.now ≡ exports.chosen tables.now only }
    ensures part { result.1.now ≡ take (length result.1.now) (drop result.0 tables.now) }
    ensures fits { result.0 + length result.1.now ≤ length tables.now }
{
    let Some(name) = only else {
        return (0, tables);
    };
    match place_of(tables, name) {
        Some(first) => (first, &tables[first..first + 1]),
        None => (0, &tables[..0]),
    }
}

impl Ticket {
    /// An export of the image to the user, of which nothing is given yet: of all tables, or of
    /// `only` alone. A table is listed with the columns of which the user held SELECT at the
    /// image's point, by the owners and grants captured, and holds it by `rights`, those of the
    /// request; its rows are cut to them. Where there is no such column, it is withheld. The rights
    /// are looked up here, once; what the image says, which never changes, for the first record.
    /// What is revoked later takes nothing from the export. `now` is the moment of the request.
    ///
    /// A table that `only` names has to be in the image, and to have a column of which the user has
    /// SELECT at both moments. `NoMemory` where a request for memory was refused.
    pub fn issue<A: Authority>(
        alloc: Global,
        image: &Arc<Image>,
        user: User,
        rights: &A,
        only: Option<Name>,
        now: Moment,
    ) -> Result<Ticket, NoMemory>
        requires { IsAllowed (arc_value image.now) (A.content rights.now) user only }
        ensures { IfOk result
            (λ ticket. ticket ≡ issued (arc_value image.now) (A.content rights.now) user only now) }
    {
        let (first, tables) = chosen(image.tables.as_slice(), only);
        let judged = judged_now(alloc, rights, &user, tables)?;
        let asked = Asked {
            image: image.clone()?,
            user,
            at: now,
            first,
            by_rights: judged,
        };
        Ok(Ticket {
            asked,
            walk: None,
            passed: 0,
        })
    }

    /// The number of the checkpoint. It takes no memory.
    pub fn number(&self) -> u64
        ensures { result ≡ self.now.number }
    {
        match &self.walk {
            Some(walk) => walk.number(),
            None => self.asked.number(),
        }
    }

    /// The point of the checkpoint. It takes no memory.
    pub fn point(&self) -> Moment
        ensures { result ≡ self.now.point }
    {
        match &self.walk {
            Some(walk) => walk.point(),
            None => self.asked.point(),
        }
    }

    /// The moment of the request. It takes no memory.
    pub fn at(&self) -> Moment
        ensures { result ≡ self.now.at }
    {
        match &self.walk {
            Some(walk) => walk.at(),
            None => self.asked.at(),
        }
    }

    // The walk over the tables, which begins here if it has not begun.
    fn take_walk(&mut self) -> Result<Walk, NoMemory>
        ensures ok { IfOk result (λ walk. walk ≡ self.old) }
        ensures err { OnErr result (self.new ≡ self.old) }
        ensures end { self.old.to_come ≡ [] → IsOk result }
    {
        match self.walk.take() {
            Some(walk) => Ok(walk),
            None => self.asked.begin(),
        }
    }

    /// The next record, with its line feed, which then counts as given. None exactly at the end. On
    /// `NoMemory`, where a request for memory was refused, the same record comes next.
    pub fn next_record(&mut self) -> Result<Option<Vec<u8>>, NoMemory>
        ensures line { IfOk result
            (λ line. option_map (λ bytes. bytes.items) line ≡ slice_get self.old.to_come 0) }
        ensures ok { OnOk result (self.new ≡ after_giving 1 self.old) }
        ensures err { OnErr result (self.new ≡ self.old) }
        ensures end { self.old.to_come ≡ [] → IsOk result }
    {
        let mut walk = self.take_walk()?;
        let record = walk.next_record();
        self.walk = Some(walk);
        record
    }

    /// Gives some of the records to come and writes them: the next one, and the rows that come
    /// behind it, at most 128. Whether records are still to come. Before each record the gate is
    /// called with how many were written before it, by this call or an earlier one.
    ///
    /// - `NoMemory` where a request for memory was refused: the records before it were given and
    ///   written, and the one that it was for comes next.
    /// - `Write` exactly where the writer failed: the records before it were given and written, and a
    ///   front of the one that it stopped at, which counts as given.
    pub fn write_some<W: Sink, G: Gate>(
        &mut self,
        writer: &mut W,
        gate: &G,
    ) -> Result<bool, ExportFault>
        requires { W.failed writer.old ≡ false }
        ensures write { IsErrOf result ExportFault.Write ↔ (W.failed writer.new ≡ true) }
        ensures more { IfOk result (λ more. (more ≡ false) ↔ (self.new.to_come ≡ [])) }
        ensures ok { OnOk result
            (WritesSome self.old self.new (W.taken writer.old) (W.taken writer.new)) }
        ensures err { IfErr result
            (λ fault. Stops fault self.old self.new (W.taken writer.old) (W.taken writer.new)) }
    {
        let Ok(mut walk) = self.take_walk() else {
            return Err(ExportFault::NoMemory);
        };
        let mut passage = Passage::new(gate, self.passed);
        let more = walk.write_some(writer, &mut passage);
        self.passed = passage.given();
        self.walk = Some(walk);
        more
    }

    /// Gives all records to come and writes them. Before each, the last line too, the gate is
    /// called with how many were written before it, by this call or by one of
    /// [`Ticket::write_some`].
    ///
    /// - `NoMemory` where a request for memory was refused: the records before it were given and
    ///   written, and the one that it was for comes next.
    /// - `Write` exactly where the writer failed: the records before it were given and written, and a
    ///   front of the one that it stopped at, which counts as given.
    pub fn write_to<W: Sink, G: Gate>(
        &mut self,
        writer: &mut W,
        gate: &G,
    ) -> Result<(), ExportFault>
        requires { W.failed writer.old ≡ false }
        ensures write { IsErrOf result ExportFault.Write ↔ (W.failed writer.new ≡ true) }
        ensures ok { OnOk result (self.new ≡ finished self.old) }
        ensures written { OnOk result
            (Appends (W.taken writer.old) (W.taken writer.new) (concat self.old.to_come)) }
        ensures err { IfErr result
            (λ fault. Stops fault self.old self.new (W.taken writer.old) (W.taken writer.new)) }
    {
        let Ok(mut walk) = self.take_walk() else {
            return Err(ExportFault::NoMemory);
        };
        let mut passage = Passage::new(gate, self.passed);
        let written = walk.write_to(writer, &mut passage);
        self.passed = passage.given();
        self.walk = Some(walk);
        written
    }
}
