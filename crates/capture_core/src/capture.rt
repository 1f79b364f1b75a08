//! A checkpoint that is being captured.
ghost use Rattle.std.specs.Prelude.{◌≡◌, ◌+◌, ◌^◌, ◌<◌, [], max, length, sum_by, Err, Some, None, option_map, option_and_then, MatchOption, IsOk, IfOk, OnOk, OnErr};
ghost use Rattle.capture_core.specs.Image.{row_total};
ghost use Rattle.capture_core.specs.Capturing.{begin_lack, newly_begun, in_progress, taken_off, CanGoOn, TellsProgress};

use crate::active::Active;
use crate::progress::Progress;
use base_core::{Lack, Moment, NoMemory, What};
use graph_core::Graph;
use std::alloc::Global;
use std::marker::Model;
use tables_core::Tables;

/// How many checkpoints were begun, and the capture that is active, if one is. Contracts see both,
/// and what the capture has taken so far.
#[derive(Drop)]
pub struct Capture {
    alloc: Global,
    begun: u64,
    active: Option<Active>,
}

impl Model for Capture {
    ghost use Rattle.capture_core.specs.Capturing.{Capturing};

    ghost Value = { Capturing };

    ghost view = { λ c. record { begun = c.begun; active = c.active } };
}

/// How many records there are to take: one at least.
fn records(tables: &Tables, rights: &Graph) -> u64
    requires { sum_by length tables.now.rest + length rights.now.rest < 2 ^ 63 }
    ensures { result ≡ max (sum_by length tables.now.rest + length rights.now.rest) 1 }
{
    let records = tables.left() as u64 + rights.left();
    records.max(1)
}

impl Capture {
    /// Nothing begun, and nothing active. It takes no memory.
    pub fn new(alloc: Global) -> Capture
        ensures { result ≡ record { begun = 0; active = None } }
    {
        Capture {
            alloc,
            begun: 0,
            active: None,
        }
    }

    /// The number and the point of the active capture, and how many records are left. None where
    /// none is active. It takes no memory.
    pub fn active(&self) -> Option<(u64, Moment, u64)>
        ensures { result ≡ option_map (λ a. (a.number, a.point, a.left)) self.now.active }
    {
        let active = self.active.as_ref()?;
        Some((active.number(), active.point(), active.left()))
    }

    fn lack(&self, limit: u64) -> Option<Lack>
        ensures { result ≡ begin_lack self.now limit }
    {
        if self.active.is_some() {
            Some(Lack::Busy)
        } else if limit <= self.begun {
            Some(Lack::Full(What::Checkpoints))
        } else {
            None
        }
    }

    /// Begins a checkpoint of these tables and rights and answers its number, which is one more
    /// than those begun before. `point` is the number of changes accepted so far, and `limit` how
    /// many checkpoints may be begun. There must be fewer than 2^63 rows and grants in all.
    ///
    /// It is constant and takes no memory: tables and rights keep from now on what changes before
    /// the steps come to it (Cao et al. 2011, Copy-on-Update). So the image to come is the state at
    /// this call, whatever is changed later.
    ///
    /// - `Busy` where a capture is active.
    /// - Else `Full`, of checkpoints, where as many were begun as there may be.
    ///
    /// After each of these nothing has changed, and no number is used up.
    #[tactic(auto, using(crate::proofs::BeginLemmas::length_all_rows, crate::proofs::BeginLemmas::sum_rows_by_table))]
    pub fn begin(
        &mut self,
        tables: &mut Tables,
        rights: &mut Graph,
        point: Moment,
        limit: u64,
    ) -> Result<u64, Lack>
        requires { row_total tables.old.tables + length rights.old.content.in_force < 2 ^ 63 }
        ensures lack { MatchOption (begin_lack self.old limit)
            (IsOk result) (λ lack. result ≡ Err lack) }
        ensures number { IfOk result (λ number. number ≡ self.old.begun + 1) }
        ensures begun { OnOk result (self.new.begun ≡ self.old.begun + 1) }
        ensures begins { IfOk result (λ number.
            in_progress self.new.active tables.new rights.new.rest
            ≡ Some (newly_begun number point tables.old.tables rights.old.content)) }
        ensures goes_on { OnOk result (CanGoOn self.new.active tables.new rights.new.rest) }
        ensures tables { tables.new.tables ≡ tables.old.tables }
        ensures rights { rights.new.content ≡ rights.old.content }
        ensures unchanged { OnErr result (self.new ≡ self.old) }
        ensures same_tables { OnErr result (tables.new ≡ tables.old) }
        ensures same_rights { OnErr result (rights.new ≡ rights.old) }
    {
        if let Some(lack) = self.lack(limit) {
            return Err(lack);
        }
        tables.begin();
        rights.begin();
        self.begun += 1;
        let left = records(tables, rights);
        self.active = Some(Active::new(self.alloc, self.begun, point, left));
        Ok(self.begun)
    }

    /// Takes `k` records off those that are left, or all where they are no more, and tells how many
    /// are left then. With none left the capture has ended, and the image is handed out. `Idle`
    /// where none is active: then nothing has changed, and no memory was asked for. Tables and
    /// rights must be those of `begin`, as they and the steps changed them, so that no more is due
    /// than is left.
    ///
    /// `NoMemory` where a request for memory was refused: then as many records are left as before,
    /// and the same image is to come.
    pub fn step(
        &mut self,
        tables: &mut Tables,
        rights: &mut Graph,
        k: usize,
    ) -> Result<Progress, NoMemory>
        requires { CanGoOn self.old.active tables.old rights.old.rest }
        ensures idle { self.old.active ≡ None → IsOk result }
        ensures tells { IfOk result (λ progress.
            TellsProgress k (in_progress self.old.active tables.old rights.old.rest) progress) }
        ensures ok { OnOk result (in_progress self.new.active tables.new rights.new.rest
            ≡ option_and_then (taken_off k)
            (in_progress self.old.active tables.old rights.old.rest)) }
        ensures err { OnErr result (in_progress self.new.active tables.new rights.new.rest
            ≡ in_progress self.old.active tables.old rights.old.rest) }
        ensures goes_on { CanGoOn self.new.active tables.new rights.new.rest }
        ensures begun { self.new.begun ≡ self.old.begun }
        ensures tables { tables.new.tables ≡ tables.old.tables }
        ensures rights { rights.new.content ≡ rights.old.content }
    {
        let Some(mut active) = self.active.take() else {
            return Ok(Progress::Idle);
        };
        let left = active.left().saturating_sub(k as u64);
        if active.take(tables, rights, left).is_err() {
            self.active = Some(active);
            return Err(NoMemory);
        }
        if left > 0 {
            self.active = Some(active.with_left(left));
            return Ok(Progress::Left(left));
        }
        match active.into_image(tables) {
            Ok(image) => Ok(Progress::Done(image)),
            Err(active) => {
                self.active = Some(active);
                Err(NoMemory)
            }
        }
    }

    /// Gives the active capture up, and hands out what it has taken, which the caller lets go of.
    /// No later one gets its number. None where none is active. It takes no memory.
    pub fn abandon(&mut self, tables: &mut Tables, rights: &mut Graph) -> Option<Active>
        ensures active { result ≡ self.old.active }
        ensures after { self.new ≡ record self.old { active = None } }
        ensures tables { tables.new ≡ record tables.old { rest = [] } }
        ensures rights { rights.new ≡ record rights.old { rest = [] } }
    {
        tables.abandon();
        rights.abandon();
        self.active.take()
    }
}
