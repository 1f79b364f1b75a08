//! What an active capture has taken.
ghost use Rattle.std.specs.Prelude.{◌≡◌, ◌+◌, ◌≤◌, [], length, take, sum_by, IfOk, IfErr, OnOk};
ghost use Rattle.std.specs.Arc.{arc_value};
ghost use Rattle.capture_core.specs.Capturing.{coming};
ghost use Rattle.capture_core.specs.Filling.{AreGiven, PassesRows};

use crate::filling::Filling;
use crate::granted::Grants;
use crate::image::Image;
use base_core::{Moment, NoMemory, Sequence};
use graph_core::Graph;
use std::alloc::Global;
use std::marker::Model;
use std::sync::Arc;
use tables_core::Tables;

/// A capture that has begun: what it has taken so far, and how many records are left. Contracts see
/// the record of that.
#[derive(Drop)]
pub struct Active {
    alloc: Global,
    number: u64,
    point: Moment,
    left: u64,
    filling: Filling,
    grants: Grants,
}

impl Model for Active {
    ghost use Rattle.capture_core.specs.Capturing.{ActiveCapture};

    ghost Value = { ActiveCapture };

    ghost view = { λ a. record {
      number = a.number;
      point = a.point;
      left = a.left;
      filled = a.filling;
      grants = a.grants;
    } };
}

impl Active {
    /// Nothing taken yet. It takes no memory.
    pub(crate) fn new(alloc: Global, number: u64, point: Moment, left: u64) -> Active
        ensures { result ≡ record {
          number = number;
          point = point;
          left = left;
          filled = record { whole = []; rows = [] };
          grants = [];
        } }
    {
        Active {
            alloc,
            number,
            point,
            left,
            filling: Filling::of(alloc, Vec::new(alloc)),
            grants: Grants::new(alloc),
        }
    }

    /// The number of the checkpoint.
    pub fn number(&self) -> u64
        ensures { result ≡ self.now.number }
    {
        self.number
    }

    /// How many changes were accepted before it was begun.
    pub fn point(&self) -> Moment
        ensures { result ≡ self.now.point }
    {
        self.point
    }

    /// How many records are left.
    pub fn left(&self) -> u64
        ensures { result ≡ self.now.left }
    {
        self.left
    }

    /// The same, with so many records left.
    pub(crate) fn with_left(self, left: u64) -> Active
        ensures { result ≡ record self { left = left } }
    {
        Active { left, ..self }
    }

    /// Takes rows, and then grants, until no more are due than `left`.
    pub(crate) fn take(
        &mut self,
        tables: &mut Tables,
        rights: &mut Graph,
        left: u64,
    ) -> Result<(), NoMemory>
        requires few { sum_by length tables.old.rest + length rights.old.rest ≤ self.old.left }
        requires given { AreGiven (take (length self.old.filled.whole) tables.old.rest) }
        ensures passes { PassesRows tables.old tables.new self.old.filled self.new.filled }
        ensures rights { rights.new.content ≡ rights.old.content }
        ensures fewer { sum_by length tables.new.rest + length rights.new.rest
            ≤ sum_by length tables.old.rest + length rights.old.rest }
        ensures left { OnOk result
            (sum_by length tables.new.rest + length rights.new.rest ≤ left) }
        ensures same { self.new.left ≡ self.old.left }
        ensures coming { coming self.new tables.new rights.new.rest
            ≡ coming self.old tables.old rights.old.rest }
    {
        let _left = self.left;
        let due = tables.left() as u64 + rights.left();
        let count = due.saturating_sub(left) as usize;
        let rows = self.filling.take(tables, count)?;
        self.grants.take(rights, (count - rows) as u64)
    }

    /// The image, where nothing more is due. Where a request for memory was refused, the capture,
    /// with the same image to come.
    pub(crate) fn into_image(mut self, tables: &Tables) -> Result<Arc<Image>, Active>
        requires { sum_by length tables.now.rest ≡ 0 }
        ensures ok { IfOk result (λ image. arc_value image ≡ coming self tables.now []) }
        ensures left { IfErr result (λ active. active.left ≡ self.left) }
        ensures given { IfErr result (λ active.
            AreGiven (take (length active.filled.whole) tables.now.rest)) }
        ensures coming { IfErr result (λ active.
            coming active tables.now [] ≡ coming self tables.now []) }
    {
        if self.filling.finish(tables).is_err() {
            return Err(self);
        }
        self.share()
    }

    /// The image of what was taken, behind an `Arc`, or the capture where that had no memory.
    fn share(self) -> Result<Arc<Image>, Active>
        ensures ok { IfOk result (λ image. arc_value image
            ≡ record {
              number = self.number;
              point = self.point;
              tables = self.filled.whole;
              grants = self.grants;
            }) }
        ensures err { IfErr result (λ active. active
            ≡ record self { filled = record { whole = self.filled.whole; rows = [] } }) }
    {
        let image = Image {
            number: self.number,
            point: self.point,
            tables: Sequence::from_vec(self.filling.into_whole()),
            grants: self.grants,
        };
        match Arc::new(self.alloc, image) {
            Ok(image) => Ok(image),
            Err(failed) => Err(Active {
                filling: Filling::of(self.alloc, failed.value.tables.into_vec()),
                grants: failed.value.grants,
                ..self
            }),
        }
    }
}
