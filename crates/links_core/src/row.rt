//! A row of ends, of which one goes by a move of those before it or behind it, whichever are fewer.
ghost use Rattle.std.specs.Prelude.{◌≡◌, ◌+◌, ◌≤◌, ◌<◌, ◌++◌, ◌∷◌, [], length, take, drop, OnOk};

use crate::end::End;
use base_core::NoMemory;
use std::alloc::Global;
use std::marker::Model;

/// A row of ends. Contracts see the list of them, and for how many more there is room.
#[derive(Drop)]
pub struct Row {
    block: Vec<End>,
    /// How many ends at the head of the block were taken out.
    gone: usize,
}

impl Model for Row {
    ghost use Rattle.std.specs.Prelude.{◌-◌, ◌≤◌, drop, vec_len, vec_capacity};
    ghost use Rattle.links_core.specs.Ends.{EndsState};

    ghost Value = { EndsState };

    ghost view = { λ r. record {
      ends = drop r.gone r.block.items;
      room = vec_capacity r.block - vec_len r.block;
    } };

    ghost invariant = { λ r. r.gone ≤ vec_len r.block };
}

impl Row {
    /// No ends. It takes no memory.
    pub fn new(alloc: Global) -> Row
        ensures { result ≡ record { ends = []; room = 0 } }
    {
        Row {
            block: Vec::new(alloc),
            gone: 0,
        }
    }

    /// The ends, sorted by user.
    pub fn as_slice(&self) -> &[End]
        ensures { result.now ≡ self.now.ends }
    {
        let (_, ends) = self.block.as_slice().split_at(self.gone);
        ends
    }

    // Moves the ends to the head of the block.
    fn close_up(&mut self)
        ensures ends { self.new.ends ≡ self.old.ends }
        ensures room { self.old.room ≤ self.new.room }
    {
        let left = self.block.len() - self.gone;
        self.block.rotate_left(self.gone);
        self.block.truncate(left);
        self.gone = 0;
    }

    // Gives half of the room back where three quarters of it are idle.
    fn trim(&mut self)
        ensures { self.new.ends ≡ self.old.ends }
    {
        let left = self.block.len() - self.gone;
        if left < self.block.capacity() / 4 {
            self.close_up();
            self.block.shrink_to(left * 2);
        }
    }

    /// Makes room for `count` more ends: by a move of the others where an eighth of the block is
    /// gone, and else by an eighth at least, so that rows stay near their length. On `NoMemory`
    /// the ends stay.
    pub fn reserve(&mut self, count: usize) -> Result<(), NoMemory>
        ensures ends { self.new.ends ≡ self.old.ends }
        ensures room { self.old.room ≤ self.new.room }
        ensures ok { OnOk result (count ≤ self.new.room) }
    {
        if self.block.capacity() - self.block.len() < count {
            if self.gone > self.block.len() / 8 {
                self.close_up();
            }
            self.block.reserve_exact(count.max(self.block.len() / 8))?;
        }
        Ok(())
    }

    /// Puts an end behind the first `place` ones. There has to be room.
    pub fn insert(&mut self, place: usize, end: End)
        requires place { place ≤ length self.old.ends }
        requires room { 0 < self.old.room }
        ensures ends { self.new.ends
            ≡ take place self.old.ends ++ end ∷ drop place self.old.ends }
        ensures room { self.old.room ≤ self.new.room + 1 }
    {
        // There is room, so that it is put there.
        let _ = self.block.insert(self.gone + place, end);
    }

    /// Takes the end at the place out: by a move of the ends before it, where they are no more than
    /// those behind it, and else of those.
    pub fn remove(&mut self, place: usize)
        requires { place < length self.old.ends }
        ensures { self.new.ends ≡ take place self.old.ends ++ drop (place + 1) self.old.ends }
    {
        let ends = self.block.len() - self.gone;
        if place <= ends / 2 {
            self.block
                .copy_within(self.gone..self.gone + place, self.gone + 1);
            self.gone += 1;
        } else {
            self.block.remove(self.gone + place);
        }
        self.trim();
    }
}
