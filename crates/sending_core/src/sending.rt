//! What a session has still to send, in order.
ghost use Rattle.std.specs.Prelude.{◌≡◌, ◌↔◌, ◌+◌, ◌<◌, ◌≤◌, ◌++◌, [], ◌∷◌, false, true, length, IfErr, IfNone, IsErr, IsTrue, MatchResult, OnErr, OnOk};
ghost use Rattle.std.specs.Option.{option_to_list};
ghost use Rattle.base_core.specs.Streams.{Writes, WritesFrontOf};
ghost use Rattle.sending_core.specs.Queue.{capacity};
ghost use Rattle.sending_core.specs.Owing.{count_owed, IsOwed, lefts_behind, put_left, queue_behind, SendsPart};

use crate::item::{Item, write_item};
use answer_core::{Portal, Progress};
use base_core::{Broken, Gate, Sink};
use reply_core::ReplyBuffer;
use std::alloc::{AllocError, Global};
use std::collections::VecDeque;
use std::marker::Model;

/// What a session has still to send, the first thing first. Contracts see the list of it, and for how much
/// more there is room.
#[derive(Drop)]
pub struct Sending {
    queue: VecDeque<Item>,
}

impl Model for Sending {
    ghost use Rattle.std.specs.Prelude.{◌-◌};
    ghost use Rattle.std.specs.VecDeque.{deque_capacity, deque_len};
    ghost use Rattle.sending_core.specs.Queue.{Queue};

    ghost Value = { Queue };

    ghost view = { λ s. record {
      items = s.queue.items;
      room = deque_capacity s.queue - deque_len s.queue;
    } };
}

/// Keeps what a portal has left, in its place. That of no place, or of one that is not there, is dropped.
fn put_left(lefts: &mut [Option<Portal>], place: Option<usize>, left: Option<Portal>)
    ensures { lefts.new ≡ put_left place left lefts.old }
{
    let Some(place) = place else {
        return;
    };
    if place < lefts.len() {
        lefts[place] = left;
    }
}

impl Sending {
    /// Nothing. It takes no memory.
    pub fn new(alloc: Global) -> Sending
        ensures { result.items ≡ [] }
    {
        Sending {
            queue: VecDeque::new(alloc),
        }
    }

    /// Whether nothing is to be sent.
    pub fn is_empty(&self) -> bool
        ensures { IsTrue result ↔ (self.now.items ≡ []) }
    {
        self.queue.is_empty()
    }

    /// Makes room for so many items more. `AllocError` where memory was refused, which is only asked for if
    /// there is not so much room.
    pub fn reserve(&mut self, n: usize) -> Result<(), AllocError>
        ensures ok { OnOk result (n ≤ self.new.room) }
        ensures err { OnErr result (self.old.room < n) }
        ensures room { self.old.room ≤ self.new.room }
        ensures items { self.new.items ≡ self.old.items }
    {
        self.queue.reserve(n)
    }

    /// Sends this behind all else, if there is room. It takes no memory. Without room it gives the item
    /// back.
    pub fn push(&mut self, item: Item) -> Result<(), Item>
        ensures ok { OnOk result (self.new.items ≡ self.old.items ++ item ∷ []) }
        ensures room { OnOk result (self.new.room + 1 ≡ self.old.room) }
        ensures full { IsErr result ↔ (self.old.room ≡ 0) }
        ensures back { IfErr result (λ back. back ≡ item) }
        ensures err { OnErr result (self.new ≡ self.old) }
    {
        if self.queue.len() < self.queue.capacity() {
            self.queue.push_back_reserved(item);
            return Ok(());
        }
        Err(item)
    }

    /// Takes the first item.
    fn pop(&mut self) -> Option<Item>
        ensures items { self.old.items ≡ option_to_list result ++ self.new.items }
        ensures none { IfNone result (self.old.items ≡ []) }
        ensures room { self.old.room + length (option_to_list result) ≡ self.new.room }
    {
        self.queue.pop_front()
    }

    /// Sends this before all else.
    fn push_first(&mut self, item: Item)
        requires { 0 < self.old.room }
        ensures items { self.new.items ≡ item ∷ self.old.items }
        ensures room { self.new.room + 1 ≡ self.old.room }
    {
        self.queue.push_front_reserved(item);
    }

    /// Keeps what is left of an item that has come so far: the rest of it to be sent next, or the rows of
    /// its portal.
    fn settle(&mut self, progress: Progress, place: Option<usize>, lefts: &mut [Option<Portal>])
        requires { 0 < self.old.room }
        ensures items { self.new.items ≡ queue_behind progress place self.old.items }
        ensures lefts { lefts.new ≡ lefts_behind progress place lefts.old }
        ensures capacity { capacity self.new ≡ capacity self.old }
    {
        match progress {
            Progress::Whole => put_left(lefts, place, None),
            Progress::Suspended(portal) => put_left(lefts, place, Some(portal)),
            Progress::Part(unsent) => {
                let portal = place;
                self.push_first(Item::Rest { unsent, portal });
            }
        }
    }

    /// Writes the first item, or some of it, and leaves the rest to be sent; where nothing is to be sent it
    /// writes nothing. An answer that ends with its portal suspended puts the portal into its place in
    /// `lefts`, and one that ends otherwise puts None there. The buffer may have any text; what it has then
    /// means nothing.
    ///
    /// It takes no memory but for an export's records, as [`Unsent::go_on`](answer_core::Unsent::go_on) does.
    /// `Broken` exactly where the writer has failed; then a front was written, and what is left to be sent
    /// means nothing.
    pub fn go_on<W: Sink, G: Gate>(
        &mut self,
        lefts: &mut [Option<Portal>],
        buffer: &mut ReplyBuffer,
        writer: &mut W,
        gate: &G,
    ) -> Result<(), Broken>
        requires { W.failed writer.old ≡ false }
        ensures failed { MatchResult result (λ _. W.failed writer.new ≡ false)
            (λ _. W.failed writer.new ≡ true) }
        ensures ok { OnOk result (Writes
            (SendsPart self.old.items lefts.old self.new.items lefts.new)
            (W.taken writer.old) (W.taken writer.new)) }
        ensures progress { OnOk result (0 < length self.old.items
            → count_owed self.new.items < count_owed self.old.items) }
        ensures capacity { capacity self.new ≡ capacity self.old }
        ensures places { length lefts.new ≡ length lefts.old }
        ensures err { OnErr result (WritesFrontOf (IsOwed self.old.items lefts.old)
            (W.taken writer.old) (W.taken writer.new)) }
    {
        let Some(item) = self.pop() else {
            return Ok(());
        };
        let place = item.place();
        let progress = write_item(item, buffer, writer, gate)?;
        self.settle(progress, place, lefts);
        Ok(())
    }
}
