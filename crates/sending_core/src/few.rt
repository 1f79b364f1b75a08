//! Lists that a message can count.
ghost use Rattle.std.specs.Prelude.{◌≡◌, ◌↔◌, ◌≤◌, ◌<◌, ◌^◌, IfSome, IsNone, length};

use base_core::Sequence;
use std::marker::Model;

/// From how many items on a message cannot count them: it has two bytes for that.
const TOO_MANY: usize = 65_536;

/// Fewer than 65,536 items, in order, on the heap. Contracts see the list of them.
#[derive(Drop)]
pub struct Few<T> {
    items: Sequence<T>,
}

impl<T> Model for Few<T> {
    ghost use Rattle.std.specs.Prelude.{◌<◌, ◌^◌, List, length};

    ghost Value = { List T };

    ghost view = { λ f. f.items };

    ghost invariant = { λ f. length f.items < 2 ^ 16 };
}

impl<T: Drop> Few<T> {
    /// These items, in the memory that they have. None exactly where there are 65,536 or more.
    pub fn new(items: Sequence<T>) -> Option<Few<T>>
        ensures some { IfSome result (λ few. few ≡ items) }
        ensures none { IsNone result ↔ (2 ^ 16 ≤ length items) }
    {
        if items.len() >= TOO_MANY {
            return None;
        }
        Some(Few { items })
    }
}

impl<T> Few<T> {
    /// The items, in order.
    pub fn as_slice(&self) -> &[T]
        ensures items { result.now ≡ self.now }
        ensures few { length result.now < 2 ^ 16 }
    {
        self.items.as_slice()
    }
}
