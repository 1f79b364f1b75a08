//! A list on the heap behind one word.
ghost use Rattle.std.specs.Prelude.{◌≡◌, IfOk};

use crate::memory::NoMemory;
use std::alloc::Global;
use std::marker::Model;

/// Items in order, on the heap. It takes a third of the place of a vector where it stands, so that
/// what holds it stays small. Contracts see the list of them.
#[derive(Drop)]
pub struct Compact<T> {
    items: Box<Vec<T>>,
}

impl<T> Model for Compact<T> {
    ghost use Rattle.std.specs.Prelude.{List};

    ghost Value = { List T };

    ghost view = { λ s. s.items.value.items };
}

impl<T: Drop> Compact<T> {
    /// These items. Room that the vector has beyond them is given back. `NoMemory` where a request
    /// for memory was refused.
    pub fn from_vec(alloc: Global, items: Vec<T>) -> Result<Compact<T>, NoMemory>
        ensures { IfOk result (λ compact. compact ≡ items.items) }
    {
        let mut items = items;
        items.shrink_to_fit();
        let items = Box::new(alloc, items)?;
        Ok(Compact { items })
    }
}

impl<T> Compact<T> {
    /// The items, in order.
    pub fn as_slice(&self) -> &[T]
        ensures { result.now ≡ self.now }
    {
        self.items.as_slice()
    }
}
