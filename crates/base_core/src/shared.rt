//! Values on the heap that several own.
ghost use Rattle.std.specs.Prelude.{◌≡◌, ◌↔◌, [], IfOk, IsTrue, length};

use crate::memory::{NoMemory, Twin};
use crate::value::Value;
use smallvec::SmallVec;
use std::marker::Model;
use std::sync::Arc;

/// So many values stand in one block of memory with the count of their owners.
pub(crate) const INSIDE: usize = 2;

/// Values in order, which stand on the heap once for all copies. Contracts see the list of them.
#[derive(Drop)]
pub struct Values {
    items: Arc<SmallVec<Value, INSIDE>>,
}

impl Model for Values {
    ghost use Rattle.std.specs.Prelude.{List};
    ghost use Rattle.base_core.specs.declared.value.Value.{Value as Item};

    ghost Value = { List Item };

    ghost view = { λ s. s.items.value.items };
}

impl Values {
    /// These values. Room beyond them is given back. `NoMemory` where a request for memory was
    /// refused.
    pub(crate) fn from_items(items: SmallVec<Value, INSIDE>) -> Result<Values, NoMemory>
        ensures { IfOk result (λ values. values ≡ items.items) }
    {
        let mut items = items;
        if items.spilled() {
            items.shrink_to_fit();
        }
        let alloc = *items.allocator();
        let items = Arc::new(alloc, items)?;
        Ok(Values { items })
    }

    /// The items, in order.
    pub fn as_slice(&self) -> &[Value]
        ensures { result.now ≡ self.now }
    {
        self.items.as_slice()
    }

    /// How many items there are.
    pub fn len(&self) -> usize
        ensures { result ≡ length self.now }
    {
        self.items.len()
    }

    /// Whether there is no item.
    pub fn is_empty(&self) -> bool
        ensures { IsTrue result ↔ (self.now ≡ []) }
    {
        self.len() == 0
    }
}

/// A copy takes no memory: it is one more owner of the same values.
impl Twin for Values {
    fn try_twin(&self) -> Result<Values, NoMemory> {
        let items = Arc::try_clone(&self.items)?;
        Ok(Values { items })
    }
}
