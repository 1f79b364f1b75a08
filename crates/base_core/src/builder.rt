//! Values on the way to be shared.
ghost use Rattle.std.specs.Prelude.{◌≡◌, [], ◌∷◌, ◌++◌, IfOk, OnOk, OnErr, slice_set};

use crate::memory::{NoMemory, Twin};
use crate::shared::{INSIDE, Values};
use crate::value::Value;
use smallvec::SmallVec;
use std::alloc::Global;
use std::marker::Model;

/// Values in order, as they come, to be shared once all of them are there. So many as stand in one
/// block with the count of their owners take no memory before that. Contracts see the list of them.
#[derive(Drop)]
pub struct ValuesBuilder {
    items: SmallVec<Value, INSIDE>,
}

impl Model for ValuesBuilder {
    ghost use Rattle.std.specs.Prelude.{List};
    ghost use Rattle.base_core.specs.declared.value.Value.{Value as Item};

    ghost Value = { List Item };

    ghost view = { λ s. s.items.items };
}

impl ValuesBuilder {
    /// No values.
    pub fn new(alloc: Global) -> ValuesBuilder
        ensures { result ≡ [] }
    {
        ValuesBuilder {
            items: SmallVec::new(alloc),
        }
    }

    /// No values, and room for so many. `NoMemory` where a request for memory was refused.
    #[inline]
    pub fn with_capacity(alloc: Global, capacity: usize) -> Result<ValuesBuilder, NoMemory>
        ensures { IfOk result (λ builder. builder ≡ []) }
    {
        if capacity <= INSIDE {
            return Ok(ValuesBuilder::new(alloc));
        }
        let items = SmallVec::with_capacity(alloc, capacity)?;
        Ok(ValuesBuilder { items })
    }

    /// Copies of these values. `NoMemory` where a request for memory was refused.
    // Inlined, as an UPDATE calls it for each row.
    #[inline(always)]
    pub fn twins_of(alloc: Global, values: &[Value]) -> Result<ValuesBuilder, NoMemory>
        ensures { IfOk result (λ builder. builder ≡ values.now) }
    {
        let mut items = SmallVec::with_capacity(alloc, values.len())?;
        for value in values {
            items.push_reserved(value.try_twin()?);
        }
        Ok(ValuesBuilder { items })
    }

    /// Puts a value behind the others. `NoMemory` where a request for memory was refused.
    #[inline(always)]
    pub fn push(&mut self, value: Value) -> Result<(), NoMemory>
        ensures ok { OnOk result (self.new ≡ self.old ++ value ∷ []) }
        ensures no_memory { OnErr result (self.new ≡ self.old) }
    {
        self.items.push(value)?;
        Ok(())
    }

    /// Puts a value in the place of the one at this index, if there is one.
    #[inline]
    pub fn set(&mut self, index: usize, value: Value)
        ensures { self.new ≡ slice_set self.old index value }
    {
        if let Some(place) = self.items.get_mut(index) {
            *place = value;
        }
    }

    /// The values so far, in order.
    pub fn as_slice(&self) -> &[Value]
        ensures { result.now ≡ self.now }
    {
        self.items.as_slice()
    }

    /// The values, which can be shared now. `NoMemory` where a request for memory was refused.
    #[inline]
    pub fn build(self) -> Result<Values, NoMemory>
        ensures { IfOk result (λ values. values ≡ self) }
    {
        Values::from_items(self.items)
    }
}
