//! Lists that are no longer than a limit.
ghost use Rattle.std.specs.Prelude.{◌≡◌, ◌<◌, ◌≤◌, ℕ, IfOk, List, [], true, length, map};
ghost use Rattle.base_core.specs.Distinct.{are_distinct};

use crate::builder::ValuesBuilder;
use crate::compact::Compact;
use crate::memory::NoMemory;
use crate::name::Name;
use crate::shared::Values;
use crate::value::Value;
use std::alloc::Global;
use std::marker::Model;

/// At least one value and at most `LIMIT`, in order, which can be shared. Contracts see the list of
/// them.
#[derive(Drop)]
pub struct SeveralValues<const LIMIT: usize> {
    values: Values,
}

impl<const LIMIT: usize> Model for SeveralValues<LIMIT> {
    ghost use Rattle.std.specs.Prelude.{List, length, ◌<◌, ◌≤◌};
    ghost use Rattle.base_core.specs.declared.value.Value.{Value as Item};

    ghost Value = { List Item };

    ghost view = { λ s. s.values };

    ghost invariant = { λ s. (0 < length s.values) × (length s.values ≤ LIMIT) };
}

impl<const LIMIT: usize> SeveralValues<LIMIT> {
    /// These values. `NoMemory` where a request for memory was refused.
    pub fn from_builder(builder: ValuesBuilder) -> Result<SeveralValues<LIMIT>, NoMemory>
        requires some { 0 < length builder }
        requires few { length builder ≤ LIMIT }
        ensures { IfOk result (λ several. several ≡ builder) }
    {
        let values = builder.build()?;
        Ok(SeveralValues { values })
    }

    /// The values, to be shared.
    pub fn values(&self) -> &Values
        ensures { result.now ≡ self.now }
    {
        &self.values
    }

    /// The items, in order.
    pub fn as_slice(&self) -> &[Value]
        ensures items { result.now ≡ self.now }
        ensures some { 0 < length self.now }
        ensures few { length self.now ≤ LIMIT }
    {
        self.values.as_slice()
    }
}

/// At most `LIMIT` items, in order, or none. Contracts see the list of them.
#[derive(Drop)]
pub struct Limited<T, const LIMIT: usize> {
    items: Option<Compact<T>>,
}

impl<T, const LIMIT: usize> Model for Limited<T, LIMIT> {
    ghost use Rattle.std.specs.Prelude.{List, [], length, unwrap_or, ◌≤◌};

    ghost Value = { List T };

    ghost view = { λ s. unwrap_or s.items [] };

    ghost invariant = { λ s. length (unwrap_or s.items []) ≤ LIMIT };
}

impl<T, const LIMIT: usize> Limited<T, LIMIT> {
    /// No items. It takes no memory.
    pub fn none() -> Limited<T, LIMIT>
        ensures { result ≡ [] }
    {
        Limited { items: None }
    }

    pub fn as_slice(&self) -> &[T]
        ensures items { result.now ≡ self.now }
        ensures few { length self.now ≤ LIMIT }
    {
        match &self.items {
            Some(items) => items.as_slice(),
            None => &[],
        }
    }
}

impl<T: Drop, const LIMIT: usize> Limited<T, LIMIT> {
    /// These items. `NoMemory` where a request for memory was refused.
    pub fn from_vec(alloc: Global, items: Vec<T>) -> Result<Limited<T, LIMIT>, NoMemory>
        requires { length items.items ≤ LIMIT }
        ensures { IfOk result (λ limited. limited ≡ items.items) }
    {
        let items = Compact::from_vec(alloc, items)?;
        Ok(Limited { items: Some(items) })
    }
}

/// What has a name by which it is told from others of its list.
pub trait Named {
    ghost name_of: { Self → List ℕ };

    fn name(&self) -> Name
        ensures { result ≡ name_of self.now };
}

/// At least one item and at most `LIMIT`, with different names, in order. Contracts see the list of
/// them.
#[derive(Drop)]
pub struct Distinct<T: Named, const LIMIT: usize> {
    items: Compact<T>,
}

impl<T: Named, const LIMIT: usize> Model for Distinct<T, LIMIT> {
    ghost use Rattle.std.specs.Prelude.{List, length, map, ◌<◌, ◌≤◌, ◌≡◌, true};
    ghost use Rattle.base_core.specs.Distinct.{are_distinct};

    ghost Value = { List T };

    ghost view = { λ s. s.items };

    ghost invariant = { λ s. (0 < length s.items)
        × (length s.items ≤ LIMIT)
        × (are_distinct (map T.name_of s.items) ≡ true) };
}

impl<T: Named + Drop, const LIMIT: usize> Distinct<T, LIMIT> {
    /// These items. `NoMemory` where a request for memory was refused.
    pub fn from_vec(alloc: Global, items: Vec<T>) -> Result<Distinct<T, LIMIT>, NoMemory>
        requires some { 0 < length items.items }
        requires few { length items.items ≤ LIMIT }
        requires distinct { are_distinct (map T.name_of items.items) ≡ true }
        ensures { IfOk result (λ distinct. distinct ≡ items.items) }
    {
        let items = Compact::from_vec(alloc, items)?;
        Ok(Distinct { items })
    }
}

impl<T: Named, const LIMIT: usize> Distinct<T, LIMIT> {
    pub fn as_slice(&self) -> &[T]
        ensures items { result.now ≡ self.now }
        ensures some { 0 < length self.now }
        ensures few { length self.now ≤ LIMIT }
        ensures distinct { are_distinct (map T.name_of self.now) ≡ true }
    {
        self.items.as_slice()
    }
}
