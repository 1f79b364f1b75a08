//! A capture's walk over slots.
ghost use Rattle.std.specs.Prelude.{◌≡◌, ◌+◌, ◌<◌, ◌≤◌, ◌++◌, length, vec_len, vec_capacity, IfOk, OnOk, OnErr};
ghost use Rattle.std.specs.List.{AllWithin, HoldsAt};
ghost use Rattle.std.specs.Map.{values_of};
ghost use Rattle.copyup_core.specs.Slot.{Keeps, SameOutside, IsFree, had_item, had_within};

use crate::slots::Slots;
use base_core::{NoMemory, Twin};

/// Appends a copy of what the slot at a place had when the capture began, if it had an item.
#[inline(always)]
fn copy_item<V: Twin>(slots: &Slots<V>, place: usize, out: &mut Vec<V>) -> Result<(), NoMemory>
    requires within { place < length slots.now.items }
    requires room { HoldsAt
        (λ s. vec_len out.old + length (had_item s) ≤ vec_capacity out.old)
        slots.now.items
        place }
    ensures items { OnOk result
        (HoldsAt
        (λ s. out.new.items ≡ out.old.items ++ values_of (had_item s))
        slots.now.items
        place) }
    ensures capacity { vec_capacity out.new ≡ vec_capacity out.old }
    ensures err { OnErr result (out.new.items ≡ out.old.items) }
{
    if let Some(item) = slots.had(place) {
        out.push_reserved(item.try_twin()?);
    }
    Ok(())
}

/// Appends copies of the next `count` items, as they were when the capture began, and gives the
/// place after them.
pub(crate) fn copy_next<V: Twin>(
    slots: &Slots<V>,
    from: usize,
    end: usize,
    count: usize,
    out: &mut Vec<V>,
) -> Result<usize, NoMemory>
    requires within { from ≤ end × end ≤ length slots.now.items }
    requires enough { count ≤ length (had_within from end slots.now.items) }
    requires room { vec_len out.old + count ≤ vec_capacity out.old }
    ensures stop { IfOk result (λ stop. (from ≤ stop) × (stop ≤ end)) }
    ensures count { IfOk result (λ stop. length (had_within from stop slots.now.items) ≡ count) }
    ensures items { IfOk result
        (λ stop.
        out.new.items ≡ out.old.items ++ values_of (had_within from stop slots.now.items)) }
    ensures err { OnErr result (out.new.items ≡ out.old.items) }
{
    let start = out.len();
    for at in from..end {
        if out.len() - start == count {
            return Ok(at);
        }
        if let Err(fault) = copy_item(slots, at, out) {
            out.truncate(start);
            return Err(fault);
        }
    }
    Ok(end)
}

/// Lets go of what the slots from `from` up to `to` had when the capture began.
pub(crate) fn forget<V: Drop>(slots: &mut Slots<V>, from: usize, to: usize)
    requires { from ≤ to × to ≤ length slots.old.items }
    ensures keeps { Keeps to slots.old.items slots.new.items }
    ensures outside { SameOutside from to slots.old.items slots.new.items }
    ensures free { AllWithin IsFree slots.new.items from to }
    ensures spare { slots.new.spare ≡ slots.old.spare }
{
    for at in from..to {
        slots.forget(at);
    }
}
