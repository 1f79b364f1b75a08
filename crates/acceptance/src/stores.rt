//! What no clause says: that calls which take memory succeed, how much room a store takes, and how
//! many items a step copies.
use base_core::{NoMemory, Twin};
use copyup_core::{PushFault, Store};
use std::alloc::Global;
use std::cell::Cell;
use std::process::Abort;

/// An item that has a copy, unless it is the greatest.
#[derive(Clone, Copy, Debug, PartialEq, Eq)]
struct Item(u64);

impl Twin for Item {
    fn try_twin(&self) -> Result<Item, NoMemory> {
        if self.0 == u64::MAX {
            return Err(NoMemory);
        }
        Ok(*self)
    }
}

/// The items 50, 51 and 52, whose numbers are 0, 1 and 2.
fn three_items(rt: &impl Abort, alloc: Global) -> Store<Item> {
    let mut store: Store<Item> = Store::new(alloc);
    assert!(rt; store.push(Item(50)).expect(rt, "memory") == 0);
    assert!(rt; store.push(Item(51)).expect(rt, "memory") == 1);
    assert!(rt; store.push(Item(52)).expect(rt, "memory") == 2);
    store
}

#[test]
fn a_removed_item_is_gone(rt: HostRuntime) {
    let mut store = three_items(&rt, rt.alloc());
    assert!(rt; store.remove(2));
    assert!(rt; !store.remove(2));
    assert!(rt; store.get(2) == None && store.len() == 2);
    assert!(rt; store.push(Item(53)).expect(&rt, "memory") == 3);
    assert!(rt; store.get(3) == Some(&Item(53)));
    drop(store);
}

#[test]
fn the_next_item_is_found(rt: HostRuntime) {
    let mut store = three_items(&rt, rt.alloc());
    assert!(rt; store.remove(0));
    assert!(rt; store.next_from(0) == Some((1, &Item(51))));
    assert!(rt; store.next_from(2) == Some((2, &Item(52))));
    assert!(rt; store.next_from(3) == None);
    drop(store);
}

#[test]
fn the_greatest_number_is_never_given(rt: HostRuntime) {
    let mut store: Store<Item> = Store::starting_at(rt.alloc(), u64::MAX - 1);
    assert!(rt; store.push(Item(50)).expect(&rt, "memory") == u64::MAX - 1);
    assert!(rt; store.push(Item(51)) == Err(PushFault::Full(Item(51))));
    assert!(rt; store.get(u64::MAX - 1) == Some(&Item(50)));
    drop(store);
}

/// A store that grows one by one has room for an eighth more at most.
#[test]
fn little_room_is_idle(rt: HostRuntime) {
    let mut store = Store::new(rt.alloc());
    for number in 0..1000 {
        store.push(Item(number)).expect(&rt, "memory");
        assert!(rt; store.spare() <= number / 8);
    }
    drop(store);
}

/// Removed items leave no more dead slots than there are items, and one.
#[test]
fn removed_items_give_their_room_back(rt: HostRuntime) {
    let mut store = Store::new(rt.alloc());
    store.reserve(1000).expect(&rt, "memory");
    let room = store.spare();
    for number in 0..1000 {
        store.push(Item(number)).expect(&rt, "memory");
    }
    for number in 0..1000 {
        store.remove(number);
        let taken = room.saturating_sub(store.spare());
        assert!(rt; taken <= 2 * (999 - number) + 1);
        assert!(rt; store.next_from(0).is_some() == (number < 999));
    }
    drop(store);
}

/// A step of one item.
fn step(rt: &impl Abort, store: &mut Store<Item>, out: &mut Vec<Item>) -> Result<usize, NoMemory> {
    assert!(rt; store.active());
    store.capture_step(out, 1)
}

/// A step that is refused memory takes nothing.
#[test]
fn a_refused_step(rt: HostRuntime) {
    let mut store: Store<Item> = Store::new(rt.alloc());
    let mut out = Vec::new(rt.alloc());
    store.push(Item(50)).expect(&rt, "memory");
    store.push(Item(u64::MAX)).expect(&rt, "memory");
    assert!(rt; !store.active());
    store.begin();
    assert!(rt; step(&rt, &mut store, &mut out) == Ok(1));
    assert!(rt; step(&rt, &mut store, &mut out) == Err(NoMemory));
    assert!(rt; store.left() == 1 && out.as_slice() == [Item(50)].as_slice());
    drop(store);
}

/// An item that counts its copies.
#[derive(Drop)]
struct Counted<'a> {
    copies: &'a Cell<u64>,
}

impl<'a> Twin for Counted<'a> {
    fn try_twin(&self) -> Result<Counted<'a>, NoMemory> {
        self.copies.set(self.copies.get().wrapping_add(1));
        Ok(Counted {
            copies: self.copies,
        })
    }
}

/// A step copies what it gives, and no more.
#[test]
fn a_step_copies_one_item(rt: HostRuntime) {
    let copies = Cell::new(0);
    let mut store = Store::new(rt.alloc());
    let mut out = Vec::new(rt.alloc());
    for _ in 0..100 {
        let pushed = store.push(Counted { copies: &copies });
        assert!(rt; pushed.is_ok());
    }
    assert!(rt; !store.active());
    store.begin();
    assert!(rt; store.active());
    assert!(rt; store.capture_step(&mut out, 1) == Ok(1));
    assert!(rt; copies.get() == 1);
}
