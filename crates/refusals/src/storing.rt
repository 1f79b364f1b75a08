//! A store whose items are changed while they are captured.
ghost use Rattle.std.specs.Prelude.{◌≡◌, IsSome, None};

use crate::telling::{tell, unchanged};
use base_core::Value;
use copyup_core::{PushFault, Store};
use std::alloc::Global;

/// The number of the item, which is pushed again where it was refused.
fn push(rt: &HostRuntime, store: &mut Store<Value>, item: Value) -> Option<u64> {
    let (len, left) = (store.len(), store.left());
    match store.push(item) {
        Ok(number) => Some(number),
        Err(PushFault::NoMemory(item)) => {
            unchanged(rt, store.len() == len && store.left() == left);
            store.push(item).ok()
        }
        Err(PushFault::Full(_)) => None,
    }
}

fn tell_pushed(rt: &HostRuntime, store: &mut Store<Value>, item: i64) -> Option<()> {
    let number = push(rt, store, Value::Int(item))?;
    println!(rt; "pushed {number}").ok()
}

fn tell_item(rt: &HostRuntime, number: u64, item: &Value) -> Option<()> {
    match item {
        Value::Int(item) => println!(rt; "item {number} {item}").ok(),
        Value::Text(_) => None,
    }
}

/// Puts another item in place of the first, and writes the old one if it is given back.
fn tell_replaced(rt: &HostRuntime, store: &mut Store<Value>, item: i64) -> Option<()> {
    if store.get(0).is_none() {
        return None;
    }
    match store.replace(0, Value::Int(item)) {
        Some(old) => {
            let told = tell_item(rt, 0, &old);
            drop(old);
            told
        }
        None => println!(rt; "kept").ok(),
    }
}

fn tell_captured(rt: &HostRuntime, item: &Value) -> Option<()> {
    match item {
        Value::Int(item) => println!(rt; "captured {item}").ok(),
        Value::Text(_) => None,
    }
}

/// Captures one item more, and writes it and how many are left.
fn tell_step(rt: &HostRuntime, store: &mut Store<Value>, out: &mut Vec<Value>) -> Option<()> {
    if !store.active() {
        return None;
    }
    let (left, taken) = (store.left(), out.len());
    if store.capture_step(out, 1).is_err() {
        unchanged(rt, store.left() == left && out.len() == taken);
        store.capture_step(out, 1).ok()?;
    }
    tell_captured(rt, out.last()?)?;
    println!(rt; "left {}", store.left()).ok()
}

fn tell_all(rt: &HostRuntime, store: &mut Store<Value>, out: &mut Vec<Value>) -> Option<()> {
    tell_pushed(rt, store, 1)?;
    tell_pushed(rt, store, 2)?;
    if store.active() {
        return None;
    }
    store.begin();
    tell_replaced(rt, store, 8)?;
    tell_replaced(rt, store, 9)?;
    println!(rt; "removed {}", store.remove(0)).ok()?;
    tell_pushed(rt, store, 3)?;
    println!(rt; "removed {}", store.remove(2)).ok()?;
    tell_step(rt, store, out)?;
    tell_step(rt, store, out)?;
    println!(rt; "active {}", store.active()).ok()?;
    let (number, item) = store.next_from(0)?;
    tell_item(rt, number, item)
}

/// An item is replaced twice and removed, another comes and goes, and a capture gives what there
/// was.
pub fn store(rt: &HostRuntime, alloc: Global) -> Option<()> {
    let mut store: Store<Value> = Store::new(alloc);
    let mut out = Vec::new(alloc);
    let told = tell_all(rt, &mut store, &mut out);
    drop(store);
    drop(out);
    told
}
