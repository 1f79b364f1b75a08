//! The steps of a checkpoint, and a ticket that outlives its checkpoint.
use crate::telling::{ask, event, say, tell, tell_reply, unchanged};
use export_core::Ticket;
use reply_core::reply_text;
use std::alloc::Global;
use system_core::{Event, Reply, System};

/// A table of so many rows, of the numbers 1, 2, 3, 3 and so on.
fn fill(rt: &HostRuntime, alloc: Global, system: &mut System, rows: usize) -> Option<()> {
    say(rt, alloc, system, "CREATE TABLE t (v INTEGER)")?;
    for place in 0..rows {
        let line = match place {
            0 => "INSERT INTO t VALUES (1)",
            1 => "INSERT INTO t VALUES (2)",
            _ => "INSERT INTO t VALUES (3)",
        };
        say(rt, alloc, system, line)?;
    }
    Some(())
}

/// A table of so many rows and two columns, of which bob may select the second.
fn fill_and_grant(rt: &HostRuntime, alloc: Global, system: &mut System, rows: usize) -> Option<()> {
    say(rt, alloc, system, "CREATE TABLE t (v INTEGER, w INTEGER)")?;
    for _ in 0..rows {
        say(rt, alloc, system, "INSERT INTO t VALUES (1, 2)")?;
    }
    say(rt, alloc, system, "GRANT SELECT (w) ON t TO bob")
}

/// What the core answers is written.
fn tell_answer(rt: &HostRuntime, alloc: Global, system: &mut System, line: &str) -> Option<()> {
    let reply = ask(rt, alloc, system, line)?;
    let told = tell_reply(rt, alloc, &reply);
    drop(reply);
    told
}

/// Whether the list has the checkpoint with all its three records left.
fn is_whole(alloc: Global, listed: &Reply) -> Option<bool> {
    let text = reply_text(alloc, listed).ok()?;
    Some(text.as_slice() == b"checkpoints 1 @4\nactive,1,4,3\n".as_slice())
}

/// Says where a step that was refused has taken records.
fn nothing_taken(rt: &HostRuntime, alloc: Global, system: &mut System) -> Option<()> {
    let listed = system.step(event(alloc, "CHECKPOINTS")?);
    let whole = is_whole(alloc, &listed);
    drop(listed);
    unchanged(rt, whole?);
    Some(())
}

/// A step, which is taken again where it was refused.
fn stepped(rt: &HostRuntime, alloc: Global, system: &mut System) -> Option<Reply> {
    let reply = system.step(Event::Step);
    if !reply.is_refused_memory() {
        return Some(reply);
    }
    drop(reply);
    nothing_taken(rt, alloc, system)?;
    Some(system.step(Event::Step))
}

fn tell_step(rt: &HostRuntime, alloc: Global, system: &mut System) -> Option<()> {
    fill(rt, alloc, system, 3)?;
    tell_answer(rt, alloc, system, "CHECKPOINT")?;
    let reply = stepped(rt, alloc, system)?;
    let told = match &reply {
        Reply::Stepped { number, left } => println!(rt; "stepped {number} left {left}").ok(),
        _ => None,
    };
    drop(reply);
    told
}

/// The first step of a checkpoint of three records.
pub fn step(rt: &HostRuntime, alloc: Global) -> Option<()> {
    let mut system = System::new(alloc, 1).ok()?;
    let told = tell_step(rt, alloc, &mut system);
    system.free();
    told
}

/// The next record, which is asked for again where it was refused.
fn next(ticket: &mut Ticket) -> Option<Option<Vec<u8>>> {
    match ticket.next_record() {
        Ok(record) => Some(record),
        Err(_) => ticket.next_record().ok(),
    }
}

/// Writes the next records, so many.
fn tell_records(rt: &HostRuntime, ticket: &mut Ticket, count: usize) -> Option<()> {
    for _ in 0..count {
        match next(ticket)? {
            Some(record) => tell(rt, &record),
            None => tell(rt, b"none\n"),
        }
    }
    Some(())
}

/// The export of the only checkpoint.
fn ticket(rt: &HostRuntime, alloc: Global, system: &mut System, line: &str) -> Option<Ticket> {
    match ask(rt, alloc, system, line)? {
        Reply::Export(ticket) => Some(ticket),
        other => {
            drop(other);
            None
        }
    }
}

/// A checkpoint of few rows.
fn checkpoint(rt: &HostRuntime, alloc: Global, system: &mut System) -> Option<()> {
    say(rt, alloc, system, "CHECKPOINT")?;
    say(rt, alloc, system, "step")
}

/// Eight checkpoints more push the first out of the list, and its export goes on.
fn export_on(
    rt: &HostRuntime,
    alloc: Global,
    system: &mut System,
    ticket: &mut Ticket,
) -> Option<()> {
    tell_records(rt, ticket, 2)?;
    for _ in 0..8 {
        checkpoint(rt, alloc, system)?;
    }
    tell_answer(rt, alloc, system, "EXPORT 1")?;
    tell_records(rt, ticket, 4)
}

fn tell_export(rt: &HostRuntime, alloc: Global, system: &mut System) -> Option<()> {
    fill(rt, alloc, system, 3)?;
    checkpoint(rt, alloc, system)?;
    let mut ticket = ticket(rt, alloc, system, "EXPORT 1")?;
    let told = export_on(rt, alloc, system, &mut ticket);
    drop(ticket);
    told
}

/// A ticket whose checkpoint is dropped after two records.
pub fn export(rt: &HostRuntime, alloc: Global) -> Option<()> {
    let mut system = System::new(alloc, 16).ok()?;
    let told = tell_export(rt, alloc, &mut system);
    system.free();
    told
}

fn tell_columns(rt: &HostRuntime, alloc: Global, system: &mut System) -> Option<()> {
    fill_and_grant(rt, alloc, system, 2)?;
    say(rt, alloc, system, "describe bob: SELECT w FROM t")?;
    checkpoint(rt, alloc, system)?;
    let mut ticket = ticket(rt, alloc, system, "bob: EXPORT 1")?;
    let told = tell_records(rt, &mut ticket, 5);
    drop(ticket);
    told
}

/// A ticket of one column of two.
pub fn columns(rt: &HostRuntime, alloc: Global) -> Option<()> {
    let mut system = System::new(alloc, 16).ok()?;
    let told = tell_columns(rt, alloc, &mut system);
    system.free();
    told
}

/// A checkpoint of so many rows.
fn captured(rt: &HostRuntime, alloc: Global, system: &mut System, rows: usize) -> Option<()> {
    fill_and_grant(rt, alloc, system, rows)?;
    say(rt, alloc, system, "CHECKPOINT")?;
    for _ in 0..rows {
        say(rt, alloc, system, "step")?;
    }
    Some(())
}

/// A ticket, of which the first record is given.
fn issue_one(rt: &HostRuntime, alloc: Global, system: &mut System, line: &str) -> Option<()> {
    let mut ticket = ticket(rt, alloc, system, line)?;
    let record = next(&mut ticket);
    drop(ticket);
    let _ = record?;
    Some(())
}

fn issued(
    rt: &HostRuntime,
    alloc: Global,
    system: &mut System,
    tickets: usize,
    user: &str,
) -> Option<()> {
    let line = format!(in alloc; "{user}: EXPORT 1").ok()?;
    for _ in 0..tickets {
        issue_one(rt, alloc, system, line.as_str())?;
    }
    Some(())
}

/// So many tickets for this user of a checkpoint of so many rows, each with its first record.
pub fn issue(
    rt: &HostRuntime,
    alloc: Global,
    rows: usize,
    tickets: usize,
    user: &str,
) -> Option<()> {
    let mut system = System::new(alloc, 64).ok()?;
    let issued = match captured(rt, alloc, &mut system, rows) {
        Some(()) => issued(rt, alloc, &mut system, tickets, user),
        None => None,
    };
    system.free();
    issued
}
