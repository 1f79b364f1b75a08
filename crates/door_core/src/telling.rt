//! The lines of a log, each in new memory.
ghost use Rattle.std.specs.Prelude.{◌≡◌, ◌++◌, IfOk, OnOk};
ghost use Rattle.door_core.specs.Telling.{fault_cause, numbered_fault, plain_fault, begun_text, counts_text, denied_text, full_text, moment_text, refused_text, user_text, ended_text};

use base_core::{Moment, NoMemory, User};
use itoa::Buffer;
use session_core::{SessionEnd, SessionFault, Summary, end_name};
use std::alloc::Global;

/// How a session's fault is told, where it is known whether its client took too long.
fn fault_cause(ended: SessionEnd, is_late: bool) -> &'static str
    ensures { result.now ≡ fault_cause ended is_late }
{
    match ended {
        SessionEnd::Session(SessionFault::Read) if is_late => "idle, sent nothing",
        SessionEnd::Session(SessionFault::Write) if is_late => "idle, took nothing",
        _ => end_name(ended),
    }
}

/// `session n fault: ` and the cause.
pub(crate) fn numbered_fault(
    alloc: Global,
    number: u64,
    ended: SessionEnd,
    is_late: bool,
) -> Result<Vec<u8>, NoMemory>
    ensures { IfOk result (λ text. text.items ≡ numbered_fault number ended is_late) }
{
    let mut digits = Buffer::new();
    let mut text = Vec::new(alloc);
    text.extend_from_slice(b"session ")?;
    text.extend_from_slice(digits.format(number).as_bytes())?;
    text.extend_from_slice(b" fault: ")?;
    text.extend_from_slice(fault_cause(ended, is_late).as_bytes())?;
    text.push(b'\n')?;
    Ok(text)
}

/// `session fault: ` and its name. It takes no memory, so that a want of memory is told, too.
pub(crate) fn plain_fault(ended: SessionEnd) -> &'static str
    ensures { result.now ≡ plain_fault ended }
{
    match ended {
        SessionEnd::Session(SessionFault::Read) => "session fault: read\n",
        SessionEnd::Session(SessionFault::Write) => "session fault: write\n",
        SessionEnd::Session(SessionFault::Bound) => "session fault: bound\n",
        SessionEnd::Session(SessionFault::NoMemory) => "session fault: no memory\n",
        SessionEnd::Journal => "session fault: journal\n",
    }
}

/// `session n begun: peer a`.
pub(crate) fn begun_line(alloc: Global, number: u64, peer: &str) -> Result<Vec<u8>, NoMemory>
    ensures { IfOk result (λ text. text.items ≡ begun_text number peer.now) }
{
    let mut digits = Buffer::new();
    let mut text = Vec::new(alloc);
    text.extend_from_slice(b"session ")?;
    text.extend_from_slice(digits.format(number).as_bytes())?;
    text.extend_from_slice(b" begun: peer ")?;
    text.extend_from_slice(peer.as_bytes())?;
    text.push(b'\n')?;
    Ok(text)
}

/// `session n user u: ` and the reply.
pub(crate) fn denied_line(
    alloc: Global,
    number: u64,
    user: &User,
    reply: &[u8],
) -> Result<Vec<u8>, NoMemory>
    ensures { IfOk result (λ text. text.items ≡ denied_text number user.now reply.now) }
{
    let mut digits = Buffer::new();
    let mut text = Vec::new(alloc);
    text.extend_from_slice(b"session ")?;
    text.extend_from_slice(digits.format(number).as_bytes())?;
    text.extend_from_slice(b" user ")?;
    text.extend_from_slice(user.0.as_bytes())?;
    text.extend_from_slice(b": ")?;
    text.extend_from_slice(reply)?;
    Ok(text)
}

/// The user, or `-` where nobody named one.
fn user_text(user: &Option<User>) -> &[u8]
    ensures { result.now ≡ user_text user.now }
{
    match user {
        Some(user) => user.0.as_bytes(),
        None => b"-",
    }
}

/// `login refused: user u, peer a`.
pub(crate) fn refused_line(
    alloc: Global,
    user: Option<User>,
    peer: &str,
) -> Result<Vec<u8>, NoMemory>
    ensures { IfOk result (λ text. text.items ≡ refused_text user peer.now) }
{
    let mut text = Vec::new(alloc);
    text.extend_from_slice(b"login refused: user ")?;
    text.extend_from_slice(user_text(&user))?;
    text.extend_from_slice(b", peer ")?;
    text.extend_from_slice(peer.as_bytes())?;
    text.push(b'\n')?;
    Ok(text)
}

/// `session refused: peer a`.
pub(crate) fn full_line(alloc: Global, peer: &str) -> Result<Vec<u8>, NoMemory>
    ensures { IfOk result (λ text. text.items ≡ full_text peer.now) }
{
    let mut text = Vec::new(alloc);
    text.extend_from_slice(b"session refused: peer ")?;
    text.extend_from_slice(peer.as_bytes())?;
    text.push(b'\n')?;
    Ok(text)
}

/// Appends the moment, or `-` where there is none.
fn put_moment(text: &mut Vec<u8>, moment: Option<Moment>) -> Result<(), NoMemory>
    ensures { OnOk result (text.new.items ≡ text.old.items ++ moment_text moment) }
{
    let mut digits = Buffer::new();
    match moment {
        Some(Moment(at)) => text.extend_from_slice(digits.format(at).as_bytes())?,
        None => text.extend_from_slice(b"-")?,
    }
    Ok(())
}

/// Appends how many lines were answered, and when the last of them was, with a line feed.
fn put_counts(text: &mut Vec<u8>, summary: &Summary) -> Result<(), NoMemory>
    ensures { OnOk result (text.new.items ≡ text.old.items ++ counts_text summary.now) }
{
    let mut digits = Buffer::new();
    text.extend_from_slice(b", lines ")?;
    text.extend_from_slice(digits.format(summary.lines).as_bytes())?;
    text.extend_from_slice(b", moment ")?;
    put_moment(text, summary.moment)?;
    text.push(b'\n')?;
    Ok(())
}

/// `session n ended: user u, peer a, lines l, moment m`.
pub(crate) fn ended_line(
    alloc: Global,
    number: u64,
    peer: &str,
    summary: &Summary,
) -> Result<Vec<u8>, NoMemory>
    ensures { IfOk result (λ text. text.items ≡ ended_text number peer.now summary.now) }
{
    let mut digits = Buffer::new();
    let mut text = Vec::new(alloc);
    text.extend_from_slice(b"session ")?;
    text.extend_from_slice(digits.format(number).as_bytes())?;
    text.extend_from_slice(b" ended: user ")?;
    text.extend_from_slice(user_text(&summary.user))?;
    text.extend_from_slice(b", peer ")?;
    text.extend_from_slice(peer.as_bytes())?;
    put_counts(&mut text, summary)?;
    Ok(text)
}
