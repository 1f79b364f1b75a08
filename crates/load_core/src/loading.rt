//! Journals loaded.
ghost use Rattle.std.specs.Prelude.{◌≡◌, ◌<◌, ◌≤◌, ◌↔◌, false, true, length, Ok, Err, All, IfOk, IfErr, IsErrOf};
ghost use Rattle.std.specs.List.{AllByRecursion};
ghost use Rattle.journal_core.specs.Text.{WasRead};
ghost use Rattle.load_core.specs.Loading.{EndsLoad, EndsLoadWhole};
ghost use Rattle.load_core.specs.FaultTexts.{load_fault_text};
ghost use Rattle.load_core.specs.declared.fault.LoadFault.{LoadFault as load_fault};
ghost use Rattle.load_core.specs.Loader.{IsToldOf};

use crate::fault::LoadFault;
use crate::fault_text::load_fault_text;
use crate::loader::Loader;
use crate::whole::read_whole;
use base_core::{Limits, NoMemory, Source};
use lines_core::SessionFault;
use std::alloc::Global;
use system_core::System;

/// The fault of a reader, or of what is made before the first read.
pub(crate) fn load_fault(fault: SessionFault) -> LoadFault
    requires { fault ≡ SessionFault.Write → ⊥ }
    ensures { IsToldOf fault result }
{
    match fault {
        SessionFault::Read => LoadFault::Read,
        SessionFault::Bound => LoadFault::Bound,
        SessionFault::NoMemory => LoadFault::NoMemory,
        SessionFault::Write => unreachable!(),
    }
}

/// What a file's whole lines make, and the front of a last line that was cut off.
#[derive(Drop)]
pub struct Loaded {
    pub system: System,
    /// Its first 4,130 bytes at most.
    pub cut: Option<Vec<u8>>,
}

/// Enters the changes that the reader's whole lines say, one by one, until its end, and gives a core
/// whose journal has just these, in order, through pass 0. It writes nothing. A last line that has no
/// line feed says nothing, as a write that was cut off leaves it, and is given beside the core.
///
/// A line is `user: statement`, of at most 4,128 bytes, and the statement of at most 4,096; it says
/// a change that is allowed at the journal before it. A byte order mark before the first line is
/// passed over. The first line that says none ends the loading: `Line`, with its number from 1 and
/// why. `Read` is answered exactly where the reader has failed, `Bound` where 2^32 bytes were read and
/// the end had not come, and `NoMemory` before the first read. The chunk and the limits are those of
/// [`System::with_limits`], the chunk from 1 to 64.
pub fn load_whole<S: Source>(
    alloc: Global,
    reader: &mut S,
    chunk: usize,
    limits: Limits,
) -> Result<Loaded, LoadFault>
    requires some { 0 < chunk }
    requires small { chunk ≤ 64 }
    requires source { S.failed reader.old ≡ false }
    ensures read { IsErrOf result LoadFault.Read ↔ (S.failed reader.new ≡ true) }
    ensures ends { EndsLoadWhole chunk limits result (S.left reader.old) (S.left reader.new) }
    ensures few { IfOk result (λ loaded. length loaded.system.journal ≤ 1000000000) }
    ensures passes { IfOk result (λ loaded. All (λ e. e.pass ≡ 0) loaded.system.journal) }
    ensures entries { IfOk result (λ loaded. AllByRecursion WasRead loaded.system.journal) }
{
    let Ok(system) = System::with_limits(alloc, chunk, limits) else {
        return Err(LoadFault::NoMemory);
    };
    let mut loader = Loader::new(alloc, system);
    match read_whole(alloc, &mut loader, reader) {
        Ok(cut) => loader.finish(cut),
        Err(fault) => {
            loader.free();
            Err(load_fault(fault))
        }
    }
}

/// As [`load_whole`], but a last line that has no line feed is refused: `CutOff`, with its number.
pub fn load<S: Source>(
    alloc: Global,
    reader: &mut S,
    chunk: usize,
    limits: Limits,
) -> Result<System, LoadFault>
    requires some { 0 < chunk }
    requires small { chunk ≤ 64 }
    requires source { S.failed reader.old ≡ false }
    ensures read { IsErrOf result LoadFault.Read ↔ (S.failed reader.new ≡ true) }
    ensures ends { EndsLoad chunk limits result (S.left reader.old) (S.left reader.new) }
    ensures passes { IfOk result (λ system. All (λ e. e.pass ≡ 0) system.journal) }
    ensures entries { IfOk result (λ system. AllByRecursion WasRead system.journal) }
{
    let Loaded { system, cut } = load_whole(alloc, reader, chunk, limits)?;
    match cut {
        None => Ok(system),
        Some(front) => {
            let number = system.moment().0 + 1;
            system.free();
            drop(front);
            Err(LoadFault::CutOff { number })
        }
    }
}

/// As [`load`], with the text of [`load_fault_text`] in place of a fault, or `NoMemory` where there
/// was no memory for it.
pub fn load_or_text<S: Source>(
    alloc: Global,
    reader: &mut S,
    chunk: usize,
    limits: Limits,
) -> Result<System, Result<Vec<u8>, NoMemory>>
    requires some { 0 < chunk }
    requires small { chunk ≤ 64 }
    requires source { S.failed reader.old ≡ false }
    ensures ok { IfOk result
        (λ system. EndsLoad chunk limits (Ok system) (S.left reader.old) (S.left reader.new)) }
    ensures err { IfErr result (λ told. (fault : load_fault)
        × EndsLoad chunk limits (Err fault) (S.left reader.old) (S.left reader.new)
        × ((fault ≡ LoadFault.Read) ↔ (S.failed reader.new ≡ true))
        × IfOk told (λ text. text.items ≡ load_fault_text fault)) }
    ensures passes { IfOk result (λ system. All (λ e. e.pass ≡ 0) system.journal) }
    ensures entries { IfOk result (λ system. AllByRecursion WasRead system.journal) }
{
    match load(alloc, reader, chunk, limits) {
        Ok(system) => Ok(system),
        Err(fault) => {
            let told = load_fault_text(alloc, &fault);
            drop(fault);
            Err(told)
        }
    }
}

/// As [`load_whole`], with the text of [`load_fault_text`] in place of a fault, or `NoMemory` where
/// there was no memory for it.
pub fn load_whole_or_text<S: Source>(
    alloc: Global,
    reader: &mut S,
    chunk: usize,
    limits: Limits,
) -> Result<Loaded, Result<Vec<u8>, NoMemory>>
    requires some { 0 < chunk }
    requires small { chunk ≤ 64 }
    requires source { S.failed reader.old ≡ false }
    ensures ok { IfOk result (λ loaded. EndsLoadWhole chunk limits (Ok loaded)
        (S.left reader.old) (S.left reader.new)) }
    ensures err { IfErr result (λ told. (fault : load_fault)
        × EndsLoadWhole chunk limits (Err fault) (S.left reader.old) (S.left reader.new)
        × ((fault ≡ LoadFault.Read) ↔ (S.failed reader.new ≡ true))
        × IfOk told (λ text. text.items ≡ load_fault_text fault)) }
    ensures passes { IfOk result (λ loaded. All (λ e. e.pass ≡ 0) loaded.system.journal) }
    ensures entries { IfOk result (λ loaded. AllByRecursion WasRead loaded.system.journal) }
{
    match load_whole(alloc, reader, chunk, limits) {
        Ok(loaded) => Ok(loaded),
        Err(fault) => {
            let text = load_fault_text(alloc, &fault);
            drop(fault);
            Err(text)
        }
    }
}
