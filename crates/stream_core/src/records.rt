//! A writer of records that is kept from one change to the next.
ghost use Rattle.std.specs.Prelude.{◌≡◌, IfOk, OnOk};
ghost use Rattle.stream_core.specs.Lines.{effect_lines};
ghost use Rattle.stream_core.specs.Records.{IsReady};

use crate::effect::Effect;
use crate::telling::put_effects;
use base_core::NoMemory;
use csv::Writer;
use export_core::record::writer_after;
use std::alloc::Global;
use std::marker::Model;

/// So many bytes of earlier records stay at most where further ones are written.
const MOST_KEPT: usize = 65_536;

/// Writes records. Each text stands by itself; the writer is kept, since to make one costs more than most
/// texts.
#[derive(Drop)]
pub struct Records {
    alloc: Global,
    writer: Writer<Vec<u8>>,
}

impl Model for Records {
    ghost use Rattle.stream_core.specs.Records.{IsReady};

    ghost Value = { Unit {0} };

    ghost view = { λ s. tt };

    ghost invariant = { λ s. IsReady s.writer };
}

/// Begins anew. (Apart from its callers, which would pay for the room of a writer at each call.)
#[cold]
#[inline(never)]
fn renew(alloc: Global, writer: &mut Writer<Vec<u8>>)
    ensures { IsReady writer.new }
{
    *writer = writer_after(Vec::new(alloc));
}

/// The records of the effects of one moment, which the writer has behind what it had.
fn text_behind(
    alloc: Global,
    writer: &mut Writer<Vec<u8>>,
    moment: u64,
    effects: &[Effect],
) -> Result<Vec<u8>, NoMemory>
    requires { IsReady writer.old }
    ensures text { IfOk result (λ text. text.items ≡ effect_lines moment effects.now) }
    ensures ready { OnOk result (IsReady writer.new) }
{
    let from = writer.get_ref().len();
    put_effects(writer, moment, effects)?;
    match writer.flush() {
        Ok(()) => {}
        Err(_) => return Err(NoMemory),
    }
    let text = Vec::from_slice(alloc, &writer.get_ref()[from..])?;
    Ok(text)
}

impl Records {
    /// Nothing was written yet.
    pub fn new(alloc: Global) -> Records {
        Records {
            alloc,
            writer: writer_after(Vec::new(alloc)),
        }
    }

    /// The records of the effects of one moment. `NoMemory` where a request for memory was refused.
    pub fn of_moment(&mut self, moment: u64, effects: &[Effect]) -> Result<Vec<u8>, NoMemory>
        ensures { IfOk result (λ text. text.items ≡ effect_lines moment effects.now) }
    {
        if self.writer.get_ref().len() > MOST_KEPT {
            renew(self.alloc, &mut self.writer);
        }
        let text = text_behind(self.alloc, &mut self.writer, moment, effects);
        if text.is_err() {
            renew(self.alloc, &mut self.writer);
        }
        text
    }
}
