//! What a revocation takes of the grants in force.
ghost use Rattle.std.specs.Prelude.{◌≡◌, ◌++◌, ◌∷◌, [], ◌&&◌, not, if◌then◌else◌, IfOk, OnOk};
ghost use Rattle.stream_core.specs.Losses.{AreLossesOf};

use crate::effect::Effect;
use base_core::NoMemory;
use links_core::Standing;
use std::alloc::Global;

/// Notes that a grant lost its option, if it did.
fn note_option(all: &mut Vec<Effect>, standing: &Standing, left: &Standing) -> Result<(), NoMemory>
    ensures { OnOk result (all.new.items ≡ all.old.items
        ++ (if standing.now.option && not left.now.option
        then Effect.OptionLost standing.now.number ∷ [] else [])) }
{
    if standing.option && !left.option {
        all.push(Effect::OptionLost {
            number: standing.number,
        })?;
    }
    Ok(())
}

/// The effects of a revocation that left these of the grants before it: which fell, and which lost
/// their option. It goes over both lists, in rising numbers. `NoMemory` where a request for memory
/// was refused.
pub fn losses(
    alloc: Global,
    before: &[Standing],
    after: &[Standing],
) -> Result<Vec<Effect>, NoMemory>
    ensures { IfOk result (λ all. AreLossesOf before.now after.now all.items) }
{
    let mut all = Vec::new(alloc);
    let mut rest = after;
    for standing in before {
        match rest.first() {
            Some(left) if left.number == standing.number => {
                note_option(&mut all, standing, left)?;
                rest = &rest[1..];
            }
            _ => all.push(Effect::GrantFell {
                number: standing.number,
            })?,
        }
    }
    Ok(all)
}
