//! Texts made lines.
ghost use Rattle.std.specs.Prelude.{◌≤◌, length, IfErr, OnOk};
ghost use Rattle.std.specs.Option.{option_copied};
ghost use Rattle.parameters_core.specs.Filling.{IsFilled, IsFillFault, ones};
ghost use Rattle.parameters_core.specs.Putting.{IsFilledBy, IsFilledByFault, AreEnough};

use crate::fault::FillFault;
use crate::places::{first_place, greatest_place};
use crate::putting::{put_place, put_segment};
use base_core::Value;

/// Makes the line with these values, or with ones.
fn fill_by(line: &mut Vec<u8>, text: &[u8], values: Option<&[Value]>) -> Result<(), FillFault>
    requires { AreEnough text.now (option_copied values) }
    ensures filled { OnOk result
        (IsFilledBy text.now (option_copied values.entry) line.new.items) }
    ensures faulty { IfErr result (IsFilledByFault text.now (option_copied values.entry)) }
    ensures short { OnOk result (length line.new.items ≤ 4096) }
{
    line.clear();
    let mut rest = text;
    while let Some(place) = first_place(rest) {
        put_segment(line, &rest[..place.start])?;
        put_place(line, values, place.number)?;
        rest = &rest[place.end..];
    }
    put_segment(line, rest)
}

/// Makes a text a line: each place has the literal of its value between blanks, line ends outside
/// texts in quotes are blanks, and all else stays. The line takes the place of what the vector had.
///
/// `NoValue` exactly where a place has no value, with the greatest number of a place. Else
/// `TooLong` exactly where the line would have more than 4,096 bytes. `NoMemory` where a request for memory
/// was refused. Behind a fault what the vector has means nothing.
pub fn fill(line: &mut Vec<u8>, text: &[u8], values: &[Value]) -> Result<(), FillFault>
    ensures filled { OnOk result (IsFilled text.now values.now line.new.items) }
    ensures short { OnOk result (length line.new.items ≤ 4096) }
    ensures faulty { IfErr result (IsFillFault text.now values.now) }
{
    let greatest = greatest_place(text);
    if greatest as usize > values.len() {
        return Err(FillFault::NoValue(greatest));
    }
    fill_by(line, text, Some(values))
}

/// Makes a text a line with the number 1 in each place, as [`fill`] does with as many ones as a
/// text may need.
pub fn fill_with_ones(line: &mut Vec<u8>, text: &[u8]) -> Result<(), FillFault>
    ensures filled { OnOk result (IsFilled text.now ones line.new.items) }
    ensures short { OnOk result (length line.new.items ≤ 4096) }
    ensures faulty { IfErr result (IsFillFault text.now ones) }
{
    fill_by(line, text, None)
}
