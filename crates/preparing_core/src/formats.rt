//! The formats of a result's columns.
ghost use Rattle.std.specs.Prelude.{◌≡◌, ℕ, length, IfErr, IfOk, OnErr};
ghost use Rattle.binding_core.specs.Formats.{AreFormats, IsUnknownFormat};

use answer_core::Formats;
use binding_core::result_formats;
use messages_core::{Format, Int16s};
use reader_core::MAX_ITEMS;
use sending_core::Problem;

/// The formats of the first columns of a result, as many as a table may have, by the codes that a Bind
/// sends for them: none, all are text; one is for all; else each has its own, and those behind the last
/// are text. It takes no memory. `UnknownFormat` exactly where one of these codes is neither 0, text, nor
/// 1, binary.
pub fn formats_of(codes: &Int16s<'_>) -> Result<Formats, Problem>
    ensures whole { IfOk result (λ formats. length formats ≡ MAX_ITEMS) }
    ensures formats { IfOk result (AreFormats codes.now) }
    ensures problem { IfErr result (λ problem. problem ≡ Problem.UnknownFormat) }
    ensures unknown { OnErr result ((code : ℕ) × IsUnknownFormat codes.now code) }
{
    let Ok(found) = result_formats(codes) else {
        return Err(Problem::UnknownFormat);
    };
    let mut formats = Formats::all(Format::Text, 0);
    for column in 0..MAX_ITEMS {
        formats.push(found[column]);
    }
    Ok(formats)
}
