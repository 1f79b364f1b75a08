//! What a stream tells, and what a reader of it has.
ghost use Rattle.stream_core.specs.Streams.{EffectsAreOne, StreamBegins, StreamIsOne, StreamLeads};

/// A change has one list of effects at most: the difference that it makes leaves no choice.
pub fn effects_are_one()
    ensures { EffectsAreOne }
{}

/// A journal has one stream at most, moment by moment and effect by effect: what is told of it is determined by it.
pub fn a_stream_is_one()
    ensures { StreamIsOne }
{}

/// Whoever begins with nothing and applies all effects, one after another, has the tables, the rows and the
/// grants in force that the journal makes.
pub fn a_stream_begins()
    ensures { StreamBegins }
{}

/// Whoever has what there was at a moment, and applies the effects of later moments, has what there is.
pub fn a_stream_goes_on()
    ensures { StreamLeads }
{}
