//! The law of checkpoints on the disk, as the contract of a function that does nothing.
ghost use Rattle.checkpoint_core.specs.Beginning.{ImageMayBePut};

use journal_core::Errands;

/// A dump of an image that a desk found is one of what the folder's first changes leave, whatever was entered and
/// kept since.
pub fn image_may_be_put<W: Errands>()
    ensures { ImageMayBePut W.may_run W.knows }
{}
