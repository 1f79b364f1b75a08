//! Laws of images, each a contract.
ghost use Rattle.capture_core.specs.Laws.{HasAsTables, HoldsAsRights};

/// The image of tables and rights tells of a name whether it is a table's, and of a user what he
/// holds, as the tables and the grants in force do.
pub fn images_tell_the_same()
    ensures tables { HasAsTables }
    ensures rights { HoldsAsRights }
{}
