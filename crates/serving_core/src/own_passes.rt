//! The passes of a server's own threads.

use desk_core::Pass;
use journal_core::Keeper;

/// The passes of a server's own threads, which serve nobody.
#[derive(Drop)]
pub struct OwnPasses<K: Keeper + Drop> {
    pub tender: Pass<K>,
    pub checkpointer: Pass<K>,
}
