//! Chains of grants in force.
ghost use Rattle.std.specs.Prelude.{◌≡◌, IfOk, Some, None, slice_get};
ghost use Rattle.explain_core.specs.Lives.{lives_of};
ghost use Rattle.explain_core.specs.declared.life.Life.{Life as lives};
ghost use Rattle.explain_core.specs.Life.{left};
ghost use Rattle.explain_core.specs.Chains.{IsChain};

use crate::history::History;
use base_core::NoMemory;
use grants_core::Grant;
use std::alloc::Global;

impl History {
    /// The chain from the owner down to the grant of this number, which is in force: each grant of
    /// it is, and was made by the grantee of the one before, with his option, at a later moment.
    /// `NoMemory` where a request for memory was refused.
    pub fn chain(&self, alloc: Global, number: u64) -> Result<Vec<Grant>, NoMemory>
        requires { (life : lives)
            × (slice_get (lives_of self.now) number ≡ Some life) × (life.fell ≡ None) }
        ensures { (life : lives)
            → slice_get (lives_of self.now) number ≡ Some life → life.fell ≡ None
            → IfOk result (λ chain. IsChain self.now chain.items (left life)) }
    {
        let lives = self.lives.as_slice();
        let mut place = number as usize;
        let mut chain = Vec::new(alloc);
        chain.push(lives[place].left())?;
        while let Some(support) = self.supports[place] {
            place = support;
            chain.push(lives[place].left())?;
        }
        chain.reverse();
        Ok(chain)
    }
}
