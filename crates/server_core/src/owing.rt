//! A session that has ended before its last reply was written.
ghost use Rattle.std.specs.Prelude.{◌≡◌, ◌++◌, [], true, false, List, ℕ, None, IfOk, OnErr, MatchOption, MatchResult};
ghost use Rattle.base_core.specs.Streams.{Writes, WritesFrontOf};

use crate::instance::Instance;
use base_core::{Broken, NoGate, Sink};
use journal_core::Keeper;
use session_core::{Scratch, SessionMachine};
use std::marker::PhantomData;

/// A session that has ended, and of whose last reply some is still to be written.
#[derive(Drop)]
pub(crate) struct Owing<K: Keeper + Drop, I: Instance<K>> {
    ended: I::Session,
    instance: PhantomData<(K, I)>,
}

impl<K: Keeper + Drop, I: Instance<K>> Owing<K, I> {
    /// What is still to be written of a session that has ended, if anything is.
    pub(crate) fn of(ended: I::Session) -> Option<Owing<K, I>>
        ensures { MatchOption result ((I.Session.state ended).owed ≡ None)
            (λ owing. owing.ended ≡ ended) }
    {
        if !ended.is_owing() {
            return None;
        }
        Some(Owing {
            ended,
            instance: PhantomData,
        })
    }

    /// Writes some more of it; gives what is to come behind that, if anything is. `Broken` exactly where the
    /// writer has failed, and then a front of what was owed was written.
    pub(crate) fn go_on<W: Sink>(
        self,
        scratch: &mut Scratch,
        writer: &mut W,
    ) -> Result<Option<Owing<K, I>>, Broken>
        requires { W.failed writer.old ≡ false }
        ensures failed { MatchResult result (λ _. W.failed writer.new ≡ false)
            (λ _. W.failed writer.new ≡ true) }
        ensures ok { IfOk result (λ next. Writes (λ text. (rest : List ℕ)
            → MatchOption next (rest ≡ []) (λ owing. I.Session.owes owing.ended rest)
            → I.Session.owes self.ended (text ++ rest))
            (W.taken writer.old) (W.taken writer.new)) }
        ensures err { OnErr result (WritesFrontOf (I.Session.owes self.ended)
            (W.taken writer.old) (W.taken writer.new)) }
    {
        let mut ended = self.ended;
        ended.go_on(scratch, writer, &NoGate)?;
        Ok(Owing::of(ended))
    }
}
