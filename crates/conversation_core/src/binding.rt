//! Bind: a portal is made of a prepared statement, and kept by its name.
ghost use Rattle.std.specs.Prelude.{◌≡◌, [], MatchResult};
ghost use Rattle.binding_core.specs.Binding.{Binds, IsBindFault};
ghost use Rattle.binding_core.specs.declared.fault.BindFault.{BindFault};
ghost use Rattle.preparing_core.specs.FaultProblems.{bind_problem};
ghost use Rattle.conversation_core.specs.Extending.{AnswersBind, IsPortalFault, MakesPortal};
ghost use Rattle.conversation_core.specs.State.{Adds};

use crate::conversation::Conversation;
use crate::portals::Bound;
use base_core::Sequence;
use binding_core::bind;
use messages_core::Bind;
use preparing_core::{Prepared, bind_problem, formats_of};
use sending_core::{Plain, Problem};
use std::alloc::{AllocError, Global};

/// The line of a prepared statement with the values of a Bind, or why there is none.
fn line_of(alloc: Global, made: &Prepared, wanted: &Bind<'_>) -> Result<Sequence<u8>, Problem>
    ensures { MatchResult result
        (Binds made.now.text made.now.types wanted.now.formats wanted.now.values)
        (λ problem. (fault : BindFault) × (problem ≡ bind_problem fault)
        × IsBindFault made.now.text made.now.types wanted.now.formats wanted.now.values fault) }
{
    let text = made.text.as_slice();
    let types = made.types.as_slice();
    match bind(alloc, text, types, &wanted.formats, &wanted.values) {
        Ok(line) => Ok(Sequence::from_vec(line)),
        Err(fault) => Err(bind_problem(fault)),
    }
}

impl Conversation {
    /// The portal that a Bind makes, or what stands in its way.
    fn portal_of(&self, alloc: Global, wanted: &Bind<'_>) -> Result<Bound, Problem>
        ensures { MatchResult result (MakesPortal self.now.state wanted.now)
            (IsPortalFault self.now.state wanted.now) }
    {
        let Some(made) = self.prepared(wanted.statement.as_slice()) else {
            return Err(Problem::NoStatement);
        };
        if let Some(problem) = self.portal_fault(wanted.portal.as_slice()) {
            return Err(problem);
        }
        let line = match line_of(alloc, &made.prepared, wanted) {
            Ok(line) => line,
            Err(problem) => return Err(problem),
        };
        let formats = match formats_of(&wanted.result_formats) {
            Ok(formats) => formats,
            Err(problem) => return Err(problem),
        };
        let Ok(name) = Vec::from_slice(alloc, wanted.portal.as_slice()) else {
            return Err(Problem::NoMemory);
        };
        let name = Sequence::from_vec(name);
        Ok(Bound {
            name,
            line,
            formats,
            was_executed: false,
        })
    }

    /// Answers a Bind.
    pub(crate) fn bind(&mut self, alloc: Global, wanted: &Bind<'_>)
        requires { self.old.sending.items ≡ [] }
        ensures { Adds self.old self.new (AnswersBind wanted.now self.old.state) }
    {
        match self.portal_of(alloc, wanted) {
            Ok(portal) => match self.keep_portal(portal) {
                Ok(()) => self.send(Plain::BindComplete),
                Err(AllocError) => self.refuse(Problem::NoMemory),
            },
            Err(problem) => self.refuse(problem),
        }
    }
}
