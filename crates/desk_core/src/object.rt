//! The core as what a turn lock guards.
ghost use Rattle.std.specs.Prelude.{◌≡◌, ℕ, List, length, true, false, IfOk, MatchResult};
ghost use Rattle.reader_core.specs.Language.{Spells};
ghost use Rattle.journal_core.specs.Recorder.{IsSpelledEvent};
ghost use Rattle.desk_core.specs.Acting.{event_of, images_of, Acts, LooksAt, Finds};
ghost use Rattle.desk_core.specs.Guarded.{origin_at};
ghost use Rattle.desk_core.specs.Kept.{HasKept};

use crate::last_size::LastSize;
use base_core::{NoMemory, User};
use capture_core::Image;
use folder_core::Errand;
use journal_core::{Acted, Keeper, Unkept, act};
use reader_core::Statement;
use std::alloc::Global;
use std::marker::Model;
use std::snapshot::Snapshot;
use std::sync::Arc;
use system_core::{Entry, Event, Parting, Reply, Size, System};
use turnstile::Object;

/// A statement of a user, as some line spells it. Contracts see who says what.
#[derive(Drop)]
pub struct Said {
    user: User,
    statement: Statement,
}

impl Model for Said {
    ghost use Rattle.std.specs.Prelude.{ℕ, List};
    ghost use Rattle.reader_core.specs.Language.{Spells};
    ghost use Rattle.desk_core.specs.Saying.{Saying};

    ghost Value = { Saying };

    ghost view = { λ s. record { user = s.user; statement = s.statement } };

    ghost invariant = { λ s. (line : List ℕ) × Spells line s.statement };
}

impl Said {
    /// What the user says. Some line has to spell it.
    pub fn new(user: User, statement: Statement) -> Said
        requires spelled { (line : List ℕ) × Spells line statement }
        ensures { result ≡ record { user = user; statement = statement } }
    {
        Said { user, statement }
    }
}

/// What is asked through a pass.
#[derive(Drop)]
pub enum Ask {
    Say(Said),
    /// To describe what is said, and not to do it.
    Describe(Said),
    /// A step of the checkpointer.
    Step,
    /// To give up the active checkpoint.
    Abandon,
}

/// What a turn is for.
#[derive(Drop)]
pub enum Purpose {
    /// To act.
    Act(Ask),
    /// To look at what is kept.
    Look,
    /// To find the image of a checkpoint.
    Find(u64),
    /// To have the keeper run an errand.
    Tend(Errand),
}

impl Ask {
    /// What is asked, as an event of the pass of this number.
    fn event(self, pass: u64) -> Event
        ensures event { result ≡ event_of pass self }
        ensures spelled { IsSpelledEvent result }
    {
        match self {
            Ask::Say(said) => {
                let Said { user, statement } = said;
                Event::Say {
                    pass,
                    user,
                    statement,
                }
            }
            Ask::Describe(said) => {
                let Said { user, statement } = said;
                Event::Describe { user, statement }
            }
            Ask::Step => Event::Step,
            Ask::Abandon => Event::Abandon,
        }
    }
}

/// What was seen of a core: how many entries its journal has, and what keeps them. It tells contracts alone
/// of the keeper.
#[derive(Drop)]
pub struct Look<K> {
    pub count: u64,
    pub keeper: Snapshot<K>,
}

/// A reply, whether it may be told, what is freed behind the turn, behind a step of the checkpointer how
/// large the core is, what was seen of it, the image that was found, and whether an errand was run. Contracts
/// see the reply, whether it may be told, what was seen, and what was found.
#[derive(Drop)]
pub struct Answer<K> {
    acted: Acted,
    parting: Parting,
    size: Option<Size>,
    look: Look<K>,
    found: Result<Option<Arc<Image>>, NoMemory>,
    is_run: bool,
}

impl<K> Model for Answer<K> {
    ghost use Rattle.desk_core.specs.Acting.{Answering, images_of};

    ghost Value = { Answering K };

    ghost view = { λ a. record {
      acted = a.acted;
      count = a.look.count;
      keeper = a.look.keeper.value;
      found = images_of a.found;
    } };
}

impl<K> Answer<K> {
    /// The reply, if it may be told. What is to be freed is freed here, and a size is noted.
    pub fn into_reply(self, last: &LastSize) -> Result<Reply, Unkept>
        ensures { MatchResult result
            (λ reply. (self.acted.told ≡ true) × (reply ≡ self.acted.reply))
            (λ _. self.acted.told ≡ false) }
    {
        let Answer {
            acted,
            parting,
            size,
            ..
        } = self;
        parting.free();
        last.note(size);
        let Acted { reply, told } = acted;
        if told { Ok(reply) } else { Err(Unkept) }
    }

    /// What was seen. What is to be freed is freed here.
    pub fn into_look(self) -> Look<K>
        ensures count { result.count ≡ self.count }
        ensures keeper { result.keeper.value ≡ self.keeper }
    {
        let Answer { look, .. } = self;
        look
    }

    /// Whether an errand was run.
    pub fn is_run(&self) -> bool {
        self.is_run
    }

    /// What was found.
    pub fn into_found(self) -> Result<Option<Arc<Image>>, NoMemory>
        ensures { images_of result ≡ self.found }
    {
        let Answer { found, .. } = self;
        found
    }
}

/// What a desk was built on, which no turn changes: the core and the keeper as they were handed in. It
/// takes no memory, since contracts alone see it.
#[derive(Drop)]
pub struct Basis<K> {
    system: Snapshot<System>,
    keeper: Snapshot<K>,
}

impl<K> Model for Basis<K> {
    ghost use Rattle.desk_core.specs.Guarded.{Origin, origin_at};

    ghost Value = { Origin K };

    ghost view = { λ b. origin_at b.system.value b.keeper.value };
}

/// A core, and what keeps its changes. Contracts see its world, what its desk was built on, and the
/// keeper.
#[derive(Drop)]
pub struct Core<K: Keeper> {
    pub basis: Basis<K>,
    pub system: Box<System>,
    pub keeper: K,
}

impl<K: Keeper> Model for Core<K> {
    ghost use Rattle.std.specs.Prelude.{◌≡◌, ◌≤◌, length};
    ghost use Rattle.desk_core.specs.Guarded.{CoreState};
    ghost use Rattle.desk_core.specs.Kept.{HasKept};

    ghost Value = { CoreState K };

    ghost view = { λ c. record {
      world = c.system.value;
      origin = c.basis;
      keeper = c.keeper;
    } };

    ghost invariant = { λ c. (c.system.value.chunk ≡ c.basis.chunk)
        × (c.system.value.limits ≡ c.basis.limits)
        × (c.basis.front ≤ length c.system.value.journal)
        × HasKept K.Keeper c.basis c.system.value.journal c.keeper };
}

impl<K: Keeper + Drop> Core<K> {
    /// This system, whose changes from now on the keeper keeps, which owes nothing. `NoMemory` where a
    /// request for memory was refused.
    pub fn new(alloc: Global, system: System, keeper: K) -> Result<Core<K>, NoMemory>
        requires { K.owing keeper ≡ false }
        ensures { IfOk result (λ c. c ≡ record {
          world = system;
          origin = origin_at system keeper;
          keeper = keeper;
        }) }
    {
        let built = Snapshot::of(&system);
        let begun = Snapshot::of(&keeper);
        let basis = Basis {
            system: built,
            keeper: begun,
        };
        let system = Box::new(alloc, system)?;
        Ok(Core {
            basis,
            system,
            keeper,
        })
    }
}

impl<K: Keeper + Drop> Core<K> {
    /// What there is to see of it.
    fn seen(&self) -> Look<K>
        ensures count { result.count ≡ length self.now.world.journal }
        ensures keeper { result.keeper.value ≡ self.now.keeper }
        ensures kept { HasKept K.Keeper self.now.origin self.now.world.journal self.now.keeper }
    {
        Look {
            count: self.system.journal().len() as u64,
            keeper: Snapshot::of(&self.keeper),
        }
    }

    /// Does what is asked, for the pass of that number.
    fn carry_out(&mut self, pass: u64, ask: Ask) -> Answer<K>
        ensures { Acts K.Keeper self.old pass ask result.acted self.new }
    {
        // The journal says that the world is lawful.
        let _ = self.system.journal();
        let is_step = matches!(ask, Ask::Step);
        let acted = act(&mut self.system, &mut self.keeper, ask.event(pass));
        let parting = self.system.take_parting();
        let size = if is_step {
            Some(self.system.size())
        } else {
            None
        };
        let look = self.seen();
        Answer {
            acted,
            parting,
            size,
            look,
            found: Ok(None),
            is_run: false,
        }
    }

    /// Looks at what is kept.
    fn looked_at(&self) -> Answer<K>
        ensures { LooksAt K.Keeper self.now result self.now }
    {
        self.idle_answer(Ok(None), false)
    }

    /// Finds the image of a checkpoint.
    fn found(&self, number: u64) -> Answer<K>
        ensures { Finds K.Keeper self.now number result self.now }
    {
        // The journal says that the world is lawful.
        let _ = self.system.journal();
        self.idle_answer(self.system.image(number), false)
    }

    /// Has the keeper run an errand.
    fn tended(&mut self, errand: Errand) -> Answer<K>
        requires { HasKept K.Keeper self.old.origin self.old.world.journal self.old.keeper
            → K.may_run self.old.keeper errand }
        ensures { self.new ≡ self.old }
    {
        let is_run = self.keeper.run(errand);
        self.idle_answer(Ok(None), is_run)
    }

    /// The answer of a turn that is no event.
    fn idle_answer(&self, found: Result<Option<Arc<Image>>, NoMemory>, is_run: bool) -> Answer<K>
        ensures looks { LooksAt K.Keeper self.now result self.now }
        ensures found { result.found ≡ images_of found }
    {
        Answer {
            acted: Acted {
                reply: Reply::Idle,
                told: true,
            },
            parting: Parting::nothing(),
            size: None,
            look: self.seen(),
            found,
            is_run,
        }
    }
}

impl<K: Keeper + Drop> Object for Core<K> {
    ghost use Rattle.desk_core.specs.Acting.{MayBeAsked, ActsFor, acts_for_grow, basis};

    type Ask = Purpose;

    type Reply = Answer<K>;

    type Entry = Entry;

    type Fixed = Snapshot<Basis<K>>;

    ghost log = { λ c. c.world.journal };

    ghost by = { λ e. e.pass };

    ghost mark = { λ c. c.world.begun };

    ghost fixed = { basis };

    ghost may = { MayBeAsked K.Keeper };

    ghost acts = { ActsFor K.Keeper };

    fn act(&mut self, pass: u64, purpose: Purpose) -> Answer<K> {
        match purpose {
            Purpose::Act(ask) => self.carry_out(pass, ask),
            Purpose::Look => self.looked_at(),
            Purpose::Find(number) => self.found(number),
            Purpose::Tend(errand) => self.tended(errand),
        }
    }

    fn fixed_part(&self) -> Snapshot<Basis<K>> {
        Snapshot::of(&self.basis)
    }

    ghost grows = { acts_for_grow K.Keeper };
}
