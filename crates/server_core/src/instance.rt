//! What all sessions of one server have in common, for contracts alone.
ghost use Rattle.std.specs.Prelude.{false, [], Option, None};
ghost use Rattle.desk_core.specs.Guarded.{DeskLock};
ghost use Rattle.door_core.specs.Entrance.{Admittance};

use journal_core::{Keeper, Syncs};
use session_core::SessionMachine;
use std::marker::{Brand, PhantomData};

/// Where all sessions of one server are: the desk at which they are answered, and how its entrance admits.
/// Whoever begins a server says which they are.
pub trait Site<K> {
    ghost desk: { Option (DeskLock K) };

    ghost by: { Admittance };
}

impl<K> Site<K> for Brand {
    ghost desk = { None };

    ghost by = { record { login = false; sockets = [] } };
}

/// What all sessions of one server have in common: the machine that each of them is, who makes durable what
/// they are told, the desk at which they are answered, and how they come by their users. A session that any
/// worker goes on with bears it in its type. It takes no bytes.
pub trait Instance<K: Keeper + Drop> {
    type Session: SessionMachine<K>;

    type Syncer: Syncs<K>;

    ghost desk: { Option (DeskLock K) };

    ghost by: { Admittance };
}

/// The instance of sessions that are such machines, at this site, with such a one who makes durable what they
/// are told.
#[derive(Drop)]
pub struct AtSite<S, M, Y>(PhantomData<(S, M, Y)>);

impl<K: Keeper + Drop, S: Site<K>, M: SessionMachine<K>, Y: Syncs<K>> Instance<K>
    for AtSite<S, M, Y> {
    type Session = M;

    type Syncer = Y;

    ghost desk = { S.desk };

    ghost by = { S.by };
}
