//! Who says that a server is to end, and what comes of it.

use crate::counters::Counters;
use crate::instance::Instance;
use crate::service::Service;
use desk_core::Desk;
use door_core::{Door, Entrance, wait_for_any};
use journal_core::Keeper;
use login_core::UserFile;
use std::sync::ledger::Ledger;
use std::sync::{Arc, Mutex, Wait};
use std::thread;
use std::time::{Clock, Duration, Instant};
use system_core::Size;

// For how many milliseconds at most it waits until the checkpointer has looked. It is busy while a
// checkpoint is active, and has looked then.
const MOST_NAPS: u32 = 20;

// How many milliseconds it waits between two looks at the sessions, while anybody's time runs. A negative
// number is no limit.
const PAUSE_MILLIS: i32 = 50;

const NO_LIMIT: i32 = -1;

/// What is said to a server.
#[derive(Drop)]
pub enum Order {
    /// To take no further session, and end those that run behind the lines that they were sent.
    Stop,
    /// To end them at once.
    Cut,
    /// That from now on these users may log in, and no others.
    Reload(Arc<UserFile>),
}

/// Who measures how large a server is.
pub trait Measure {
    fn size(&self) -> Size;
}

/// Who may say that a server is to end, and may ask how it fares.
pub trait Control {
    /// Whether anyone may.
    fn listens(&self) -> bool;

    /// What was said since the last call, if anything was. It waits until something is, or something
    /// comes at the ear; without an ear, for some milliseconds. It answers who asks how the server fares,
    /// and has it measured then.
    fn heard<M: Measure>(
        &self,
        counters: &Counters,
        measure: &M,
        ear: Option<i32>,
    ) -> Option<Order>;

    /// How many seconds sessions have to end, once a server is stopped, before they are cut.
    fn grace(&self) -> u64;
}

/// Whether the server was told to stop, and from when on sessions are cut, where that could be
/// reckoned.
#[derive(Clone, Copy)]
struct Ordered {
    is_stopped: bool,
    cut_at: Option<Instant>,
}

fn behind<R: Clock>(rt: &R, seconds: u64) -> Option<Instant> {
    Instant::now(rt)
        .ok()?
        .checked_add(Duration::from_secs(seconds))
}

impl Ordered {
    /// Carries an order out. A second one cuts.
    fn carry_out<K: Keeper + Drop, L: Ledger, I: Instance<K>, R: Wait + Clock, C: Control>(
        &mut self,
        rt: &R,
        service: &Service<'_, K, I>,
        door: &Mutex<Door<L>>,
        control: &C,
    ) {
        if self.is_stopped {
            return service.cut(rt);
        }
        door.lock(rt).stop();
        service.stop(rt);
        self.is_stopped = true;
        self.cut_at = behind(rt, control.grace());
    }

    /// Cuts sessions once the grace is over.
    fn cut_late<K: Keeper + Drop, I: Instance<K>, R: Wait + Clock>(
        &self,
        rt: &R,
        service: &Service<'_, K, I>,
    ) {
        if let Some(cut_at) = self.cut_at
            && let Ok(now) = Instant::now(rt)
            && now >= cut_at
        {
            service.cut(rt);
        }
    }
}

/// Measures a server by its desk, once the checkpointer has looked.
#[derive(Drop)]
struct Measuring<'r, 'd, 's, 'e, K: Keeper + Drop, I: Instance<K>, R> {
    rt: &'r R,
    desk: &'d Desk<K>,
    service: &'s Service<'e, K, I>,
}

impl<'r, 'd, 's, 'e, K: Keeper + Drop, I: Instance<K>, R: Clock> Measure
    for Measuring<'r, 'd, 's, 'e, K, I, R> {
    fn size(&self) -> Size {
        let looks = self.service.counters.looks();
        self.service.bell.ring();
        for _ in 0..MOST_NAPS {
            if self.service.counters.looks() != looks {
                break;
            }
            thread::sleep(self.rt, Duration::from_millis(1));
        }
        self.desk.size()
    }
}

/// Where clients do not log in, nobody may.
fn reload<R: Wait>(rt: &R, entrance: &Entrance, file: Arc<UserFile>) {
    if let Some(login) = entrance.login() {
        login.replace(rt, file);
    }
}

/// Does what is due by now. Whether anybody's time runs; where nobody's does, whoever begins one rings.
fn look_at_the_clock<K: Keeper + Drop, I: Instance<K>, R: Wait + Clock>(
    rt: &R,
    service: &Service<'_, K, I>,
    ordered: &Ordered,
) -> bool {
    let alarm = service.entrance.alarm();
    alarm.hush();
    // Before the look: whoever begins a time behind it has to ring.
    alarm.set_awake(false);
    ordered.cut_late(rt, service);
    let is_timed = service.watch_time(rt) || ordered.cut_at.is_some();
    if is_timed {
        alarm.set_awake(true);
    }
    is_timed
}

/// What was said, if anybody may say something. It waits until something is, or the alarm rings; and for
/// some milliseconds at most while anybody's time runs.
fn heard<K: Keeper + Drop, I: Instance<K>, R: Wait + Clock, C: Control>(
    rt: &R,
    desk: &Desk<K>,
    service: &Service<'_, K, I>,
    control: &C,
    is_timed: bool,
) -> Option<Order> {
    let ear = service.entrance.alarm().ear();
    if control.listens() {
        let measuring = Measuring { rt, desk, service };
        let ear = if is_timed { None } else { Some(ear) };
        return control.heard(&service.counters, &measuring, ear);
    }
    let millis = if is_timed { PAUSE_MILLIS } else { NO_LIMIT };
    wait_for_any([ear, -1, -1], millis);
    None
}

/// Watches over the sessions until so many workers have left: whose time is over goes on. While nobody's
/// time runs it sleeps. It listens to a control that says that the server is to stop. Then no further session is taken, and each that is open
/// ends behind the lines that it was sent; at a second word, or once the grace is over, it is cut. It has
/// users log in by another file, where the control has read one.
pub fn watch<K: Keeper + Drop, L: Ledger, I: Instance<K>, R: Wait + Clock, C: Control>(
    rt: &R,
    desk: &Desk<K>,
    service: &Service<'_, K, I>,
    door: &Mutex<Door<L>>,
    workers: u64,
    control: &C,
) {
    let mut ordered = Ordered {
        is_stopped: false,
        cut_at: None,
    };
    for _ in rt.forever() {
        let is_timed = look_at_the_clock(rt, service, &ordered);
        if service.sign.left() >= workers {
            return;
        }
        match heard(rt, desk, service, control, is_timed) {
            Some(Order::Stop) => ordered.carry_out(rt, service, door, control),
            Some(Order::Cut) => service.cut(rt),
            Some(Order::Reload(file)) => reload(rt, service.entrance, file),
            None => {}
        }
    }
    unreachable!()
}
