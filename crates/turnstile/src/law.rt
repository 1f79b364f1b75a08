//! The rule of the table.
use crate::object::Object;
use crate::view::{Opening, View};
use atomic_table::TableRule;
use std::marker::PhantomData;

pub struct Law<O> {
    object: PhantomData<O>,
}

impl<O: Object> TableRule<Option<O>, View<O, O::Entry, O::Fixed>, Opening<O, O::Fixed>> for Law<O> {
    ghost use Rattle.turnstile.specs.Rule.{Turns, opening_view};

    ghost holds = { λ about. Turns O.log O.by O.mark O.fixed about.terms };

    ghost first = { λ about. opening_view (O.log about.object.value) about.terms };
}
