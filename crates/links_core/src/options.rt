//! Options taken off the links that some ends stand for.
ghost use Rattle.std.specs.Prelude.{◌≡◌, ◌∷◌, [], map};
ghost use Rattle.links_core.specs.Links.{Rises, is_listed_by, link_off, links_in, numbered_as};

use crate::end::End;
use crate::link::Link;
use copyup_core::Store;

// Takes the option off the link, if the user made it.
fn take_option(store: &mut Store<Link>, end: &End, by: usize)
    requires own { store.old.contents ≡ numbered_as (links_in store.old.contents) }
    requires rising { Rises (links_in store.old.contents) }
    ensures contents { store.new.contents
        ≡ numbered_as
        (map (link_off (is_listed_by by (end.now ∷ []))) (links_in store.old.contents)) }
    ensures next { store.new.next ≡ store.old.next }
    ensures rest { store.new.rest ≡ store.old.rest }
{
    let Some(mut link) = store.get(end.number).copied() else {
        return;
    };
    if link.option && link.grantor == by {
        link.option = false;
        // The store has a link of this number, so that it is replaced.
        let _ = store.replace(end.number, link);
    }
}

/// Takes the option off those of the links that the user made. It takes no memory.
pub fn take_options(store: &mut Store<Link>, ends: &[End], by: usize)
    requires own { store.old.contents ≡ numbered_as (links_in store.old.contents) }
    requires rising { Rises (links_in store.old.contents) }
    ensures contents { store.new.contents
        ≡ numbered_as (map (link_off (is_listed_by by ends.now)) (links_in store.old.contents)) }
    ensures next { store.new.next ≡ store.old.next }
    ensures rest { store.new.rest ≡ store.old.rest }
{
    for end in ends {
        take_option(store, end, by);
    }
}
