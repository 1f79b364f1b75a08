//! Pruning by recursion, from grantee to grantee.
ghost use Rattle.std.specs.Prelude.{◌≡◌, ◌≤◌, Bool, ◌||◌, true, false, IfSome, IfNone};
ghost use Rattle.links_core.specs.Links.{comes_from, count_at};
ghost use Rattle.links_core.specs.Lists.{HasItem};
ghost use Rattle.links_core.specs.declared.link.Link.{Link as link};
ghost use Rattle.graph_core.specs.Pruning.{is_link_supported, SupportedBut, IsSettled, Falls, AreInOrder};

use links_core::{Link, Links};

// Whether the owner made the link, or a link supports it.
fn is_supported(links: &Links, owner: Option<usize>, link: &Link) -> bool
    ensures { result ≡ is_link_supported owner links.now.links link.now }
{
    owner == Some(link.grantor) || links.any_earlier_option_to(link.grantor, link.atom, link.moment)
}

// The user's first link of the privilege, if nothing supports it any more. If it is still
// supported, so are his later ones, and the answer is None.
fn first_lost(links: &Links, owner: Option<usize>, user: usize, atom: usize) -> Option<Link>
    requires { AreInOrder links.now.links }
    ensures found { IfSome result (λ l. HasItem l links.now.links) }
    ensures made { IfSome result (λ l. comes_from user atom l ≡ true) }
    ensures lost { IfSome result (λ l. is_link_supported owner links.now.links l ≡ false) }
    ensures none { IfNone result (IsSettled owner links.now.links user atom) }
{
    let Some(first) = links.first_from(user, atom) else {
        return None;
    };
    if is_supported(links, owner, &first) {
        return None;
    }
    Some(first)
}

/// Takes out the links of the privilege that the user made and that have lost their support, and
/// what falls with them. The owner is that of the privilege's table, if he has an index. It calls
/// itself at most as deep as there are links of the privilege.
pub fn prune(links: &mut Links, owner: Option<usize>, user: usize, atom: usize)
    requires { AreInOrder links.old.links }
    ensures in_order { AreInOrder links.new.links }
    ensures next { links.new.next ≡ links.old.next }
    ensures rest { links.new.rest ≡ links.old.rest }
    ensures fewer { count_at atom links.new.links ≤ count_at atom links.old.links }
    ensures falls { Falls owner atom links.old.links links.new.links }
    ensures settles { (excused : link → Bool)
        → SupportedBut owner links.old.links (λ l. excused l || comes_from user atom l)
        → SupportedBut owner links.new.links excused }
{
    while let Some(lost) = first_lost(links, owner, user, atom) {
        links.take_out(&lost);
        prune(links, owner, lost.grantee, atom);
    }
}
