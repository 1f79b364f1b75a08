//! Laws of what is owed, the contracts of empty functions.
ghost use Rattle.std.specs.Prelude.{◌≡◌, ◌↔◌, [], ℕ, List};
ghost use Rattle.sending_core.specs.Owing.{IsOwed, Lefts, Owes};
ghost use Rattle.sending_core.specs.declared.item.Item.{Item};

/// Whatever is to be sent, and whatever portals have left, something may be written of it. So what
/// [`Sending::go_on`](crate::Sending::go_on) says of whatever may still be written is never said of nothing.
pub fn something_is_owed()
    ensures { (queue : List Item) (lefts : Lefts) → (text : List ℕ) × IsOwed queue lefts text }
{}

/// Where nothing is to be sent, nothing may be written, and the portals keep what they have.
pub fn nothing_is_owed()
    ensures { (text : List ℕ) (before behind : Lefts)
        → Owes [] before text behind ↔ ((text ≡ []) × (behind ≡ before)) }
{}
