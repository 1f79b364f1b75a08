//! Laws of how sessions come by their users, each the contract of a function that does nothing.
ghost use Rattle.std.specs.Prelude.{◌≡◌, ◌++◌, ℕ, List, Option, Some};
ghost use Rattle.std.proofs.Common.{Vec, Global};
ghost use Rattle.std.specs.Io.KnownBytes.{Consumes};
ghost use Rattle.base_core.specs.declared.name.Name.{Name};
ghost use Rattle.base_core.specs.declared.name.User.{User};
ghost use Rattle.login_core.specs.Users.{Users};
ghost use Rattle.login_core.specs.Login.{Beginning};
ghost use Rattle.lines_core.specs.Serving.{Traffic, traffic_of};
ghost use Rattle.session_core.specs.declared.admission.Admission.{Admission};
ghost use Rattle.entry_core.specs.declared.entry.Entry.TheVariants as entries;
ghost use Rattle.entry_core.specs.declared.first_step.FirstStep.TheVariants as first_steps;
ghost use Rattle.entry_core.specs.declared.last_step.LastStep.TheVariants as last_steps;
ghost use Rattle.entry_core.specs.Naming.{user_named};
ghost use Rattle.entry_core.specs.Entries.{entry_of};
ghost use Rattle.entry_core.specs.Steps.{IsFirstStep, IsLastStep};
ghost use Rattle.entry_core.specs.Proved.{HasAsked, HasClaimed, HasProved, ProvesUser, login_message, startup_message};
ghost use Rattle.entry_core.specs.Right.{HasEnteredAs};

/// Whoever is welcome at once, or has to log in, is the one who was named.
pub fn entry_is_named()
    ensures welcome { (admission : Admission) (name : Option Name) (user : User)
        → entry_of admission name ≡ entries.Welcome user
        → name ≡ Some user.0 }
    ensures login { (admission : Admission) (name : Option Name) (user : Name)
        → entry_of admission name ≡ entries.Login user
        → name ≡ Some user }
{}

/// Who is welcome at once has come by right, whatever his client has sent.
pub fn welcome_has_come()
    ensures { (admission : Admission) (name : Option Name) (traffic : Traffic) (user : User)
        → entry_of admission name ≡ entries.Welcome user
        → HasEnteredAs admission traffic user }
{}

/// A login goes on message by message, each right behind the one before: a start names a user, the next
/// message begins a login of his, and the one behind that proves who he is. Whatever is sent then keeps that, and
/// so the client of a session has proved it who has sent such bytes.
pub fn login_goes_on()
    ensures claimed { (sent : List ℕ) (parameters : List (List ℕ × List ℕ)) (user : Name)
        → user_named parameters ≡ Some user
        → HasClaimed (sent ++ startup_message parameters) user }
    ensures asked { (users : Users) (secret own sent body : List ℕ) (user : Name)
        (begun : Beginning)
        → HasClaimed sent user
        → IsFirstStep users secret own user body (first_steps.Challenged begun)
        → HasAsked users secret own (sent ++ login_message body) begun }
    ensures proved { (users : Users) (secret own sent body : List ℕ) (begun : Beginning)
        (user : User) (answer : Vec ℕ Global)
        → HasAsked users secret own sent begun
        → IsLastStep users begun body (last_steps.LoggedIn user answer)
        → ProvesUser users secret own (sent ++ login_message body) user.0 }
    ensures more { (users : Users) (secret own sent more : List ℕ) (user : Name)
        → ProvesUser users secret own sent user
        → ProvesUser users secret own (sent ++ more) user }
    ensures session { (users : Users) (secret own sent : List ℕ) (traffic : Traffic) (user : User)
        → ProvesUser users secret own sent user.0
        → Consumes traffic.left traffic.left' sent
        → HasProved users secret own traffic user }
{}

/// Who has come by right stays so, whatever his client sends then and is answered.
pub fn right_stays()
    ensures { (admission : Admission) (user : User) (more : List ℕ)
        (left left' left'' taken taken' later : Option (List ℕ))
        → HasEnteredAs admission (traffic_of left left' taken taken') user
        → Consumes left' left'' more
        → HasEnteredAs admission (traffic_of left left'' taken later) user }
{}
