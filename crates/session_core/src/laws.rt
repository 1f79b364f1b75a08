//! Laws of sessions, each the contract of a function that does nothing.
ghost use Rattle.std.specs.Prelude.{◌≡◌, ℕ, List, Option, Some, Result, Ok, Err, true};
ghost use Rattle.base_core.specs.declared.name.User.{User};
ghost use Rattle.std.specs.Io.KnownBytes.{Appends};
ghost use Rattle.reply_core.specs.Pending.{TellsPending};
ghost use Rattle.lines_core.specs.Serving.{Traffic, traffic_of};
ghost use Rattle.lines_core.specs.declared.serving.SessionFault.{SessionFault};
ghost use Rattle.lines_core.specs.declared.serving.SessionFault.TheVariants as faults;
ghost use Rattle.desk_core.specs.Guarded.{DeskLock, DeskPass};
ghost use Rattle.session_core.specs.declared.admission.Admission.{Admission};
ghost use Rattle.session_core.specs.declared.summary.Summary.{Summary};
ghost use Rattle.session_core.specs.Session.{EndsSession};
ghost use Rattle.session_core.specs.LoggedIn.{HasComeAs};
ghost use Rattle.session_core.specs.Parking.{ParkedState, HasCome, HasEnded};

use journal_core::Keeper;

/// Whose session it is has come by right. Where he had to log in, he has shown by a message of the
/// session that he is that user, by what is kept of him; and the message before it has begun that
/// very login, with the server's own nonce.
pub fn user_has_come<K: Keeper + Drop>()
    ensures { (admission : Admission) (desk : DeskLock K) (summary : Summary)
        (old new : DeskPass K) (traffic : Traffic) (user : User)
        → EndsSession desk admission summary old new traffic
        → summary.user ≡ Some user
        → HasComeAs admission traffic user }
{}

/// The same of a session that was parked between its pieces, wherever it ends.
pub fn parked_user_has_come<K: Keeper + Drop>()
    ensures { (admission : Admission) (desk : DeskLock K) (parked : ParkedState K)
        (ending : Result (Unit {0}) SessionFault) (traffic : Traffic) (user : User)
        → HasEnded desk admission parked ending traffic
        → parked.user ≡ Some user
        → HasComeAs admission traffic user }
{}

/// A parked session may end wherever its client stops: over, by a fault of the reader, or where as much
/// was read as may be. Its whole lines are then answered, once what is owed is written. Where its client
/// does not take that, what was written is a front of the answers.
pub fn parked_session_ends<K: Keeper + Drop>()
    ensures over { (admission : Admission) (desk : DeskLock K) (parked : ParkedState K)
        (left left' taken taken' later : Option (List ℕ)) (rest : List ℕ)
        → HasCome desk admission parked (traffic_of left left' taken taken')
        → TellsPending parked.owed rest
        → Appends taken' later rest
        → parked.over ≡ true
        → HasEnded desk admission parked (Ok tt) (traffic_of left left' taken later) }
    ensures read { (admission : Admission) (desk : DeskLock K) (parked : ParkedState K)
        (left left' taken taken' later : Option (List ℕ)) (rest : List ℕ)
        → HasCome desk admission parked (traffic_of left left' taken taken')
        → TellsPending parked.owed rest
        → Appends taken' later rest
        → HasEnded desk admission parked (Err faults.Read) (traffic_of left left' taken later) }
    ensures bound { (admission : Admission) (desk : DeskLock K) (parked : ParkedState K)
        (left left' taken taken' later : Option (List ℕ)) (rest : List ℕ)
        → HasCome desk admission parked (traffic_of left left' taken taken')
        → TellsPending parked.owed rest
        → Appends taken' later rest
        → parked.feeding.unread ≡ 0
        → HasEnded desk admission parked (Err faults.Bound) (traffic_of left left' taken later) }
    ensures write { (admission : Admission) (desk : DeskLock K) (parked : ParkedState K)
        (left left' taken taken' : Option (List ℕ))
        → HasCome desk admission parked (traffic_of left left' taken taken')
        → HasEnded desk admission parked (Err faults.Write) (traffic_of left left' taken taken') }
{}
