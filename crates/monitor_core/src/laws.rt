//! Laws of the verdict, each the contract of a function that does nothing.
ghost use Rattle.std.specs.Prelude.{◌≡◌, Err};
ghost use Rattle.base_core.specs.declared.name.User.{User};
ghost use Rattle.base_core.specs.declared.lack.Lack.{Lack};
ghost use Rattle.reader_core.specs.declared.statement.Statement.{Statement};
ghost use Rattle.monitor_core.specs.Verdict.{State, verdict};

/// No verdict is that memory was refused.
pub fn never_no_memory()
    ensures { (at : State) (user : User) (asked : Statement)
        → verdict at user asked ≡ Err Lack.NoMemory
        → ⊥ }
{}
