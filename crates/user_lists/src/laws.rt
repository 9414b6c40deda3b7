// What keeping and forgetting come to.
ghost use Rattle.user_lists.specs.Imports.{ForgettingUndoes};

/// An answer that is kept under a new id and then forgotten leaves the answers as they were.
pub fn forgetting_undoes_keeping()
    ensures { ForgettingUndoes }
{}
