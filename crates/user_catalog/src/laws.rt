//! Laws of the definitions on named graphs, each the contract of a function that does nothing.
ghost use Rattle.user_catalog.specs.Laws.{ChangesKeepCatalog, NextVersionIsNew, VersionsAscend, InsertedIsFound, RemovedIsGone, WidenedIsFound, OthersStay};

/// Each call keeps what holds of every catalog.
pub fn calls_keep_catalogs()
    ensures { ChangesKeepCatalog }
{}

/// No version is given twice: over any calls each one is greater than all before it, and than those of all graphs.
pub fn versions_are_not_given_again()
    ensures new { NextVersionIsNew }
    ensures ascend { VersionsAscend }
{}

/// What is found under a name after each call, under its own name and under every other one.
pub fn finding()
    ensures inserted { InsertedIsFound }
    ensures removed { RemovedIsGone }
    ensures widened { WidenedIsFound }
    ensures others { OthersStay }
{}
