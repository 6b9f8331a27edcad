//! Laws over the definitions, as the contracts of functions that do nothing.

ghost use Rattle.std.specs.Prelude.{◌≤◌, List};
ghost use Rattle.js_semantics.specs.Entries.{beginning as language_beginning, enters as language_enters};
ghost use Rattle.js_semantics.specs.Intrinsics.{Setup};
ghost use Rattle.small_meaning.specs.Shows.{AreFit, MayRun, entries_in};
ghost use Rattle.small_meaning.specs.Rows.{beginning, enters};
ghost use Rattle.solo_model.specs.Solo.{Deed, IsSoloFrom, Show};

/// What the machine of the small forms does by itself, the machine of the language does by itself: of a set-up that
/// runs small scripts, where each show fits and at most 1,000 entries are made. Each entry makes at most one cell, for
/// an error that nothing catches, so the room for cells doesn't end.
pub fn small_solos_are_solos()
    ensures { (setup : Setup) (shows : List Show) (deeds : List Deed) → MayRun setup.zone setup.grants → AreFit setup.zone shows → entries_in shows ≤ 1000
        → IsSoloFrom (enters setup) beginning shows deeds
        → IsSoloFrom language_enters (language_beginning setup) shows deeds }
{}
