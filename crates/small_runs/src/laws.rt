//! Laws over the definitions, as the contracts of functions that do nothing.

ghost use Rattle.std.specs.Prelude.{◌≡◌, List, ℕ, Option, map, true};
ghost use Rattle.dom_semantics.specs.declared.selectors.Compound.{Compound};
ghost use Rattle.dom_semantics.specs.StageOf.{stage_of};
ghost use Rattle.door.specs.declared.marks.Mark.{Mark};
ghost use Rattle.small_eval.specs.Pieces.{pieces_of};
ghost use Rattle.small_forms.specs.Pages.{IsPage};
ghost use Rattle.small_forms.specs.declared.page.Page.{Page};
ghost use Rattle.small_forms.specs.declared.userscript.Userscript.{Userscript};
ghost use Rattle.small_runs.specs.SmallGiven.{AllActsAreSolo, AllActsAreSoloSoFar, IsSmall, given_of, input_of, piece_given};
ghost use Rattle.solo_model.specs.Given.{IsGiven, are_cut, setting_of};
ghost use Rattle.solo_model.specs.Lawful.{IsLawful, IsLawfulSoFar, Piece};
ghost use Rattle.solo_model.specs.Right.{IsRight, IsRightSoFar};
ghost use Rattle.solo_model.specs.Stage.{stage_of as small_stage_of};
ghost use Rattle.solo_model.specs.Truth.{IsGenuine};

use small_scripts::{page_scripts_spell_their_lines, userscripts_spell_their_lines};
use solo_model::entries_go_on_one_way;

/// What a small run is given is in order.
pub fn small_givens_are_given()
    ensures { (address : List ℕ) (pieces : List Piece) (scripts : List Userscript) (read : List ℕ → Option (List (List Compound)))
        → IsSmall address scripts read → are_cut (map piece_given pieces) ≡ true → IsGiven (given_of address pieces scripts read) }
{}

/// A whole run of a page and userscripts of the small forms whose journal was right is right by the whole definitions.
pub fn small_runs_are_right()
    ensures { (address bytes : List ℕ) (page : Page) (scripts : List Userscript) (read : List ℕ → Option (List (List Compound))) (marks : List Mark)
        → IsSmall address scripts read → IsPage bytes page
        → IsLawful (input_of (pieces_of page) scripts) marks → IsGenuine marks → AllActsAreSolo address marks
        → IsRight (given_of address (pieces_of page) scripts read) marks }
{
    entries_go_on_one_way();
    page_scripts_spell_their_lines();
    userscripts_spell_their_lines();
}

/// The document at its end is the same by both definitions.
pub fn small_runs_have_one_document()
    ensures { (address bytes : List ℕ) (page : Page) (scripts : List Userscript) (read : List ℕ → Option (List (List Compound))) (marks : List Mark)
        → IsSmall address scripts read → IsPage bytes page
        → IsLawful (input_of (pieces_of page) scripts) marks → IsGenuine marks → AllActsAreSolo address marks
        → (stage_of (setting_of (given_of address (pieces_of page) scripts read) marks) marks).nodes ≡ (small_stage_of marks).nodes }
{
    entries_go_on_one_way();
    page_scripts_spell_their_lines();
    userscripts_spell_their_lines();
}

/// A run that was cut off and was right so far is right so far by the whole definitions.
pub fn small_runs_are_right_so_far()
    ensures { (address bytes : List ℕ) (page : Page) (scripts : List Userscript) (read : List ℕ → Option (List (List Compound))) (marks : List Mark)
        → IsSmall address scripts read → IsPage bytes page
        → IsLawfulSoFar (input_of (pieces_of page) scripts) marks → IsGenuine marks → AllActsAreSoloSoFar address marks
        → IsRightSoFar (given_of address (pieces_of page) scripts read) marks }
{
    entries_go_on_one_way();
    page_scripts_spell_their_lines();
    userscripts_spell_their_lines();
}
