//! Laws over the definitions, as the contracts of functions that do nothing.

ghost use Rattle.std.specs.Prelude.{◌≤◌, Contains, List, length, ℕ};
ghost use Rattle.base_text.specs.declared.text.TheConstants.{TEXT_LIMIT};
ghost use Rattle.door.specs.declared.zones.Zone.TheVariants.{Page, XrayScript};
ghost use Rattle.small_forms.specs.Pages.{IsPage, texts_of_scripts};
ghost use Rattle.small_forms.specs.Scripts.{IsPageScript, IsUserscript};
ghost use Rattle.small_forms.specs.declared.page.Page.{Page as OnePage};
ghost use Rattle.small_forms.specs.declared.script.Line.{Line};
ghost use Rattle.js_semantics.specs.Entries.{Spells};
ghost use Rattle.small_scripts.specs.Trees.{body_of};

/// The text of a page's script spells its lines as statements, where it isn't longer than a text may be: a longer
/// one may have a quoted text that is too long for a token.
pub fn page_scripts_spell_their_lines()
    ensures { (text : List ℕ) (lines : List Line) → IsPageScript text lines
        → length text ≤ TEXT_LIMIT → Spells text (body_of Page lines) }
{}

/// Each script of a page is short enough, so it spells its lines as statements.
pub fn scripts_of_pages_spell_their_lines()
    ensures { (bytes : List ℕ) (page : OnePage) (text : List ℕ) (lines : List Line) → IsPage bytes page
        → Contains (texts_of_scripts page.scripts) text → IsPageScript text lines → Spells text (body_of Page lines) }
{}

/// The text of a userscript spells its lines as statements: its metadata block is comments.
pub fn userscripts_spell_their_lines()
    ensures { (text name : List ℕ) (lines : List Line) → IsUserscript text name lines
        → Spells text (body_of XrayScript lines) }
{}
