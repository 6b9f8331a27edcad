//! Laws over the definitions, as the contracts of functions that do nothing.
ghost use Rattle.dom_semantics.specs.Stores as stage;
ghost use Rattle.dom_semantics.specs.declared.kept.Kept.{Kept};
ghost use Rattle.dom_semantics.specs.declared.kept.Owner.{Owner};
ghost use Rattle.dom_semantics.specs.declared.kept.TheConstants.{VALUE_LIMIT};
ghost use Rattle.door.specs.declared.requests.ErrorKind.TheVariants.{Limit};
ghost use Rattle.gm_store.specs.Maps.{Maps, KeepTheSame, value_at, with_value, without_value};
ghost use Rattle.gm_store.specs.OnStage.{KeepsOnStage, kept_for, deleted};
ghost use Rattle.gm_store.specs.Stored.{IsStored, Loads, IsRefused};
ghost use Rattle.gm_store.specs.Written.{stored_data, stored_text};
ghost use Rattle.gm_store.specs.declared.stores.StoreKind.{StoreKind};
ghost use Rattle.std.specs.FinMap as map;
ghost use Rattle.std.specs.Prelude.{◌≡◌, ◌≤◌, ◌↔◌, List, [], ℕ, Some, None};

use crate::stores::Stores;

/// A text has one family of maps at most, or one fault at most, and never both, so what a load answers
/// excludes every other answer but want of memory.
pub fn stored_texts_are_read_one_way()
    ensures one { (bytes : List ℕ) (m n : Maps) → Loads bytes m → Loads bytes n → m ≡ n }
    ensures one_fault { (bytes : List ℕ) (f g : StoreKind) → IsRefused bytes f → IsRefused bytes g → f ≡ g }
    ensures not_both { (bytes : List ℕ) (m : Maps) (f : StoreKind) → Loads bytes m → IsRefused bytes f → ⊥ }
{}

/// The JSON value that the stores are written as is of the stored form, and each script has the same
/// values in its maps.
pub fn written_texts_load_as_the_same_maps(stores: &Stores)
    ensures some { (m : Maps) × IsStored (stored_data stores.now) m }
    ensures same { (m : Maps) → IsStored (stored_data stores.now) m → KeepTheSame m stores.now }
{
    let _ = &stores.scripts;
}

/// Stores in which each script has the same values have one text, whatever was set, deleted or loaded
/// before.
pub fn stores_that_keep_the_same_have_one_text()
    ensures { (m n : Maps) → KeepTheSame m n → stored_text m ≡ stored_text n }
{}

/// Values are kept as on the stage of a run: maps and stage that keep the same answer the same of a
/// name and of all names, refuse the same new names, and keep the same after a value is set or deleted.
pub fn maps_are_kept_as_on_the_stage()
    ensures new { KeepsOnStage map.empty [] }
    ensures get { (m : Maps) (stores : stage.Stores) (owner : Owner) (key : List ℕ) → KeepsOnStage m stores
        → stage.value_in key (stage.values_of stores owner) ≡ value_at m owner.namespace owner.name key }
    ensures names { (m : Maps) (stores : stage.Stores) (owner : Owner) → KeepsOnStage m stores
        → stage.keys_in (stage.values_of stores owner) ≡ map.keys (kept_for m owner) }
    ensures limit { (m : Maps) (stores : stage.Stores) (owner : Owner) (key : List ℕ) → KeepsOnStage m stores
        → (stage.value_refusal (stage.values_of stores owner) key ≡ Some Limit)
        ↔ ((value_at m owner.namespace owner.name key ≡ None) × (VALUE_LIMIT ≤ map.len (kept_for m owner))) }
    ensures set { (m : Maps) (stores : stage.Stores) (owner : Owner) (key : List ℕ) (v : Kept) → KeepsOnStage m stores
        → KeepsOnStage (with_value m owner.namespace owner.name key v)
        (stage.with_values stores owner (stage.with_value key v (stage.values_of stores owner))) }
    ensures delete { (m : Maps) (stores : stage.Stores) (owner : Owner) (key : List ℕ) → KeepsOnStage m stores
        → KeepsOnStage (without_value m owner.namespace owner.name key) (deleted stores owner key) }
{}
