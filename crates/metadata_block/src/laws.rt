//! Laws about blocks, as the contracts of functions that do nothing else.
ghost use Rattle.std.specs.Prelude.{◌≡◌, ◌≢◌, ℕ, List, Result, Err};
ghost use Rattle.metadata_block.specs.Block.{ReadsBlock, HasFault};
ghost use Rattle.metadata_block.specs.Lines.{ReadsPairs};
ghost use Rattle.metadata_block.specs.Same.{SameMeta};
ghost use Rattle.metadata_block.specs.Selection.{IsSelected};
ghost use Rattle.metadata_block.specs.declared.block.MetaFault.{MetaFault};
ghost use Rattle.metadata_block.specs.declared.lines.BlockFault.{BlockFault};
ghost use Rattle.metadata_block.specs.declared.lines.BlockFault.TheVariants as block;
ghost use Rattle.metadata_block.specs.declared.lines.Pair.{Pair};
ghost use Rattle.metadata_block.specs.declared.meta.Meta.{Meta};

use url_rules::{Url, rules_are_read_one_way, same_rules_fit_alike};

/// The block of a userscript gives one list of pairs at most, and a userscript whose block gives one has no fault that it has no
/// block or no end; of these two faults it has one at most.
pub fn blocks_are_read_one_way()
    ensures { (s : List ℕ) (one other : Result (List Pair) BlockFault) → one ≢ Err block.NoMemory → other ≢ Err block.NoMemory
        → ReadsPairs s one → ReadsPairs s other → one ≡ other }
{}

/// A userscript's block says one thing at most, a userscript has one fault at most, and none has both, but for faults whose
/// cause is memory or the size of a regular expression.
pub fn a_block_has_at_most_one_answer()
    ensures one { (s : List ℕ) (m n : Meta) → ReadsBlock s m → ReadsBlock s n → SameMeta m n }
    ensures one_fault { (s : List ℕ) (f g : MetaFault) → HasFault s f → HasFault s g → f ≡ g }
    ensures not_both { (s : List ℕ) (m : Meta) (f : MetaFault) → ReadsBlock s m → HasFault s f → ⊥ }
{
    rules_are_read_one_way();
}

/// Blocks that say the same select the same addresses.
pub fn same_blocks_select_alike(address: &Url)
    ensures { (m n : Meta) → SameMeta m n → IsSelected m address.now → IsSelected n address.now }
{
    same_rules_fit_alike(address);
}
