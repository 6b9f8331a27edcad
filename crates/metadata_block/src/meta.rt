//! What a metadata block says of its userscript, and what follows of it: where the script runs and what it may use.
ghost use Rattle.std.specs.Prelude.{◌≡◌, ◌↔◌, IsTrue, IfOk};
ghost use Rattle.metadata_block.specs.Selection.{IsSelected, AnyFits, grant_set, has_grant};

use base_text::{Mem, Text};
use door::{GrantSet, List};
use std::alloc::Global;
use url_rules::{Rule, Url, fits};

/// When a userscript starts.
#[derive(Clone, Copy, Debug, PartialEq, Eq)]
pub enum RunAt {
    /// `document-start`: before any part of the page is built.
    Start,
    /// `document-end`: after DOMContentLoaded; so does a script without a `@run-at` line.
    End,
    /// `document-idle`: after load.
    Idle,
}

/// What a `@grant` line lets a userscript use (Greasemonkey manual, Metadata Block).
#[derive(Clone, Copy, Debug, PartialEq, Eq)]
pub enum Grant {
    /// `none`.
    NoGrant,
    /// `unsafeWindow`.
    UnsafeWindow,
    /// `GM_getValue`.
    GetValue,
    /// `GM_setValue`.
    SetValue,
    /// `GM_deleteValue`.
    DeleteValue,
    /// `GM_listValues`.
    ListValues,
    /// `GM_log`.
    Log,
}

/// What a metadata block says, each list in the order of the lines.
#[derive(Drop)]
pub struct Meta {
    /// The value of the last `@name` line. `read_block` gives none that is empty.
    pub name: Text,
    /// The value of the last `@namespace` line, empty where there is none.
    pub namespace: Text,
    /// The value of the last `@run-at` line, `End` where there is none.
    pub run_at: RunAt,
    /// The values of the `@grant` lines.
    pub grants: List<Grant>,
    /// The values of the `@include` lines.
    pub includes: List<Rule>,
    /// The values of the `@exclude` lines.
    pub excludes: List<Rule>,
    /// The values of the `@match` lines.
    pub matches: List<Rule>,
    /// Key and value of each other line. They are kept, and not used.
    pub others: List<(Text, Text)>,
}

/// Whether a rule of the list fits.
fn any_fits(alloc: Global, rules: &[Rule], address: &Url) -> Mem<bool>
    ensures { IfOk result (λ b. IsTrue b ↔ AnyFits rules.now address.now) }
{
    for rule in rules {
        if fits(alloc, rule, address)? {
            return Ok(true);
        }
    }
    Ok(false)
}

/// Whether the userscript runs on the address: no exclude fits, and some include or match fits or there is neither.
pub fn selects(alloc: Global, meta: &Meta, address: &Url) -> Mem<bool>
    ensures { IfOk result (λ b. IsTrue b ↔ IsSelected meta.now address.now) }
{
    if any_fits(alloc, meta.excludes.as_slice(), address)? {
        return Ok(false);
    }
    if meta.includes.as_slice().is_empty() && meta.matches.as_slice().is_empty() {
        return Ok(true);
    }
    if any_fits(alloc, meta.includes.as_slice(), address)? {
        return Ok(true);
    }
    any_fits(alloc, meta.matches.as_slice(), address)
}

/// Whether the list has a grant.
fn has(grants: &[Grant], grant: Grant) -> bool
    ensures { result ≡ has_grant grants.now grant }
{
    for g in grants {
        if *g == grant {
            return true;
        }
    }
    false
}

/// The set of the grants of the userscript.
pub fn grants(meta: &Meta) -> GrantSet
    ensures { result ≡ grant_set meta.now.grants }
{
    let list = meta.grants.as_slice();
    GrantSet {
        no_grant: has(list, Grant::NoGrant),
        unsafe_window: has(list, Grant::UnsafeWindow),
        get_value: has(list, Grant::GetValue),
        set_value: has(list, Grant::SetValue),
        delete_value: has(list, Grant::DeleteValue),
        list_values: has(list, Grant::ListValues),
        log: has(list, Grant::Log),
    }
}
