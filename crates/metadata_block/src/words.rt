//! The words of a block that mean something: keys, moments of the start, grants.
ghost use Rattle.std.specs.Prelude.{◌≡◌, MatchOption};
ghost use Rattle.metadata_block.specs.Block.{key_text, run_at_text, grant_text};

use crate::meta::{Grant, RunAt};

/// A key that is used.
#[derive(Clone, Copy, Debug, PartialEq, Eq)]
pub(crate) enum Key {
    /// `@name`.
    Name,
    /// `@namespace`.
    Namespace,
    /// `@run-at`.
    RunAt,
    /// `@grant`.
    Grant,
    /// `@include`.
    Include,
    /// `@exclude`.
    Exclude,
    /// `@match`.
    Match,
}

/// The used key that a text is.
pub(crate) fn key_of(s: &str) -> Option<Key>
    ensures { MatchOption result ((u : Key) → s.now ≡ key_text u → ⊥) (λ u. s.now ≡ key_text u) }
{
    match s {
        "name" => Some(Key::Name),
        "namespace" => Some(Key::Namespace),
        "run-at" => Some(Key::RunAt),
        "grant" => Some(Key::Grant),
        "include" => Some(Key::Include),
        "exclude" => Some(Key::Exclude),
        "match" => Some(Key::Match),
        _ => None,
    }
}

/// The moment that a text names.
pub(crate) fn run_at_of(s: &str) -> Option<RunAt>
    ensures { MatchOption result ((r : RunAt) → s.now ≡ run_at_text r → ⊥)
        (λ r. s.now ≡ run_at_text r) }
{
    match s {
        "document-start" => Some(RunAt::Start),
        "document-end" => Some(RunAt::End),
        "document-idle" => Some(RunAt::Idle),
        _ => None,
    }
}

/// The grant that a text names.
pub(crate) fn grant_of(s: &str) -> Option<Grant>
    ensures { MatchOption result ((g : Grant) → s.now ≡ grant_text g → ⊥)
        (λ g. s.now ≡ grant_text g) }
{
    match s {
        "none" => Some(Grant::NoGrant),
        "unsafeWindow" => Some(Grant::UnsafeWindow),
        "GM_getValue" => Some(Grant::GetValue),
        "GM_setValue" => Some(Grant::SetValue),
        "GM_deleteValue" => Some(Grant::DeleteValue),
        "GM_listValues" => Some(Grant::ListValues),
        "GM_log" => Some(Grant::Log),
        _ => None,
    }
}
