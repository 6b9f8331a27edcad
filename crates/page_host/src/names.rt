//! The names of a folder's files: which are userscripts, in which order, and how many there may be.

ghost use Rattle.page_host.specs.Names.{AreScriptsOf, is_events, is_userscript, counted};
ghost use Rattle.std.specs.Prelude.{◌≡◌, map};
ghost use Rattle.std.specs.List.{list_any};
ghost use Rattle.std.specs.String.{string_bytes};

/// Whether the list of user events is among the names.
pub fn has_events(names: &[String]) -> bool
    ensures { result ≡ list_any is_events (map string_bytes names.now) }
{
    for name in names {
        if name.as_str() == "events.txt" {
            return true;
        }
    }
    false
}

fn is_script(name: &str) -> bool
    ensures { result ≡ is_userscript name.now }
{
    name.as_bytes().ends_with(b".user.js")
}

/// The names of userscripts among these, each once, in byte order.
pub fn script_names(mut names: Vec<String>) -> Vec<String>
    ensures { AreScriptsOf (map string_bytes names.items) (map string_bytes result.items) }
{
    names.retain(|name| is_script(name.as_str()));
    names.sort_unstable();
    names.dedup();
    names
}

/// The number of names that a fault tells.
pub fn counted(scripts: &[String]) -> u32
    ensures { result ≡ counted (map string_bytes scripts.now) }
{
    match u32::try_from(scripts.len()) {
        Ok(count) => count,
        Err(_) => u32::MAX,
    }
}
