//! The zones that actors live in, by which alone it is settled how one sees another.

ghost use Rattle.std.specs.Prelude.{◌≢◌, Bool};
ghost use Rattle.door.specs.Looks.{look_of};
ghost use Rattle.door.specs.declared.values.Look.TheVariants.{Waived};
ghost use Rattle.door.specs.declared.zones.Zone.{Zone as AnyZone};

/// What kind of actor one is.
#[derive(Clone, Copy, Debug, PartialEq, Eq)]
pub enum Zone {
    /// The host itself.
    Host,
    /// The page.
    Page,
    /// A userscript in a sandbox, which sees the page through Xrays.
    XrayScript,
    /// A userscript whose metadata says `@grant none`, which runs among the page's own scripts.
    PlainScript,
}

/// The law that no two zones alone make a look Waived: only what a userscript itself waives is.
pub fn looks_are_never_waived()
    ensures { (reader target : AnyZone) (same_actor : Bool) → look_of reader target same_actor ≢ Waived }
{}
