//! What a userscript may use beyond the page, as the `@grant` lines of its metadata say.

/// The grants of a userscript, one flag each (Greasemonkey manual, Metadata Block).
#[derive(Clone, Copy, Debug, PartialEq, Eq)]
pub struct GrantSet {
    /// `none`.
    pub no_grant: bool,
    /// `unsafeWindow`.
    pub unsafe_window: bool,
    /// `GM_getValue`.
    pub get_value: bool,
    /// `GM_setValue`.
    pub set_value: bool,
    /// `GM_deleteValue`.
    pub delete_value: bool,
    /// `GM_listValues`.
    pub list_values: bool,
    /// `GM_log`.
    pub log: bool,
}
