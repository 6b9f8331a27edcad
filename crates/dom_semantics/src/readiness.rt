//! The document's readiness (HTML, 3.1.1 The Document object: current document readiness).

/// How far the document is.
#[derive(Clone, Copy, Debug, PartialEq, Eq)]
pub enum Readiness {
    Loading,
    Interactive,
    Complete,
}
