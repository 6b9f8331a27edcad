//! What the page grammar says by itself: some pages and faults, and that each part has one reading.

ghost use Rattle.std.specs.Prelude.{◌≡◌, ℕ, Bool, List};
ghost use Rattle.page_text.specs.PageFacts as facts;
ghost use Rattle.page_text.specs.PageGrammar as grammar;
ghost use Rattle.page_text.specs.PageNodes as tree;
ghost use Rattle.page_text.specs.PageSpelling as spelling;
ghost use Rattle.page_text.specs.PageTags as tags;

/// Pages and what they spell, and pages' first faults.
pub fn some_pages_are_spelled_so()
    ensures pages { facts.ArePages }
    ensures faults { facts.AreFaults }
{}

/// Bytes are read in one way, and so are an attribute, a tag, a comment and a doctype at the front of
/// a text, with what follows it, the nodes up to an end tag, and a whole document.
pub fn parts_of_a_page_have_one_reading()
    ensures bytes { (entities : Bool) (raw read other : List ℕ) → spelling.IsRead entities raw read → spelling.IsRead entities raw other → read ≡ other }
    ensures attribute { (text rest last : List ℕ) (a b : tags.ReadAttribute) → tags.IsAttribute text a rest → tags.IsAttribute text b last → (a ≡ b) × (rest ≡ last) }
    ensures start_tag { (text rest last : List ℕ) (t u : tags.StartTag) → tags.IsStartTag text t rest → tags.IsStartTag text u last → (t ≡ u) × (rest ≡ last) }
    ensures end_tag { (text name other rest last : List ℕ) → tags.IsEndTag text name rest → tags.IsEndTag text other last → (name ≡ other) × (rest ≡ last) }
    ensures comment { (text content other rest last : List ℕ) → tags.IsComment text content rest → tags.IsComment text other last → (content ≡ other) × (rest ≡ last) }
    ensures doctype { (text rest last : List ℕ) → tags.IsDoctype text rest → tags.IsDoctype text last → rest ≡ last }
    ensures nodes { (depth number : ℕ) (text rest last name other behind later : List ℕ) (read others : tree.Nodes) → grammar.IsNodes depth number text read rest → tags.IsEndTag rest name behind → grammar.IsNodes depth number text others last → tags.IsEndTag last other later → (read ≡ others) × (rest ≡ last) }
    ensures document { (text : List ℕ) (read others : tree.Nodes) → grammar.IsDocument text read → grammar.IsDocument text others → read ≡ others }
{}
