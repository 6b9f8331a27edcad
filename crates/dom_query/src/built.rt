//! A selector as far as it is read.

ghost use Rattle.std.specs.Prelude.{◌≡◌, ◌≤◌, ◌∷◌, ◌++◌, [], length, OnOk, slice_range, Some, None};
ghost use Rattle.dom_query.specs.ReadingModel as spec;
ghost use Rattle.dom_query.specs.PlacesModel.{IsPlaced};

use crate::kind::Kind;
use crate::state::{Sort, Span, State};
use base_text::{Mem, Text};
use dom_semantics::{Compound, Part, TagTest};
use door::List;
use std::alloc::Global;
use std::mem;

/// The chains that are whole, the chain that is read, and of its last compound the tag and the parts.
#[derive(Drop)]
pub(crate) struct Built {
    pub(crate) chains: List<List<Compound>>,
    pub(crate) chain: List<Compound>,
    pub(crate) tag: Option<TagTest>,
    pub(crate) parts: List<Part>,
}

impl Built {
    pub(crate) fn new(alloc: Global) -> Built
        ensures { result ≡ record { chains = []; chain = []; tag = None; parts = [] } }
    {
        Built {
            chains: List::new(alloc),
            chain: List::new(alloc),
            tag: None,
            parts: List::new(alloc),
        }
    }

    fn push_part(&mut self, part: Part) -> Mem<()>
        ensures { OnOk result (self.new ≡ spec.with_part part self.old) }
    {
        self.parts.push(part)
    }

    fn push_name(&mut self, sort: Sort, name: Text) -> Mem<()>
        ensures { OnOk result (self.new ≡ spec.with_name sort name self.old) }
    {
        match sort {
            Sort::Tag => {
                self.tag = Some(TagTest::Named(name));
                Ok(())
            }
            Sort::Id => self.push_part(Part::Id(name)),
            Sort::Class => self.push_part(Part::Class(name)),
        }
    }

    /// The compound is whole.
    fn end_compound(&mut self, alloc: Global) -> Mem<()>
        ensures { OnOk result (self.new ≡ spec.end_compound self.old) }
    {
        let tag = self.tag.take();
        let parts = mem::replace(&mut self.parts, List::new(alloc));
        self.chain.push(Compound { tag, parts })
    }

    /// The chain is whole.
    pub(crate) fn end_chain(&mut self, alloc: Global) -> Mem<()>
        ensures { OnOk result (self.new ≡ spec.end_chain self.old) }
    {
        let chain = mem::replace(&mut self.chain, List::new(alloc));
        self.chains.push(chain)
    }

    /// White space or `,` behind a compound.
    fn end_at(&mut self, alloc: Global, kind: Kind) -> Mem<()>
        ensures { OnOk result (self.new ≡ spec.end_at kind self.old) }
    {
        match kind {
            Kind::Blank => self.end_compound(alloc),
            Kind::Comma => {
                self.end_compound(alloc)?;
                self.end_chain(alloc)
            }
            _ => Ok(()),
        }
    }

    fn begin(&mut self, kind: Kind)
        ensures { self.new ≡ spec.with_any kind self.old }
    {
        if let Kind::Star = kind {
            self.tag = Some(TagTest::Any);
        }
    }

    /// `,` or the next compound, behind white space.
    fn end_gap(&mut self, alloc: Global, kind: Kind) -> Mem<()>
        ensures { OnOk result (self.new ≡ spec.end_gap kind self.old) }
    {
        match kind {
            Kind::Comma => self.end_chain(alloc),
            _ => {
                self.begin(kind);
                Ok(())
            }
        }
    }

    /// What stands in or behind a name.
    fn end_name(
        &mut self,
        alloc: Global,
        text: &Text,
        sort: Sort,
        name: Span,
        kind: Kind,
    ) -> Mem<()>
        requires order { name.from ≤ name.to }
        requires within { name.to ≤ length text.now }
        ensures { OnOk result (self.new ≡ spec.end_name sort (spec.word_at text.now name) kind self.old) }
    {
        match kind {
            Kind::Name => Ok(()),
            _ => {
                self.push_name(sort, text.cut(alloc, name.from, name.to)?)?;
                self.end_at(alloc, kind)
            }
        }
    }

    /// What stands in or behind the name of an attribute.
    fn end_attribute(&mut self, alloc: Global, text: &Text, name: Span, kind: Kind) -> Mem<()>
        requires order { name.from ≤ name.to }
        requires within { name.to ≤ length text.now }
        ensures { OnOk result (self.new ≡ spec.end_part (Part.Has (spec.word_at text.now name)) kind self.old) }
    {
        match kind {
            Kind::Close => self.push_part(Part::Has(text.cut(alloc, name.from, name.to)?)),
            _ => Ok(()),
        }
    }

    /// What stands in or behind the value of an attribute.
    fn end_value(
        &mut self,
        alloc: Global,
        text: &Text,
        name: Span,
        value: Span,
        kind: Kind,
    ) -> Mem<()>
        requires name_order { name.from ≤ name.to }
        requires name_within { name.to ≤ length text.now }
        requires value_order { value.from ≤ value.to }
        requires value_within { value.to ≤ length text.now }
        ensures { OnOk result (self.new ≡ spec.end_part (Part.Is (spec.word_at text.now name) (spec.word_at text.now value)) kind self.old) }
    {
        match kind {
            Kind::Close => {
                let name = text.cut(alloc, name.from, name.to)?;
                let value = text.cut(alloc, value.from, value.to)?;
                self.push_part(Part::Is(name, value))
            }
            _ => Ok(()),
        }
    }

    /// Builds what the scalar at a place ends.
    #[tactic(auto, unfolding(crate::specs::ReadingModel::build))]
    pub(crate) fn build(
        &mut self,
        alloc: Global,
        text: &Text,
        state: State,
        at: u32,
        kind: Kind,
    ) -> Mem<()>
        requires placed { IsPlaced state at }
        requires within { at ≤ length text.now }
        ensures { OnOk result (self.new ≡ spec.build text.now state at kind self.old) }
    {
        match state {
            State::Before => {
                self.begin(kind);
                Ok(())
            }
            State::Gap => self.end_gap(alloc, kind),
            State::Name(sort, from) => self.end_name(
                alloc,
                text,
                sort,
                Span { from, to: at },
                kind,
            ),
            State::Whole => self.end_at(alloc, kind),
            State::Attribute(from) => self.end_attribute(alloc, text, Span { from, to: at }, kind),
            State::Bare(name, from) => self.end_value(
                alloc,
                text,
                name,
                Span { from, to: at },
                kind,
            ),
            State::Closing(name, value) => self.end_value(alloc, text, name, value, kind),
            State::Begun(_) | State::Opened | State::Equals(_) | State::Quoted(_, _, _) => Ok(()),
        }
    }
}
