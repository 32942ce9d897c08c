//! What shows so far.
ghost use Rattle.std.specs.Prelude.{◌≡◌, IfOk, OnOk};
ghost use Rattle.wap_cardrules.specs.Content.{words};
ghost use Rattle.wap_cardrules.specs.Flow.{followed_by, with_field, with_mode, mode_of};
ghost use Rattle.wap_cardrules.specs.Flow.{flow_behind, begun, shown_with, nothing_shown};
ghost use Rattle.wap_cards.specs.flow.inside.Modes.{paragraph_mode};

use crate::flow::elements::{add_before, add_edge};
use crate::flow::fields::add_field;
use crate::{fill, is_field, is_word, plain_value};
use std::alloc::Global;
use std::marker::Model;
use wap_base::{NoMemory, Rows};
use wap_deck::good::{AttrName, Run, Tag, View};
use wap_layout::Flow;
use wap_vars::Vars;

/// How many fields began, whether the last paragraph is not wrapped, and the flow. A contract sees
/// these as the definition has them.
#[derive(Drop)]
pub struct Shown {
    fields: u64,
    is_nowrap: bool,
    flow: Rows<Flow>,
}

impl Model for Shown {
    ghost use Rattle.wap_cardrules.specs.Flow.{Shown as Told};
    ghost use Rattle.wap_cards.specs.flow.inside.Modes.{paragraph_mode};

    ghost Value = { Told };

    ghost view = { λ shown. record {
      fields = shown.fields;
      mode = paragraph_mode shown.is_nowrap;
      flow = shown.flow;
    } };
}

/// The mode of a paragraph.
fn paragraph_mode(is_nowrap: bool) -> Flow
    ensures { result ≡ paragraph_mode is_nowrap }
{
    if is_nowrap { Flow::NoWrap } else { Flow::Wrap }
}

/// Whether a paragraph is not wrapped; without a mode it goes on as the one before it.
fn is_nowrap(alloc: Global, before: bool, paragraph: &View<'_>) -> Result<bool, NoMemory>
    ensures { IfOk result (λ is_so. paragraph_mode is_so
        ≡ mode_of (paragraph_mode before) paragraph.now) }
{
    match plain_value(alloc, paragraph, AttrName::Mode)? {
        Some(mode) => Ok(is_word(Some(&mode), "nowrap")),
        None => Ok(before),
    }
}

impl Shown {
    /// Nothing; what comes is wrapped at first.
    pub fn new(alloc: Global) -> Shown
        ensures { result ≡ nothing_shown }
    {
        Shown {
            fields: 0,
            is_nowrap: false,
            flow: Rows::new(alloc),
        }
    }

    /// The flow, which takes no memory.
    pub fn into_flow(self) -> Rows<Flow>
        ensures { result ≡ self.flow }
    {
        let Shown { flow, .. } = self;
        flow
    }

    /// Takes a field.
    fn take_field(&mut self, alloc: Global, vars: &Vars, field: &View<'_>) -> Result<(), NoMemory>
        ensures { OnOk result (self.new ≡ with_field vars.now self.old field.now) }
    {
        // More fields than this counts don't fit in memory.
        let Some(number) = self.fields.checked_add(1) else {
            return Err(NoMemory);
        };
        self.fields = number;
        add_field(alloc, vars, number, field, &mut self.flow)
    }

    /// Takes the mode of a paragraph.
    fn take_mode(&mut self, alloc: Global, paragraph: &View<'_>) -> Result<(), NoMemory>
        ensures { OnOk result
            (self.new ≡ with_mode self.old (mode_of self.old.mode paragraph.now)) }
    {
        self.is_nowrap = is_nowrap(alloc, self.is_nowrap, paragraph)?;
        self.flow.add(paragraph_mode(self.is_nowrap))
    }

    /// Takes a text.
    pub fn add_words(&mut self, alloc: Global, vars: &Vars, text: Run<'_>) -> Result<(), NoMemory>
        ensures { OnOk result (self.new ≡ shown_with vars.now self.old (words text.entry)) }
    {
        self.flow.add(Flow::Words(fill(alloc, vars, text)?))
    }

    /// Takes an element that begins.
    pub fn begin(&mut self, alloc: Global, vars: &Vars, node: &View<'_>) -> Result<(), NoMemory>
        ensures { OnOk result (self.new ≡ begun vars.now self.old node.now) }
    {
        if is_field(node.tag()) {
            return self.take_field(alloc, vars, node);
        }
        if node.tag() == Tag::P {
            return self.take_mode(alloc, node);
        }
        add_before(alloc, vars, node, &mut self.flow)
    }

    /// Takes an element that ends.
    pub fn end(&mut self, alloc: Global, tag: Tag) -> Result<(), NoMemory>
        ensures { OnOk result (self.new ≡ followed_by self.old (flow_behind tag)) }
    {
        add_edge(alloc, tag, &mut self.flow)
    }
}
