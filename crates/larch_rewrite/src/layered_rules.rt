ghost use Rattle.std.specs.Prelude.{◌≡◌, ◌≤◌, ◌++◌, ◌∷◌, [], length, map, option_copied, slice_get, IfOk, IfSome};
ghost use Rattle.std.specs.Prelude.{OnOk, OnErr};
ghost use Rattle.std.specs.List.{list_any};
ghost use Rattle.larch_rewrite.specs.RuleSet.{has_name, rule_of, without};
ghost use Rattle.larch_rewrite_step.specs.RewriteMatchSearch.{IsFirst, IsFoundIn};
ghost use Rattle.larch_store.specs.Layers.{join_layers};
ghost use Rattle.larch_store.specs.Numbered.{term_of};
ghost use Rattle.larch_store.specs.Stored.{Belongs};

use crate::named_rule::NamedRule;
use crate::named_rules::NamedRules;
use crate::searching::first_among;
use larch_base::{FactName, Memory, let_go};
use larch_rewrite_step::from_rewrite_match::Match;
use larch_store::{Shared, Store, all_layers, share_layers};
use std::alloc::Global;
use std::marker::Model;
use std::rc::Rc;

/// Rules with their names, in the order in which they are tried. They lie in layers that copies share; a copy takes a
/// step for each layer. What is put behind the others goes to the last layer while no copy has it, and begins a further
/// one else, to which those before it that aren't much larger are joined: so of n there are never more layers than
/// digits of n. Contracts see them as a list.
pub(crate) struct LayeredRules {
    alloc: Global,
    earlier: Vec<Rc<NamedRules>>,
    last: Rc<NamedRules>,
}

// By a call, so that a proof takes it apart in one place alone.
impl Drop for LayeredRules {
    fn drop(self) {
        let LayeredRules {
            alloc: _alloc,
            earlier: _earlier,
            last: _last,
        } = self;
    }
}

impl Model for LayeredRules {
    ghost use Rattle.std.specs.Prelude.{◌++◌, List, map};
    ghost use Rattle.std.specs.Coded.{coded_list};
    ghost use Rattle.larch_rewrite.specs.RuleSet.{PlainRule};
    ghost use Rattle.larch_rewrite.specs.RuleSetCode.{coded_rule};
    ghost use Rattle.larch_store.specs.Layers.{join_layers};

    ghost Value = { List PlainRule };

    ghost coded = { coded_list coded_rule };

    ghost view = { λ rules. join_layers (map (λ layer. layer.value) rules.earlier.items) ++ rules.last.value };
}

impl LayeredRules {
    // No rules.
    pub(crate) fn new(alloc: Global) -> Result<LayeredRules, Memory>
        ensures { IfOk result (λ rules. rules ≡ []) }
    {
        let last = Rc::new(alloc, NamedRules::new(alloc))?;
        Ok(LayeredRules {
            alloc,
            earlier: Vec::new(alloc),
            last,
        })
    }

    // The same rules once more. They share what is there, and what is later put behind one isn't in the other.
    pub(crate) fn copy(&self) -> Result<LayeredRules, Memory>
        ensures { IfOk result (λ rules. rules ≡ self.now) }
    {
        let alloc = self.alloc;
        let last = self.last.clone()?;
        match share_layers(alloc, self.earlier.as_slice()) {
            Ok(earlier) => Ok(LayeredRules {
                alloc,
                earlier,
                last,
            }),
            Err(memory) => Err(let_go(memory, last)),
        }
    }

    // Puts a rule behind the others. Where memory runs out nothing changes.
    pub(crate) fn push(&mut self, rule: NamedRule) -> Result<(), Memory>
        ensures ok { OnOk result (self.new ≡ self.old ++ rule ∷ []) }
        ensures err { OnErr result (self.new ≡ self.old) }
    {
        push_behind(self.alloc, &mut self.earlier, &mut self.last, rule)
    }

    // The rule at a place, if there is one. It takes a step for each layer.
    pub(crate) fn get(&self, index: usize) -> Option<&NamedRule>
        ensures { option_copied result ≡ slice_get self.now index }
    {
        get_among(self.earlier.as_slice(), self.last.as_ref(), index)
    }

    // Whether a rule has a name.
    pub(crate) fn has_name(&self, name: &FactName) -> bool
        ensures { result ≡ list_any (has_name name.now) self.now }
    {
        has_name_among(self.earlier.as_slice(), self.last.as_ref(), name)
    }

    // The rules that have another name. Layers without the name are shared.
    #[tactic(auto, using(crate::proofs::Layers::others_both))]
    pub(crate) fn without(&self, name: &FactName) -> Result<LayeredRules, Memory>
        ensures { IfOk result (λ others. others ≡ without name.now self.now) }
    {
        let alloc = self.alloc;
        let last = layer_without(alloc, &self.last, name)?;
        match layers_without(alloc, self.earlier.as_slice(), name) {
            Ok(earlier) => Ok(LayeredRules {
                alloc,
                earlier,
                last,
            }),
            Err(memory) => Err(let_go(memory, last)),
        }
    }

    // The first that applies to a term at its root. It takes a look-up for each layer.
    pub(crate) fn first<'a>(
        &'a self,
        store: &Store,
        term: &Shared,
    ) -> Result<Option<Match<'a>>, Memory>
        requires { Belongs store.now term.now }
        ensures first { IfOk result (IsFirst (map rule_of self.now) (term_of term.now)) }
        ensures bound { IfOk result (λ found. IfSome found (IsFoundIn store.now)) }
    {
        let last = self.last.as_ref();
        first_among(self.alloc, store, self.earlier.as_slice(), last, term)
    }
}

// The rule at a place among those of earlier layers and of the last one, if there is one.
fn get_among<'a>(
    earlier: &'a [Rc<NamedRules>],
    last: &'a NamedRules,
    index: usize,
) -> Option<&'a NamedRule>
    ensures { option_copied result
        ≡ slice_get (join_layers (map (λ layer. layer.value) earlier.now) ++ last.now) index }
{
    let mut place = index;
    for layer in earlier {
        let layer = layer.as_ref();
        let count = layer.len();
        if place < count {
            return layer.get(place);
        }
        place -= count;
    }
    last.get(place)
}

// Whether a rule of the last layer or of an earlier one has a name.
#[tactic(auto, using(crate::proofs::Layers::named_last, crate::proofs::Layers::named_earlier))]
fn has_name_among(earlier: &[Rc<NamedRules>], last: &NamedRules, name: &FactName) -> bool
    ensures { result ≡ list_any (has_name name.now)
        (join_layers (map (λ layer. layer.value) earlier.now) ++ last.now) }
{
    last.has_name(name) || has_name_in(earlier, name)
}

// Whether a rule of some layers has a name.
fn has_name_in(layers: &[Rc<NamedRules>], name: &FactName) -> bool
    ensures { result ≡ list_any (has_name name.now) (join_layers (map (λ layer. layer.value) layers.now)) }
{
    for layer in layers {
        if layer.as_ref().has_name(name) {
            return true;
        }
    }
    false
}

// A layer's rules that have another name: the layer itself where none has it.
#[tactic(auto, using(crate::proofs::PlainRules::all_are_others))]
fn layer_without(
    alloc: Global,
    layer: &Rc<NamedRules>,
    name: &FactName,
) -> Result<Rc<NamedRules>, Memory>
    ensures { IfOk result (λ others. others.value ≡ without name.now layer.now.value) }
{
    if !layer.as_ref().has_name(name) {
        let same = layer.clone()?;
        return Ok(same);
    }
    let others = layer.as_ref().without(name)?;
    share(alloc, others)
}

// The rules of some layers that have another name.
fn layers_without(
    alloc: Global,
    layers: &[Rc<NamedRules>],
    name: &FactName,
) -> Result<Vec<Rc<NamedRules>>, Memory>
    ensures { IfOk result (λ others. join_layers (map (λ layer. layer.value) others.items)
        ≡ without name.now (join_layers (map (λ layer. layer.value) layers.now))) }
{
    let mut others = Vec::with_capacity(alloc, layers.len())?;
    for layer in layers {
        let other = layer_without(alloc, layer, name)?;
        others.push(other)?;
    }
    Ok(others)
}

// Puts a rule behind those of all layers: into the last one where it has no other owner, and else into a further one.
#[tactic(auto, using(larch_store::proofs::Layered::put_in_all))]
fn push_behind(
    alloc: Global,
    earlier: &mut Vec<Rc<NamedRules>>,
    last: &mut Rc<NamedRules>,
    rule: NamedRule,
) -> Result<(), Memory>
    ensures ok { OnOk result (join_layers (map (λ layer. layer.value) earlier.new.items) ++ last.new.value
        ≡ (join_layers (map (λ layer. layer.value) earlier.old.items) ++ last.old.value) ++ rule ∷ []) }
    ensures err { OnErr result (join_layers (map (λ layer. layer.value) earlier.new.items) ++ last.new.value
        ≡ join_layers (map (λ layer. layer.value) earlier.old.items) ++ last.old.value) }
{
    if let Some(layer) = Rc::get_mut(last) {
        return layer.push(rule);
    }
    match all_layers(alloc, earlier.as_slice(), last) {
        Ok(layers) => begin_layer(alloc, earlier, last, layers, rule),
        Err(memory) => Err(let_go(memory, rule)),
    }
}

// Makes of these layers the earlier ones and a last one, which has a rule behind the others.
fn begin_layer(
    alloc: Global,
    earlier: &mut Vec<Rc<NamedRules>>,
    last: &mut Rc<NamedRules>,
    layers: Vec<Rc<NamedRules>>,
    rule: NamedRule,
) -> Result<(), Memory>
    ensures ok { OnOk result (join_layers (map (λ layer. layer.value) earlier.new.items) ++ last.new.value
        ≡ join_layers (map (λ layer. layer.value) layers.items) ++ rule ∷ []) }
    ensures err { OnErr result ((earlier.new.items ≡ earlier.old.items) × (last.new ≡ last.old)) }
{
    let staying = staying(layers.as_slice());
    match joined_with(alloc, &layers[staying..], rule) {
        Ok(layer) => {
            let mut layers = layers;
            layers.truncate(staying);
            *earlier = layers;
            *last = layer;
            Ok(())
        }
        Err(memory) => Err(let_go(memory, layers)),
    }
}

// How many of the first layers stay where a further one is begun. The last ones are joined to it where the one before
// the last isn't more than twice as large as that, and so on with what they are together; so those that stay are each
// much larger than all behind them.
fn staying(layers: &[Rc<NamedRules>]) -> usize
    ensures { result ≤ length layers.now }
{
    let mut size: usize = 0;
    for joined in 0..layers.len() {
        let before = layers.len() - joined;
        let further = layers[before - 1].as_ref().len();
        if joined > 0 && further / 2 > size {
            return if joined > 1 { before } else { layers.len() };
        }
        size = size.saturating_add(further);
    }
    if layers.len() > 1 { 0 } else { layers.len() }
}

// A layer of what lies in some layers, with a rule behind it.
fn joined_with(
    alloc: Global,
    layers: &[Rc<NamedRules>],
    rule: NamedRule,
) -> Result<Rc<NamedRules>, Memory>
    ensures { IfOk result (λ layer. layer.value ≡ join_layers (map (λ layer. layer.value) layers.now) ++ rule ∷ []) }
{
    match join(alloc, layers) {
        Ok(layer) => with_rule(alloc, layer, rule),
        Err(memory) => Err(let_go(memory, rule)),
    }
}

// A layer with one more rule, to be shared.
fn with_rule(alloc: Global, layer: NamedRules, rule: NamedRule) -> Result<Rc<NamedRules>, Memory>
    ensures { IfOk result (λ made. made.value ≡ layer ++ rule ∷ []) }
{
    let mut layer = layer;
    layer.push(rule)?;
    share(alloc, layer)
}

// A layer, to be shared.
fn share(alloc: Global, layer: NamedRules) -> Result<Rc<NamedRules>, Memory>
    ensures { IfOk result (λ shared. shared.value ≡ layer) }
{
    let shared = Rc::new(alloc, layer)?;
    Ok(shared)
}

// All that lies in some layers, as one.
fn join(alloc: Global, layers: &[Rc<NamedRules>]) -> Result<NamedRules, Memory>
    ensures { IfOk result (λ one. one ≡ join_layers (map (λ layer. layer.value) layers.now)) }
{
    let mut one = NamedRules::new(alloc);
    for layer in layers {
        one.push_all(layer.as_ref())?;
    }
    Ok(one)
}
