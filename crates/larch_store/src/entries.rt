ghost use Rattle.std.specs.Prelude.{◌≡◌, ◌≤◌, ◌++◌, ◌∷◌, [], false, drop, map, length, Contains};
ghost use Rattle.std.specs.Prelude.{IfOk, IfSome, IfNone, OnOk, OnErr};
ghost use Rattle.std.specs.List.{IsDistinct, list_any};
ghost use Rattle.std.specs.Map.{keys_of};
ghost use Rattle.larch_store.specs.Layers.{join_layers};
ghost use Rattle.larch_store.specs.contracts.key.KeyPartialEq.TheImpl as key_eq;

use crate::key::Key;
use crate::layer::Layer;
use crate::layers::{all_layers, share_layers};
use crate::shared::Shared;
use larch_base::{Memory, let_go};
use std::alloc::Global;
use std::marker::Model;
use std::rc::Rc;

/// Shared terms under their keys, in the order in which they were put there. They lie in layers that copies share; a
/// copy takes a step for each layer. What is put behind the others goes to the last layer while no copy has it, and
/// begins a further one else, to which those before it that aren't much larger are joined: so of n there are never
/// more layers than digits of n. Contracts see them as pairs.
pub(crate) struct Entries {
    alloc: Global,
    earlier: Vec<Rc<Layer>>,
    last: Rc<Layer>,
    count: u64,
}

// By a call, so that a proof takes it apart in one place alone.
impl Drop for Entries {
    fn drop(self) {
        let Entries {
            alloc: _alloc,
            earlier: _earlier,
            last: _last,
            count: _count,
        } = self;
    }
}

impl Model for Entries {
    ghost use Rattle.std.specs.Prelude.{◌≡◌, ◌++◌, List, map, length};
    ghost use Rattle.std.specs.Coded.{codes};
    ghost use Rattle.std.specs.List.{IsDistinct};
    ghost use Rattle.std.specs.Map.{keys_of};
    ghost use Rattle.larch_store.specs.Layers.{join_layers};
    ghost use Rattle.larch_store.specs.Numbered.{Numbered};
    ghost use Rattle.larch_store.specs.NumberedCode.{coded_numbered};
    ghost use Rattle.larch_store.specs.declared.key.Key.{Key};
    ghost use Rattle.larch_store.specs.contracts.key.KeyPartialEq.TheImpl as key_eq;

    ghost Value = { List (Key × Numbered) };

    ghost coded = { Prim.hlevel (codes, coded_numbered) };

    ghost view = { λ e. join_layers (map (λ layer. layer.value) e.earlier.items) ++ e.last.value };

    ghost invariant = { λ e. IsDistinct key_eq.ghosts.eq
        (keys_of (join_layers (map (λ layer. layer.value) e.earlier.items) ++ e.last.value))
        × (e.count ≡ length (join_layers (map (λ layer. layer.value) e.earlier.items) ++ e.last.value)) };
}

impl Entries {
    // Nothing yet.
    pub(crate) fn new(alloc: Global) -> Result<Entries, Memory>
        ensures { IfOk result (λ entries. entries ≡ []) }
    {
        let last = Rc::new(alloc, Layer::new(alloc))?;
        Ok(Entries {
            alloc,
            earlier: Vec::new(alloc),
            last,
            count: 0,
        })
    }

    // The same once more. It shares what is there, and what is later put behind one isn't in the other.
    pub(crate) fn copy(&self) -> Result<Entries, Memory>
        ensures { IfOk result (λ entries. entries ≡ self.now) }
    {
        let alloc = self.alloc;
        let last = self.last.clone()?;
        let count = self.count;
        match share_layers(alloc, self.earlier.as_slice()) {
            Ok(earlier) => Ok(Entries {
                alloc,
                earlier,
                last,
                count,
            }),
            Err(memory) => Err(let_go(memory, last)),
        }
    }

    // Where its memory comes from.
    pub(crate) fn allocator(&self) -> Global {
        self.alloc
    }

    // How many there are. It takes no memory.
    pub(crate) fn len(&self) -> u64
        ensures { result ≡ length self.now }
    {
        self.count
    }

    // No two stand under one key.
    pub(crate) fn keys_differ(&self)
        ensures { IsDistinct key_eq.ghosts.eq (keys_of self.now) }
    {
        let _ = &self.alloc;
    }

    // The shared term that stands under a key, if one does.
    pub(crate) fn find(&self, key: &Key) -> Result<Option<Shared>, Memory>
        ensures found { IfOk result (λ o. IfSome o (λ x. Contains self.now (key.now, x))) }
        ensures none { IfOk result (λ o. IfNone o (list_any (key_eq.ghosts.eq key.now) (keys_of self.now) ≡ false)) }
    {
        let _ = &self.alloc;
        let Some(found) = find_among(self.earlier.as_slice(), self.last.as_ref(), key) else {
            return Ok(None);
        };
        let found = found.copy()?;
        Ok(Some(found))
    }

    // Puts a shared term behind the others, under a key that is none of theirs. Where memory runs out nothing changes.
    #[tactic(auto, using(crate::proofs::Layered::differ_put, crate::proofs::Layered::count_put))]
    pub(crate) fn put(&mut self, key: Key, shared: Shared) -> Result<(), Memory>
        requires { list_any (key_eq.ghosts.eq key) (keys_of self.old) ≡ false }
        ensures ok { OnOk result (self.new ≡ self.old ++ (key, shared) ∷ []) }
        ensures err { OnErr result (self.new ≡ self.old) }
    {
        let Some(count) = self.count.checked_add(1) else {
            return Err(let_go(Memory, (key, shared)));
        };
        put_behind(self.alloc, &mut self.earlier, &mut self.last, key, shared)?;
        self.count = count;
        Ok(())
    }
}

// The shared term that stands under a key in the last layer or in an earlier one, if one does.
#[tactic(auto, using(crate::proofs::Layered::found_last, crate::proofs::Layered::found_earlier, crate::proofs::Layered::found_nowhere))]
fn find_among<'a>(earlier: &'a [Rc<Layer>], last: &'a Layer, key: &Key) -> Option<&'a Shared>
    ensures some { IfSome result (λ x.
        Contains (join_layers (map (λ layer. layer.value) earlier.now) ++ last.now) (key.now, x.now)) }
    ensures none { IfNone result (list_any (key_eq.ghosts.eq key.now)
        (keys_of (join_layers (map (λ layer. layer.value) earlier.now) ++ last.now)) ≡ false) }
{
    if let Some(found) = last.find(key) {
        return Some(found);
    }
    if let Some(found) = find_in(earlier, key) {
        return Some(found);
    }
    None
}

// The shared term that stands under a key in one of some layers, if one does.
fn find_in<'a>(layers: &'a [Rc<Layer>], key: &Key) -> Option<&'a Shared>
    ensures some { IfSome result (λ x.
        Contains (join_layers (map (λ layer. layer.value) layers.now)) (key.now, x.now)) }
    ensures none { IfNone result (list_any (key_eq.ghosts.eq key.now)
        (keys_of (join_layers (map (λ layer. layer.value) layers.now))) ≡ false) }
{
    for layer in layers {
        if let Some(found) = layer.as_ref().find(key) {
            return Some(found);
        }
    }
    None
}

// Puts a shared term behind those of all layers: into the last one where it has no other owner, and else into a
// further one.
#[tactic(auto, using(crate::proofs::Layered::absent_in_all, crate::proofs::Layered::differ_in_all, crate::proofs::Layered::put_in_all, crate::proofs::Layered::absent_last))]
fn put_behind(
    alloc: Global,
    earlier: &mut Vec<Rc<Layer>>,
    last: &mut Rc<Layer>,
    key: Key,
    shared: Shared,
) -> Result<(), Memory>
    requires absent { list_any (key_eq.ghosts.eq key)
        (keys_of (join_layers (map (λ layer. layer.value) earlier.old.items) ++ last.old.value)) ≡ false }
    requires distinct { IsDistinct key_eq.ghosts.eq
        (keys_of (join_layers (map (λ layer. layer.value) earlier.old.items) ++ last.old.value)) }
    ensures ok { OnOk result (join_layers (map (λ layer. layer.value) earlier.new.items) ++ last.new.value
        ≡ (join_layers (map (λ layer. layer.value) earlier.old.items) ++ last.old.value) ++ (key, shared) ∷ []) }
    ensures err { OnErr result (join_layers (map (λ layer. layer.value) earlier.new.items) ++ last.new.value
        ≡ join_layers (map (λ layer. layer.value) earlier.old.items) ++ last.old.value) }
{
    if let Some(layer) = Rc::get_mut(last) {
        return layer.put(key, shared);
    }
    match all_layers(alloc, earlier.as_slice(), last) {
        Ok(layers) => begin_layer(alloc, earlier, last, layers, (key, shared)),
        Err(memory) => Err(let_go(memory, (key, shared))),
    }
}

// Makes of these layers the earlier ones and a last one, which has a shared term behind the others.
fn begin_layer(
    alloc: Global,
    earlier: &mut Vec<Rc<Layer>>,
    last: &mut Rc<Layer>,
    layers: Vec<Rc<Layer>>,
    entry: (Key, Shared),
) -> Result<(), Memory>
    requires absent { list_any (key_eq.ghosts.eq entry.0)
        (keys_of (join_layers (map (λ layer. layer.value) layers.items))) ≡ false }
    requires distinct { IsDistinct key_eq.ghosts.eq (keys_of (join_layers (map (λ layer. layer.value) layers.items))) }
    ensures ok { OnOk result (join_layers (map (λ layer. layer.value) earlier.new.items) ++ last.new.value
        ≡ join_layers (map (λ layer. layer.value) layers.items) ++ entry ∷ []) }
    ensures err { OnErr result ((earlier.new.items ≡ earlier.old.items) × (last.new ≡ last.old)) }
{
    let staying = staying(layers.as_slice());
    match joined_with(alloc, &layers[staying..], entry) {
        Ok(layer) => {
            let mut layers = layers;
            layers.truncate(staying);
            *earlier = layers;
            *last = layer;
            Ok(())
        }
        Err(memory) => Err(let_go(memory, layers)),
    }
}

// How many of the first layers stay where a further one is begun. The last ones are joined to it where the one before
// the last isn't more than twice as large as that, and so on with what they are together; so those that stay are each
// much larger than all behind them.
fn staying(layers: &[Rc<Layer>]) -> usize
    ensures { result ≤ length layers.now }
{
    let mut size: usize = 0;
    for join_layers in 0..layers.len() {
        let before = layers.len() - join_layers;
        let further = layers[before - 1].as_ref().len();
        if join_layers > 0 && further / 2 > size {
            return if join_layers > 1 {
                before
            } else {
                layers.len()
            };
        }
        size = size.saturating_add(further);
    }
    if layers.len() > 1 { 0 } else { layers.len() }
}

// A layer of what lies in some layers, with a shared term behind it.
fn joined_with(
    alloc: Global,
    layers: &[Rc<Layer>],
    entry: (Key, Shared),
) -> Result<Rc<Layer>, Memory>
    requires absent { list_any (key_eq.ghosts.eq entry.0)
        (keys_of (join_layers (map (λ layer. layer.value) layers.now))) ≡ false }
    requires distinct { IsDistinct key_eq.ghosts.eq (keys_of (join_layers (map (λ layer. layer.value) layers.now))) }
    ensures { IfOk result (λ layer. layer.value ≡ join_layers (map (λ layer. layer.value) layers.now) ++ entry ∷ []) }
{
    match join(alloc, layers) {
        Ok(layer) => with_entry(alloc, layer, entry),
        Err(memory) => Err(let_go(memory, entry)),
    }
}

// A layer with one more shared term, to be shared.
fn with_entry(alloc: Global, layer: Layer, entry: (Key, Shared)) -> Result<Rc<Layer>, Memory>
    requires { list_any (key_eq.ghosts.eq entry.0) (keys_of layer) ≡ false }
    ensures { IfOk result (λ made. made.value ≡ layer ++ entry ∷ []) }
{
    let mut layer = layer;
    let (key, shared) = entry;
    layer.put(key, shared)?;
    let made = Rc::new(alloc, layer)?;
    Ok(made)
}

// All that lies in some layers, as one.
fn join(alloc: Global, layers: &[Rc<Layer>]) -> Result<Layer, Memory>
    requires { IsDistinct key_eq.ghosts.eq (keys_of (join_layers (map (λ layer. layer.value) layers.now))) }
    ensures { IfOk result (λ one. one ≡ join_layers (map (λ layer. layer.value) layers.now)) }
{
    let mut one = Layer::new(alloc);
    for layer in layers {
        one.put_all(layer.as_ref())?;
    }
    Ok(one)
}
