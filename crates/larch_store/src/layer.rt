ghost use Rattle.std.specs.Prelude.{◌≡◌, ◌++◌, ◌∷◌, [], false, length, Contains, IfSome, IfNone, OnOk, OnErr};
ghost use Rattle.std.specs.List.{IsDistinct, list_any};
ghost use Rattle.std.specs.Map.{keys_of};
ghost use Rattle.larch_store.specs.contracts.key.KeyPartialEq.TheImpl as key_eq;

use crate::key::{Key, copy_key};
use crate::shared::Shared;
use indexmap::IndexMap;
use larch_base::{Memory, let_go};
use std::alloc::Global;
use std::marker::Model;

/// Some shared terms under their keys, in the order in which they were put there. Contracts see them as pairs.
#[derive(Drop)]
pub(crate) struct Layer {
    entries: IndexMap<Key, Shared>,
}

impl Model for Layer {
    ghost use Rattle.std.specs.Prelude.{List};
    ghost use Rattle.std.specs.Coded.{codes};
    ghost use Rattle.larch_store.specs.Numbered.{Numbered};
    ghost use Rattle.larch_store.specs.NumberedCode.{coded_numbered};
    ghost use Rattle.larch_store.specs.declared.key.Key.{Key};

    ghost Value = { List (Key × Numbered) };

    ghost coded = { Prim.hlevel (codes, coded_numbered) };

    ghost view = { λ layer. layer.entries.entries };
}

impl Layer {
    // Nothing yet. It takes no memory.
    pub(crate) fn new(alloc: Global) -> Layer
        ensures { result ≡ [] }
    {
        Layer {
            entries: IndexMap::new(alloc),
        }
    }

    // How many there are.
    pub(crate) fn len(&self) -> usize
        ensures { result ≡ length self.now }
    {
        self.entries.len()
    }

    // The shared term that stands under a key, if one does.
    #[tactic(auto, using(crate::proofs::Layered::got_entry, crate::proofs::Layered::got_none))]
    pub(crate) fn find(&self, key: &Key) -> Option<&Shared>
        ensures some { IfSome result (λ x. Contains self.now (key.now, x.now)) }
        ensures none { IfNone result (list_any (key_eq.ghosts.eq key.now) (keys_of self.now) ≡ false) }
    {
        self.entries.get(key)
    }

    // Puts a shared term behind the others, under a key that is none of theirs. Where memory runs out nothing changes.
    #[tactic(auto, using(crate::proofs::Layered::put_behind))]
    pub(crate) fn put(&mut self, key: Key, shared: Shared) -> Result<(), Memory>
        requires { list_any (key_eq.ghosts.eq key) (keys_of self.old) ≡ false }
        ensures ok { OnOk result (self.new ≡ self.old ++ (key, shared) ∷ []) }
        ensures err { OnErr result (self.new ≡ self.old) }
    {
        match self.entries.insert(key, shared) {
            Ok(none) => Ok(let_go((), none)),
            Err(refused) => Err(let_go(Memory, refused)),
        }
    }

    // Puts all of another layer behind the others, each under a key that is none of theirs.
    pub(crate) fn put_all(&mut self, others: &Layer) -> Result<(), Memory>
        requires { IsDistinct key_eq.ghosts.eq (keys_of (self.old ++ others.now)) }
        ensures { OnOk result (self.new ≡ self.old ++ others.now) }
    {
        for index in 0..others.entries.len() {
            let Some((key, shared)) = others.entries.get_index(index) else {
                unreachable!()
            };
            self.put_copy(key, shared)?;
        }
        Ok(())
    }

    // Puts a shared term once more behind the others, under a key that is none of theirs.
    fn put_copy(&mut self, key: &Key, shared: &Shared) -> Result<(), Memory>
        requires { list_any (key_eq.ghosts.eq key.now) (keys_of self.old) ≡ false }
        ensures { OnOk result (self.new ≡ self.old ++ (key.now, shared.now) ∷ []) }
    {
        let shared = shared.copy()?;
        match copy_key(key) {
            Ok(key) => self.put(key, shared),
            Err(memory) => Err(let_go(memory, shared)),
        }
    }
}
