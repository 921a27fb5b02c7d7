//! Laws of stores that grow, each a call without work.
ghost use Rattle.std.specs.Prelude.{◌≡◌, List};
ghost use Rattle.larch_store.specs.Numbered.{Numbered, number_of};
ghost use Rattle.larch_store.specs.Stored.{Belongs, AllBelong, Grows};

/// A store has all that it has.
#[tactic(auto, using(crate::proofs::Growth::grows_refl))]
pub fn growth_is_reflexive()
    ensures { (s : List Numbered) → Grows s s }
{}

/// What grows twice grows.
#[tactic(auto, using(crate::proofs::Growth::grows_trans))]
pub fn growth_is_transitive()
    ensures { (s u v : List Numbered) → Grows s u → Grows u v → Grows s v }
{}

/// What belongs to a store belongs to it when it has grown.
#[tactic(auto, using(crate::proofs::Growth::belongs_stays, crate::proofs::Growth::all_belong_stay))]
pub fn what_belongs_stays()
    ensures one { (s u : List Numbered) (x : Numbered) → Grows s u → Belongs s x → Belongs u x }
    ensures all { (s u xs : List Numbered) → Grows s u → AllBelong s xs → AllBelong u xs }
{}

/// Of two shared terms that belong to a store and have one number, both are one.
#[tactic(auto, using(crate::proofs::Growth::belongs_once))]
pub fn numbers_tell_apart()
    ensures { (s : List Numbered) (x y : Numbered) → Belongs s x → Belongs s y → number_of x ≡ number_of y → x ≡ y }
{}
