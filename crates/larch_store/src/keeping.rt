ghost use Rattle.std.specs.Prelude.{◌≡◌, ◌+◌, ◌≤◌, map, sum_by, IfOk};
ghost use Rattle.std.specs.Map.{keys_of};
ghost use Rattle.larch_term.specs.Tree.{var, app, forest_of};
ghost use Rattle.larch_store.specs.Layers.{shared_in};
ghost use Rattle.larch_store.specs.Numbered.{term_of, size_of};
ghost use Rattle.larch_store.specs.Stored.{Belongs, AllBelong, Grows, IsStore, most_nodes};

use crate::entries::Entries;
use crate::key::{application_key, variable_key};
use crate::shared::Shared;
use crate::table::{put_application, put_variable};
use larch_base::{Memory, Name, let_go};
use larch_term::{Operator, Sort};

/// The shared term that is a variable, from a store's entries.
#[tactic(auto, using(crate::proofs::Growth::grows_refl))]
pub(crate) fn keep_variable(
    entries: &mut Entries,
    name: &Name,
    sort: &Sort,
) -> Result<Shared, Memory>
    requires { IsStore (keys_of entries.old) (shared_in entries.old) }
    ensures store { IsStore (keys_of entries.new) (shared_in entries.new) }
    ensures term { IfOk result (λ x. term_of x ≡ var name.now sort.now) }
    ensures belongs { IfOk result (λ x. Belongs (shared_in entries.new) x) }
    ensures grows { Grows (shared_in entries.old) (shared_in entries.new) }
{
    let key = variable_key(name, sort)?;
    let kept = match entries.find(&key) {
        Ok(kept) => kept,
        Err(memory) => return Err(let_go(memory, key)),
    };
    if let Some(found) = kept {
        return Ok(let_go(found, key));
    }
    let new = put_variable(entries, key, name, sort)?;
    Ok(new)
}

/// The shared term that is an operator with arguments and has this size, from a store's entries.
#[tactic(auto, using(crate::proofs::Growth::grows_refl))]
pub(crate) fn keep_application(
    entries: &mut Entries,
    operator: &Operator,
    arguments: &[Shared],
    size: u64,
) -> Result<Shared, Memory>
    requires store { IsStore (keys_of entries.old) (shared_in entries.old) }
    requires arguments { AllBelong (shared_in entries.old) arguments.now }
    requires size { size ≡ 1 + sum_by size_of arguments.now }
    requires small { size ≤ most_nodes }
    ensures store { IsStore (keys_of entries.new) (shared_in entries.new) }
    ensures term { IfOk result (λ x. term_of x ≡ app operator.now (forest_of (map term_of arguments.now))) }
    ensures belongs { IfOk result (λ x. Belongs (shared_in entries.new) x) }
    ensures grows { Grows (shared_in entries.old) (shared_in entries.new) }
{
    let key = application_key(entries.allocator(), operator, arguments)?;
    let kept = match entries.find(&key) {
        Ok(kept) => kept,
        Err(memory) => return Err(let_go(memory, key)),
    };
    if let Some(found) = kept {
        return Ok(let_go(found, key));
    }
    let new = put_application(entries, key, operator, arguments, size)?;
    Ok(new)
}
