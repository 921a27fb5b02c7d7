ghost use Rattle.std.specs.Prelude.{◌≡◌, ◌++◌, ◌∷◌, [], map, IfOk};

use larch_base::Memory;
use std::alloc::Global;
use std::rc::Rc;

/// The same layers once more, shared with these. It takes a step for each layer, whatever lies in them.
pub fn share_layers<T: Drop>(alloc: Global, layers: &[Rc<T>]) -> Result<Vec<Rc<T>>, Memory>
    ensures { IfOk result
        (λ shared. map (λ layer. layer.value) shared.items ≡ map (λ layer. layer.value) layers.now) }
{
    let mut shared = Vec::with_capacity(alloc, layers.len())?;
    for layer in layers {
        let layer = layer.clone()?;
        shared.push(layer)?;
    }
    Ok(shared)
}

/// The same layers once more and a last one, shared with these.
pub fn all_layers<T: Drop>(
    alloc: Global,
    earlier: &[Rc<T>],
    last: &Rc<T>,
) -> Result<Vec<Rc<T>>, Memory>
    ensures { IfOk result (λ all. map (λ layer. layer.value) all.items
        ≡ map (λ layer. layer.value) earlier.now ++ last.now.value ∷ []) }
{
    let mut all = share_layers(alloc, earlier)?;
    let last = last.clone()?;
    all.push(last)?;
    Ok(all)
}
