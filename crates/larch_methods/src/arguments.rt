ghost use Rattle.std.specs.Prelude.{◌≡◌, [], ◌∷◌, IfOk};
ghost use Rattle.larch_methods.specs.Rows.{HasArguments};

use larch_base::Memory;
use larch_term::{Node, Term};

// The arguments of a term that has two.
#[derive(Drop)]
pub(crate) struct Two<'a> {
    pub(crate) first: &'a Term,
    pub(crate) second: &'a Term,
}

// The arguments of a term that has two. Of another one no one asks.
pub(crate) fn arguments_of<'a>(term: &'a Term) -> Result<Two<'a>, Memory>
    ensures { IfOk result (λ two. HasArguments term.now two.first.now two.second.now) }
{
    match term.node() {
        Node::App(operator, arguments) => {
            let _ = operator;
            let two = two_of(arguments.as_slice())?;
            Ok(two)
        }
        Node::Var(_, _) => Err(Memory),
    }
}

fn two_of<'a>(arguments: &'a [Term]) -> Result<Two<'a>, Memory>
    ensures { IfOk result (λ two. arguments.now ≡ two.first.now ∷ two.second.now ∷ []) }
{
    let [first, further @ ..] = arguments else {
        return Err(Memory);
    };
    let [second, others @ ..] = further else {
        return Err(Memory);
    };
    if let [_, ..] = others {
        return Err(Memory);
    }
    Ok(Two { first, second })
}
