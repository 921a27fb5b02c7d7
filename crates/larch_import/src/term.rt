ghost use Rattle.std.specs.Prelude.{◌≡◌, ◌∷◌, ◌+◌, ◌*◌, ◌<◌, IfOk};
ghost use Rattle.larch_certificate.specs.Coded.{coded_app, coded_forest_of, coded_nodes, coded_var};
ghost use Rattle.larch_import.specs.Building.{application_steps, application_tree, next_steps, next_term, steps};
ghost use Rattle.larch_import.specs.Building.{whole};
ghost use Rattle.larch_import.specs.declared.term.Next.TheVariants.{Built};
ghost use Rattle.larch_import.specs.ByWords.{move_of};
ghost use Rattle.larch_verify_law.specs.Moves.{Move, moved_term};

use crate::words::NewWords;
use larch_base::{Memory, Name, Sequence, let_go};
use larch_certificate::{Coded, CodedNode, CodedTerms, Symbol};
use larch_certificate_text::Stack;
use larch_term::Sort;
use std::alloc::Global;

/// An application that is being built: its symbol, the arguments that stand already, and those that wait.
#[derive(Drop)]
pub struct Application<'a> {
    pub symbol: Symbol,
    pub built: Sequence<Coded>,
    pub rest: &'a [Coded],
}

/// A term that is next.
#[derive(Drop)]
pub enum Next<'a> {
    /// It is to be moved.
    Given(&'a Coded),
    /// It is moved.
    Built(Coded),
}

/// The term by new words. What waits is kept in memory and not on the stack, so it may be of any
/// depth.
pub fn move_term(alloc: Global, words: &NewWords, term: &Coded) -> Result<Coded, Memory>
    ensures { IfOk result (λ moved. moved ≡ moved_term (move_of words.now) term.now) }
{
    let mut waiting = Stack::new(alloc);
    let mut next = Next::Given(term);
    'terms: loop {
        next = match next {
            Next::Given(term) => take_apart(alloc, words, term, &mut waiting)?,
            Next::Built(built) => {
                let Some(application) = waiting.pop() else {
                    return Ok(built);
                };
                put_argument(application, built, &mut waiting)?
            }
        };
    }
}

// Moves a variable, or begins an application.
#[tactic(auto, using(crate::proofs::Moving::moved_list))]
fn take_apart<'a>(
    alloc: Global,
    words: &NewWords,
    term: &'a Coded,
    waiting: &mut Stack<Application<'a>>,
) -> Result<Next<'a>, Memory>
    ensures whole { IfOk result (λ next. whole (move_of words.now) waiting.new (next_term (move_of words.now) next)
        ≡ whole (move_of words.now) waiting.old (moved_term (move_of words.now) term.now)) }
    ensures steps { IfOk result (λ next. next_steps next + steps waiting.new
        < 2 * coded_nodes term.now + steps waiting.old) }
{
    match term.node() {
        CodedNode::Var(name, sort) => build_variable(alloc, words, name, sort),
        CodedNode::App(symbol, arguments) => {
            let arguments = arguments.as_slice();
            let built = Vec::with_capacity(alloc, arguments.len())?;
            let application = Application {
                symbol: words.symbol(*symbol),
                built: Sequence::from_vec(built),
                rest: arguments,
            };
            go_on(application, waiting)
        }
    }
}

fn build_variable<'a>(
    alloc: Global,
    words: &NewWords,
    name: &Name,
    sort: &Sort,
) -> Result<Next<'a>, Memory>
    ensures { IfOk result (λ next. next ≡ Built (moved_term (move_of words.now) (coded_var name.now sort.now))) }
{
    let name = name.copy()?;
    match words.sort(alloc, sort) {
        Ok(sort) => Ok(Next::Built(Coded::var(name, sort))),
        Err(memory) => Err(let_go(memory, name)),
    }
}

// Gives an application its next argument.
fn put_argument<'a>(
    application: Application<'a>,
    argument: Coded,
    waiting: &mut Stack<Application<'a>>,
) -> Result<Next<'a>, Memory>
    ensures whole { IfOk result (λ next. (m : Move) → whole m waiting.new (next_term m next)
        ≡ whole m (application.entry ∷ waiting.old) argument) }
    ensures steps { IfOk result (λ next. next_steps next + steps waiting.new
        < 1 + steps (application.entry ∷ waiting.old)) }
{
    let mut application = application;
    application.built.push(argument)?;
    go_on(application, waiting)
}

// Goes on with the next argument of an application, or builds it.
fn go_on<'a>(
    application: Application<'a>,
    waiting: &mut Stack<Application<'a>>,
) -> Result<Next<'a>, Memory>
    ensures whole { IfOk result (λ next. (m : Move) → whole m waiting.new (next_term m next)
        ≡ whole m waiting.old (application_tree m application.entry)) }
    ensures steps { IfOk result (λ next. next_steps next + steps waiting.new
        < application_steps application.entry + steps waiting.old) }
{
    let Application {
        symbol,
        built,
        rest,
    } = application;
    let [first, others @ ..] = rest else {
        return build(symbol, built);
    };
    waiting.push(Application {
        symbol,
        built,
        rest: others,
    })?;
    Ok(Next::Given(first))
}

fn build<'a>(symbol: Symbol, built: Sequence<Coded>) -> Result<Next<'a>, Memory>
    ensures { IfOk result (λ next. next ≡ Built (coded_app symbol (coded_forest_of built))) }
{
    let arguments = CodedTerms::from_vec(built.into_vec())?;
    Ok(Next::Built(Coded::app(symbol, arguments)))
}
