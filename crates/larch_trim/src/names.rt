ghost use Rattle.std.specs.Prelude.{◌≡◌, ◌∷◌, [], ◌+◌, ◌*◌, ◌<◌, ◌++◌, OnOk, flat_map};
ghost use Rattle.larch_certificate.specs.Coded.{coded_forest_of, coded_nodes, coded_nodes_all};
ghost use Rattle.larch_trim.specs.Collecting.{boxes_to_come, steps_to_come};
ghost use Rattle.larch_trim_meaning.specs.Needed.{box_of_symbol, boxes_in, boxes_in_binding, boxes_in_equation, names};

use larch_base::Memory;
use larch_certificate::{
    Binding, Coded, CodedEquation, CodedNode, CodedTerms, Line, Numbers, Symbol,
};
use larch_certificate_text::Stack;
use std::alloc::Global;

/// Terms that wait to be looked at.
#[derive(Drop)]
pub struct Rest<'a> {
    pub terms: &'a [Coded],
}

/// Puts the lines and boxes that a line names at the end.
pub fn push_names(alloc: Global, line: &Line, named: &mut Numbers) -> Result<(), Memory>
    ensures { OnOk result (named.new ≡ named.old ++ names line.now) }
{
    match line {
        Line::Axiom(_) => Ok(()),
        Line::Hyp(number, _) => named.push(*number),
        Line::Row(_, _) => Ok(()),
        Line::Refl(term) => push_boxes(alloc, term, named),
        Line::Sym(number) => named.push(*number),
        Line::Inst(number, bindings) => {
            named.push(*number)?;
            push_binding_boxes(alloc, bindings.as_slice(), named)
        }
        Line::Repl(number, _, by) => {
            named.push(*number)?;
            named.push(*by)
        }
        Line::Equal(number) => named.push(*number),
        Line::BoxLine(_, hypotheses) => push_hypothesis_boxes(alloc, hypotheses.as_slice(), named),
        Line::Done => Ok(()),
        Line::Fresh(number, _) => named.push(*number),
        Line::Cases(first, second) => {
            named.push(*first)?;
            named.push(*second)
        }
        Line::Induct(number, _, equation, boxes) => {
            push_goal(alloc, *number, equation, boxes.as_slice(), named)
        }
        Line::Observe(number, equation, lines) => {
            push_goal(alloc, *number, equation, lines.as_slice(), named)
        }
        Line::Generated(number, _, _) => named.push(*number),
        Line::Partitioned(number, _, _) => named.push(*number),
    }
}

// A line, the boxes of an equation, and further numbers.
fn push_goal(
    alloc: Global,
    number: u64,
    equation: &CodedEquation,
    further: &[u64],
    named: &mut Numbers,
) -> Result<(), Memory>
    ensures { OnOk result (named.new ≡ named.old ++ number ∷ (boxes_in_equation equation.now ++ further.now)) }
{
    named.push(number)?;
    push_equation_boxes(alloc, equation, named)?;
    push_numbers(further, named)
}

fn push_numbers(further: &[u64], named: &mut Numbers) -> Result<(), Memory>
    ensures { OnOk result (named.new ≡ named.old ++ further.now) }
{
    for number in further {
        named.push(*number)?;
    }
    Ok(())
}

fn push_equation_boxes(
    alloc: Global,
    equation: &CodedEquation,
    named: &mut Numbers,
) -> Result<(), Memory>
    ensures { OnOk result (named.new ≡ named.old ++ boxes_in_equation equation.now) }
{
    push_boxes(alloc, &equation.left, named)?;
    push_boxes(alloc, &equation.right, named)
}

fn push_hypothesis_boxes(
    alloc: Global,
    hypotheses: &[CodedEquation],
    named: &mut Numbers,
) -> Result<(), Memory>
    ensures { OnOk result (named.new ≡ named.old ++ flat_map boxes_in_equation hypotheses.now) }
{
    for hypothesis in hypotheses {
        push_equation_boxes(alloc, hypothesis, named)?;
    }
    Ok(())
}

fn push_binding_boxes(
    alloc: Global,
    bindings: &[Binding],
    named: &mut Numbers,
) -> Result<(), Memory>
    ensures { OnOk result (named.new ≡ named.old ++ flat_map boxes_in_binding bindings.now) }
{
    for binding in bindings {
        push_boxes(alloc, &binding.term, named)?;
    }
    Ok(())
}

// The boxes whose constants a term has. What waits is kept in memory and not on the stack, so it may be of any depth.
fn push_boxes(alloc: Global, term: &Coded, named: &mut Numbers) -> Result<(), Memory>
    ensures { OnOk result (named.new ≡ named.old ++ boxes_in term.now) }
{
    let mut waiting = Stack::new(alloc);
    take_term(term, named, &mut waiting)?;
    'terms: loop {
        let Some(rest) = waiting.pop() else {
            return Ok(());
        };
        take_first(rest, named, &mut waiting)?;
    }
}

// Takes the first of some terms; the others wait.
fn take_first<'a>(
    rest: Rest<'a>,
    named: &mut Numbers,
    waiting: &mut Stack<Rest<'a>>,
) -> Result<(), Memory>
    ensures boxes { OnOk result (named.new ++ boxes_to_come waiting.new
        ≡ named.old ++ (flat_map boxes_in rest.entry.terms.now ++ boxes_to_come waiting.old)) }
    ensures steps { OnOk result (steps_to_come waiting.new
        < 1 + 2 * coded_nodes_all (coded_forest_of rest.entry.terms.now) + steps_to_come waiting.old) }
{
    let [first, others @ ..] = rest.terms else {
        return Ok(());
    };
    waiting.push(Rest { terms: others })?;
    take_term(first, named, waiting)
}

// Takes a term at its root; its arguments wait.
#[tactic(auto, using(crate::proofs::Collected::boxes_of_list))]
fn take_term<'a>(
    term: &'a Coded,
    named: &mut Numbers,
    waiting: &mut Stack<Rest<'a>>,
) -> Result<(), Memory>
    ensures boxes { OnOk result (named.new ++ boxes_to_come waiting.new
        ≡ named.old ++ (boxes_in term.now ++ boxes_to_come waiting.old)) }
    ensures steps { OnOk result (steps_to_come waiting.new < 2 * coded_nodes term.now + steps_to_come waiting.old) }
{
    match term.node() {
        CodedNode::Var(_, _) => Ok(()),
        CodedNode::App(symbol, arguments) => take_application(*symbol, arguments, named, waiting),
    }
}

fn take_application<'a>(
    symbol: Symbol,
    arguments: &'a CodedTerms,
    named: &mut Numbers,
    waiting: &mut Stack<Rest<'a>>,
) -> Result<(), Memory>
    ensures named { OnOk result (named.new ≡ named.old ++ box_of_symbol symbol) }
    ensures boxes { OnOk result (boxes_to_come waiting.new
        ≡ flat_map boxes_in arguments.now ++ boxes_to_come waiting.old) }
    ensures steps { OnOk result (steps_to_come waiting.new
        ≡ 1 + 2 * coded_nodes_all (coded_forest_of arguments.now) + steps_to_come waiting.old) }
{
    waiting.push(Rest {
        terms: arguments.as_slice(),
    })?;
    match symbol {
        Symbol::Constant(number, _) => named.push(number),
        Symbol::Own(_) | Symbol::BuiltIn(_) => Ok(()),
    }
}
