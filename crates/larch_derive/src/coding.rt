ghost use Rattle.std.specs.Prelude.{IfOk};
ghost use Rattle.larch_term.specs.Tree.{forest_of};
ghost use Rattle.larch_certificate_text.specs.CertificateCoded.{coded_forest_of};
ghost use Rattle.larch_certificate_text.specs.SymbolText.{FitSymbol};
ghost use Rattle.larch_derive.specs.Coding.{IsNameOf, IsCodeOf, AreCodesOf, AreCodesOfEquations};

use crate::open_box::{OpenBox, constant_of};
use crate::shared_theory::SharedTheory;
use larch_certificate_text::from_certificate::{
    Coded, CodedEquation, CodedEquations, CodedTerms, Symbol,
};
use larch_term::from_base::{Memory, Sequence};
use larch_term::{Node, Operator, Statement, Term, Terms, built_in_of};
use std::alloc::Global;

// What names an operator in lines.
pub(crate) fn symbol_of(theory: &SharedTheory, boxes: &[OpenBox], operator: &Operator) -> Symbol
    ensures name { IsNameOf boxes.now theory.now.operators operator.now result }
    ensures fits { FitSymbol result }
{
    if let Some((number, place)) = constant_of(boxes, operator) {
        return Symbol::Constant(number, place);
    }
    if let Some(built_in) = built_in_of(operator) {
        return Symbol::BuiltIn(built_in);
    }
    match theory.place_of(operator) {
        Some(place) => Symbol::Own(place),
        None => Symbol::Own(0),
    }
}

// The term as lines write it.
#[cycle(code)]
#[tactic(auto, using(larch_term::specs::Tree::nodes_all_is_sum))]
pub(crate) fn code(
    alloc: Global,
    theory: &SharedTheory,
    boxes: &[OpenBox],
    term: &Term,
) -> Result<Coded, Memory>
    ensures { IfOk result (IsCodeOf boxes.now theory.now.operators term.now) }
{
    match term.node() {
        Node::Var(name, sort) => {
            let name = name.copy()?;
            let sort = sort.copy()?;
            Ok(Coded::var(name, sort))
        }
        Node::App(operator, arguments) => {
            let arguments = code_all(alloc, theory, boxes, arguments)?;
            Ok(Coded::app(symbol_of(theory, boxes, operator), arguments))
        }
    }
}

#[cycle(code)]
#[tactic(auto, using(larch_term::specs::Tree::nodes_all_is_sum))]
fn code_all(
    alloc: Global,
    theory: &SharedTheory,
    boxes: &[OpenBox],
    terms: &Terms,
) -> Result<CodedTerms, Memory>
    ensures { IfOk result (λ cs. AreCodesOf boxes.now theory.now.operators (forest_of terms.now) (coded_forest_of cs)) }
{
    let mut items = Vec::with_capacity(alloc, terms.as_slice().len())?;
    for term in terms.as_slice() {
        let coded = code(alloc, theory, boxes, term)?;
        items.push(coded)?;
    }
    let arguments = CodedTerms::from_vec(items)?;
    Ok(arguments)
}

// The equations among statements as lines write them.
pub(crate) fn code_equations(
    alloc: Global,
    theory: &SharedTheory,
    boxes: &[OpenBox],
    statements: &[Statement],
) -> Result<CodedEquations, Memory>
    ensures { IfOk result (AreCodesOfEquations boxes.now theory.now.operators statements.now) }
{
    let mut equations = Sequence::new(alloc);
    for statement in statements {
        match statement {
            Statement::Equation(left, right) => {
                let left = code(alloc, theory, boxes, left)?;
                let right = code(alloc, theory, boxes, right)?;
                equations.push(CodedEquation { left, right })?;
            }
            Statement::Generated(_, _) => {}
            Statement::Partitioned(_, _) => {}
        }
    }
    Ok(equations)
}
