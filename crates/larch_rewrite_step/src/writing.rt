ghost use Rattle.std.specs.Prelude.{◌≡◌, map, IfOk, OnErr};
ghost use Rattle.larch_rewrite_step.specs.Encoding.{AreEncodings, AreOfStore};
ghost use Rattle.larch_certificate.specs.Coded.{coded_forest_of, coded_var};
ghost use Rattle.larch_derive.specs.Builder.{IsCodeIn, boxes_in, theory_in};
ghost use Rattle.larch_derive.specs.Coding.{AreCodesOf};
ghost use Rattle.larch_derive.specs.Predicates.{Extends, HasEquation, Known};
ghost use Rattle.larch_derive_lines.specs.Rules.{AreWritten};
ghost use Rattle.larch_rewrite_match.specs.Bound.{AreBound, entries_of, entry_of};
ghost use Rattle.larch_store.specs.Numbered.{term_of};
ghost use Rattle.larch_store.specs.Stored.{AllBelong, Belongs};
ghost use Rattle.larch_term.specs.Tree.{forest_of};

use crate::encoding::Encodings;
use larch_base::{Memory, Name, Sequence};
use larch_certificate::{Binding, Bindings, Coded, CodedTerms, Line};
use larch_derive::Builder;
use larch_rewrite_match::Bound;
use larch_store::{Shared, SharedNode, Store};
use larch_term::Sort;

/// A line that says that a known shared term equals itself. The term is written, unless it was written before. A
/// refused line leaves the builder as it is.
#[tactic(auto, using(larch_derive::proofs::Growth::extends_same, larch_derive::proofs::Pushing::refl_says, larch_derive::proofs::Pushing::refl_extends))]
pub fn push_shared_refl(
    store: &Store,
    builder: &mut Builder,
    encodings: &mut Encodings,
    term: &Shared,
) -> Result<u64, Memory>
    requires term { Belongs store.now term.now }
    requires encodings { AreOfStore store.now encodings.old }
    ensures says { IfOk result (λ n. Known builder.old (term_of term.now) → AreEncodings builder.old encodings.old
        → HasEquation builder.new n (term_of term.now) (term_of term.now)) }
    ensures extends { Known builder.old (term_of term.now) → AreEncodings builder.old encodings.old
        → Extends builder.old builder.new }
    ensures err { OnErr result (builder.new ≡ builder.old) }
    ensures belong { AreOfStore store.now encodings.new }
    ensures encodings { AreEncodings builder.old encodings.old → AreEncodings builder.old encodings.new }
{
    let term = write(store, builder, encodings, term)?;
    let number = builder.push(Line::Refl(term))?;
    Ok(number)
}

/// What is bound, as the builder's next lines write it. What is written once is kept.
pub(crate) fn write_bound<'a>(
    store: &Store,
    builder: &Builder,
    encodings: &mut Encodings,
    bound: &[Bound<'a>],
) -> Result<Bindings, Memory>
    requires bound { AreBound store.now bound.now }
    requires encodings { AreOfStore store.now encodings.old }
    ensures written { IfOk result (λ xs. AreEncodings builder.now encodings.old
        → AreWritten builder.now (entries_of bound.now) xs) }
    ensures belong { AreOfStore store.now encodings.new }
    ensures encodings { AreEncodings builder.now encodings.old → AreEncodings builder.now encodings.new }
{
    let mut bindings = Sequence::new(encodings.allocator());
    for binding in bound {
        let written = write_binding(store, builder, encodings, binding)?;
        bindings.push(written)?;
    }
    Ok(bindings)
}

fn write_binding<'a>(
    store: &Store,
    builder: &Builder,
    encodings: &mut Encodings,
    bound: &Bound<'a>,
) -> Result<Binding, Memory>
    requires bound { Belongs store.now bound.now.term }
    requires encodings { AreOfStore store.now encodings.old }
    ensures name { IfOk result (λ x. x.name ≡ (entry_of bound.now).name) }
    ensures sort { IfOk result (λ x. x.sort ≡ (entry_of bound.now).sort) }
    ensures term { IfOk result (λ x. AreEncodings builder.now encodings.old
        → IsCodeIn builder.now (entry_of bound.now).term x.term) }
    ensures belong { AreOfStore store.now encodings.new }
    ensures encodings { AreEncodings builder.now encodings.old → AreEncodings builder.now encodings.new }
{
    let name = bound.name.copy()?;
    let sort = bound.sort.copy()?;
    let term = write(store, builder, encodings, &bound.term)?;
    Ok(Binding { name, sort, term })
}

// A shared term as the builder's next lines write it. It goes down by recursion to what is kept already.
#[cycle(write)]
#[tactic(auto, using(crate::proofs::Written::found_encoding, crate::proofs::Written::kept_belongs, crate::proofs::Written::kept_encodings, crate::proofs::Written::code_of_variable, crate::proofs::Written::code_of_application))]
fn write(
    store: &Store,
    builder: &Builder,
    encodings: &mut Encodings,
    term: &Shared,
) -> Result<Coded, Memory>
    requires term { Belongs store.now term.now }
    requires encodings { AreOfStore store.now encodings.old }
    ensures written { IfOk result (λ c. AreEncodings builder.now encodings.old
        → IsCodeIn builder.now (term_of term.now) c) }
    ensures belong { AreOfStore store.now encodings.new }
    ensures encodings { AreEncodings builder.now encodings.old → AreEncodings builder.now encodings.new }
{
    store.children_belong();
    if let Some(encoding) = encodings.find(store, term) {
        let coded = encoding.coded.copy()?;
        return Ok(coded);
    }
    match term.node() {
        SharedNode::Variable(name, sort) => {
            let coded = write_variable(name, sort)?;
            Ok(coded)
        }
        SharedNode::Application(operator, arguments) => {
            let arguments = write_all(store, builder, encodings, arguments.as_slice())?;
            let coded = Coded::app(builder.symbol(operator), arguments);
            encodings.keep(store, term, &coded)?;
            Ok(coded)
        }
    }
}

fn write_variable(name: &Name, sort: &Sort) -> Result<Coded, Memory>
    ensures { IfOk result (λ c. c ≡ coded_var name.now sort.now) }
{
    let name = name.copy()?;
    let sort = sort.copy()?;
    Ok(Coded::var(name, sort))
}

#[cycle(write)]
fn write_all(
    store: &Store,
    builder: &Builder,
    encodings: &mut Encodings,
    terms: &[Shared],
) -> Result<CodedTerms, Memory>
    requires terms { AllBelong store.now terms.now }
    requires encodings { AreOfStore store.now encodings.old }
    ensures written { IfOk result (λ cs. AreEncodings builder.now encodings.old
        → AreCodesOf (boxes_in builder.now) (theory_in builder.now).operators (forest_of (map term_of terms.now))
        (coded_forest_of cs)) }
    ensures belong { AreOfStore store.now encodings.new }
    ensures encodings { AreEncodings builder.now encodings.old → AreEncodings builder.now encodings.new }
{
    let mut items = Vec::with_capacity(encodings.allocator(), terms.len())?;
    for term in terms {
        let coded = write(store, builder, encodings, term)?;
        items.push(coded)?;
    }
    let written = CodedTerms::from_vec(items)?;
    Ok(written)
}
