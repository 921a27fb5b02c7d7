ghost use Rattle.std.specs.Prelude.{◌≡◌, ℕ, List, ◌∷◌, map, length, true, Some, IfOk, OnOk, OnErr};
ghost use Rattle.std.specs.List.{slice_get};
ghost use Rattle.larch_term.specs.Statement.{IsStatementOver, statement_zero};
ghost use Rattle.larch_term.specs.Substitution.{instance_of};
ghost use Rattle.larch_term.specs.Truth.{truth};
ghost use Rattle.larch_term.specs.declared.statement.Statement.{Statement};
ghost use Rattle.larch_term.specs.declared.substitution.Entry.{Entry};
ghost use Rattle.larch_derive.specs.CalculusFormula.{equality};
ghost use Rattle.larch_derive.specs.VerifyMeaningMatching.{all_different};
ghost use Rattle.larch_derive.specs.VerifyMeaningRules.{row_says};
ghost use Rattle.larch_derive.specs.Builder.{IsCodeIn, lines_in, theory_in};
ghost use Rattle.larch_derive_lines.specs.Rules.{variable_in, AreKnownEntries, AreWritten, IsWordedSort};
ghost use Rattle.larch_term.specs.Place.{at, put};
ghost use Rattle.larch_term.specs.Tree.{Tree};
ghost use Rattle.larch_derive.specs.Predicates.{HasNoBadLine, Known, HasStatement, HasEquation, Extends};

use larch_derive::Builder;
use larch_derive::from_certificate::{Binding, Bindings, Line, Path};
use larch_term::from_base::{Memory, Sequence};
use larch_term::{Entry, Sort, Substitution, Term};
use std::alloc::Global;

/// A line that says that a known term equals itself. It answers the line's number; a refused line changes nothing.
#[tactic(auto, using(larch_derive::proofs::Pushing::refl_says, larch_derive::proofs::Pushing::refl_extends))]
pub fn push_refl(builder: &mut Builder, term: &Term) -> Result<u64, Memory>
    ensures says { IfOk result (λ n. Known builder.old term.now → HasEquation builder.new n term.now term.now) }
    ensures extends { OnOk result (Known builder.old term.now → Extends builder.old builder.new) }
    ensures err { OnErr result (builder.new ≡ builder.old) }
{
    let term = builder.code(term)?;
    let number = builder.push(Line::Refl(term))?;
    Ok(number)
}

/// A line that says what another one says, with the sides exchanged. A refused line changes nothing.
#[tactic(auto, using(larch_derive::proofs::Pushing::sym_says, larch_derive::proofs::Pushing::sym_extends))]
pub fn push_sym(builder: &mut Builder, line: u64) -> Result<u64, Memory>
    ensures says { IfOk result (λ n. (l r : Tree) → HasEquation builder.old line l r → HasEquation builder.new n r l) }
    ensures extends { OnOk result ((l r : Tree) → HasEquation builder.old line l r → Extends builder.old builder.new) }
    ensures err { OnErr result (builder.new ≡ builder.old) }
{
    let number = builder.push(Line::Sym(line))?;
    Ok(number)
}

/// A line that says what another one says, with the right side of a further one at a place of its right side, where the
/// left side of the further one stands. A refused line changes nothing.
#[tactic(auto, using(larch_derive::proofs::Pushing::repl_says, larch_derive::proofs::Pushing::repl_extends))]
pub fn push_repl(builder: &mut Builder, line: u64, place: Path, by: u64) -> Result<u64, Memory>
    ensures says { IfOk result (λ n. (l r u v : Tree) → HasEquation builder.old line l r
        → HasEquation builder.old by u v
        → at r place ≡ Some u → HasEquation builder.new n l (put r place v)) }
    ensures extends { OnOk result ((l r u v : Tree) → HasEquation builder.old line l r → HasEquation builder.old by u v
        → at r place ≡ Some u → Extends builder.old builder.new) }
    ensures err { OnErr result (builder.new ≡ builder.old) }
{
    let number = builder.push(Line::Repl(line, place, by))?;
    Ok(number)
}

/// A line that says that the left side of a line equals the right side of another one, whose left side is the first
/// one's right side. A refused line changes nothing.
#[tactic(auto, using(larch_derive::proofs::Pushing::trans_says, larch_derive::proofs::Pushing::trans_extends))]
pub fn push_trans(alloc: Global, builder: &mut Builder, line: u64, by: u64) -> Result<u64, Memory>
    ensures says { IfOk result (λ n. (l r v : Tree) → HasEquation builder.old line l r → HasEquation builder.old by r v
        → HasEquation builder.new n l v) }
    ensures extends { OnOk result ((l r v : Tree) → HasEquation builder.old line l r → HasEquation builder.old by r v
        → Extends builder.old builder.new) }
    ensures err { OnErr result (builder.new ≡ builder.old) }
{
    let number = builder.push(Line::Repl(line, Sequence::new(alloc), by))?;
    Ok(number)
}

/// A line that says what another one says with variables replaced, all at once. The entries are of different variables,
/// and their terms known. A refused line changes nothing.
#[tactic(auto, using(crate::proofs::Instances::inst_says, crate::proofs::Instances::inst_extends))]
pub fn push_inst(
    alloc: Global,
    builder: &mut Builder,
    line: u64,
    by: &Substitution,
) -> Result<u64, Memory>
    ensures says { IfOk result (λ n. (l r : Tree) → HasEquation builder.old line l r
        → AreKnownEntries builder.old by.now
        → all_different (map variable_in by.now) ≡ true
        → HasEquation builder.new n (instance_of by.now l) (instance_of by.now r)) }
    ensures extends { OnOk result ((l r : Tree) → HasEquation builder.old line l r → AreKnownEntries builder.old by.now
        → all_different (map variable_in by.now) ≡ true → Extends builder.old builder.new) }
    ensures err { OnErr result (builder.new ≡ builder.old) }
{
    let bindings = write_entries(alloc, builder, by.as_slice())?;
    let number = builder.push(Line::Inst(line, bindings))?;
    Ok(number)
}

/// A line that says once more what another one says, so that it is the last. A refused line changes nothing.
#[tactic(auto, using(larch_derive::proofs::Pushing::again_says, larch_derive::proofs::Pushing::again_extends, larch_derive::proofs::Accepting::pushed_last))]
pub fn push_again(alloc: Global, builder: &mut Builder, line: u64) -> Result<u64, Memory>
    ensures says { IfOk result (λ n. (l r : Tree) → HasEquation builder.old line l r → HasEquation builder.new n l r) }
    ensures last { IfOk result (λ n. n ≡ length (lines_in builder.new)) }
    ensures extends { OnOk result ((l r : Tree) → HasEquation builder.old line l r → Extends builder.old builder.new) }
    ensures err { OnErr result (builder.new ≡ builder.old) }
{
    let number = builder.push(Line::Inst(line, Sequence::new(alloc)))?;
    Ok(number)
}

/// A line that says what another one says with variables replaced, all at once, by entries that are written already.
/// The entries are of different variables, and their terms known. A refused line changes nothing.
#[tactic(auto, using(crate::proofs::Instances::inst_says, crate::proofs::Instances::inst_extends))]
pub fn push_written_inst(
    builder: &mut Builder,
    line: u64,
    bindings: Bindings,
) -> Result<u64, Memory>
    ensures says { IfOk result (λ n. (es : List Entry) (l r : Tree) → AreWritten builder.old es bindings
        → HasEquation builder.old line l r → AreKnownEntries builder.old es
        → all_different (map variable_in es) ≡ true
        → HasEquation builder.new n (instance_of es l) (instance_of es r)) }
    ensures extends { OnOk result ((es : List Entry) (l r : Tree) → AreWritten builder.old es bindings
        → HasEquation builder.old line l r → AreKnownEntries builder.old es
        → all_different (map variable_in es) ≡ true → Extends builder.old builder.new) }
    ensures err { OnErr result (builder.new ≡ builder.old) }
{
    let pushed = builder.push(Line::Inst(line, bindings))?;
    Ok(pushed)
}

// The entries as the builder's next lines write them.
fn write_entries(alloc: Global, builder: &Builder, entries: &[Entry]) -> Result<Bindings, Memory>
    ensures { IfOk result (AreWritten builder.now entries.now) }
{
    let mut bindings = Sequence::new(alloc);
    for entry in entries {
        let binding = write_entry(builder, entry)?;
        bindings.push(binding)?;
    }
    Ok(bindings)
}

fn write_entry(builder: &Builder, entry: &Entry) -> Result<Binding, Memory>
    ensures name { IfOk result (λ binding. binding.name ≡ entry.now.name) }
    ensures sort { IfOk result (λ binding. binding.sort ≡ entry.now.sort) }
    ensures term { IfOk result (λ binding. IsCodeIn builder.now entry.now.term binding.term) }
{
    let name = entry.name.copy()?;
    let sort = entry.sort.copy()?;
    let term = builder.code(&entry.term)?;
    Ok(Binding { name, sort, term })
}

/// A line that says a statement of the theory by its number, counted from 1; 0 is that the truth values are generated
/// by true and false. A refused line changes nothing.
#[tactic(auto, using(crate::proofs::Stated::axiom_says, crate::proofs::Stated::axiom_extends))]
pub fn push_axiom(builder: &mut Builder, statement: u64) -> Result<u64, Memory>
    ensures says { IfOk result (λ n. (s : Statement) → HasNoBadLine builder.old
        → slice_get (statement_zero ∷ (theory_in builder.old).statements) statement ≡ Some s
        → IsStatementOver (theory_in builder.old).operators s → HasStatement builder.new n s) }
    ensures extends { OnOk result ((s : Statement) → HasNoBadLine builder.old
        → slice_get (statement_zero ∷ (theory_in builder.old).statements) statement ≡ Some s
        → Extends builder.old builder.new) }
    ensures err { OnErr result (builder.new ≡ builder.old) }
{
    let number = builder.push(Line::Axiom(statement))?;
    Ok(number)
}

/// A line that says a built-in row, at a sort, which is a word, where the row has one. A refused line changes nothing.
#[tactic(auto, using(crate::proofs::Stated::row_line_says, crate::proofs::Stated::row_line_extends))]
pub fn push_row(builder: &mut Builder, row: u64, sort: Option<Sort>) -> Result<u64, Memory>
    ensures says { IfOk result (λ n. (s : Statement) → HasNoBadLine builder.old → row_says row sort ≡ Some s
        → IsWordedSort sort → HasStatement builder.new n s) }
    ensures extends { OnOk result ((s : Statement) → HasNoBadLine builder.old → row_says row sort ≡ Some s
        → IsWordedSort sort → Extends builder.old builder.new) }
    ensures err { OnErr result (builder.new ≡ builder.old) }
{
    let number = builder.push(Line::Row(row, sort))?;
    Ok(number)
}

/// A line that says an equation, from one that says that the equality of its sides is true. A refused line changes
/// nothing.
#[tactic(auto, using(crate::proofs::Stated::equal_line_says, crate::proofs::Stated::equal_line_extends))]
pub fn push_equal(builder: &mut Builder, line: u64) -> Result<u64, Memory>
    ensures says { IfOk result (λ n. (s : List ℕ) (l r : Tree) → HasEquation builder.old line (equality s l r) truth
        → HasEquation builder.new n l r) }
    ensures extends { OnOk result ((s : List ℕ) (l r : Tree) → HasEquation builder.old line (equality s l r) truth
        → Extends builder.old builder.new) }
    ensures err { OnErr result (builder.new ≡ builder.old) }
{
    let number = builder.push(Line::Equal(line))?;
    Ok(number)
}
