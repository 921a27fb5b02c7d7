ghost use Rattle.std.specs.Prelude.{◌≡◌, ◌≢◌, ◌∷◌, [], ℕ, List, All, Contains, IsSome, IfSome, OnOk, Option};
ghost use Rattle.std.specs.Prelude.{option_map};
ghost use Rattle.larch_calculus.specs.Formula.{formula};
ghost use Rattle.larch_derive.specs.Builder.{lines_in};
ghost use Rattle.larch_derive.specs.Finished.{IsFinished};
ghost use Rattle.larch_derive.specs.Predicates.{HasEquation};
ghost use Rattle.larch_derive.specs.declared.open_box.OpenBox.{OpenBox as IsOpenBox};
ghost use Rattle.larch_prove_boxes.specs.BoxLists.{box_list, boxes_with};
ghost use Rattle.larch_prove_boxes.specs.Finishing.{HasEntrance};
ghost use Rattle.larch_prove_invariant.specs.Book.{Book, Kept, SupposingBox};
ghost use Rattle.larch_prove_invariant.specs.Holding.{EntersClause, IsEntered};
ghost use Rattle.larch_prove_invariant.specs.Leaving.{Leaving};
ghost use Rattle.larch_prove_invariant.specs.ProvePlansClauseGoals.{generation_goal, partition_goal};
ghost use Rattle.larch_term.specs.Statement.{IsStatementOver};
ghost use Rattle.larch_term.specs.Truth.{truth};
ghost use Rattle.larch_term.specs.declared.statement.Statement.{Statement as IsStatement};
ghost use Rattle.larch_term.specs.declared.statement.Statement.TheVariants.{Equation, Generated, Partitioned};
ghost use Rattle.larch_term.specs.declared.statement.Theory.{Theory as IsTheory};
ghost use Rattle.larch_traits_items.specs.Laws.{NamesOwn};

use larch_base::Memory;
use larch_derive::{Builder, OpenBox};
use larch_prove_invariant::from_derive_formulas::push_equation;
use larch_prove_invariant::from_derive_lines::push_again;
use larch_prove_invariant::from_methods::{Clause, finish_generated, finish_partitioned};
use larch_term::{Statement, Term, Theory};
use std::alloc::Global;

/// Ends a certificate, where the boxes for constants of the lowest level are closed and a line says that its first goal
/// is true: by the equation that it is for, or in the box of the level by the clause. The certificate can be handed
/// over then.
#[tactic(auto, using(crate::proofs::Ends::generation_boxed, crate::proofs::Ends::partition_boxed))]
pub fn end_duty(
    alloc: Global,
    builder: &mut Builder,
    theory: &Theory,
    statement: &Statement,
    entrance: Option<&OpenBox>,
    line: u64,
) -> Result<(), Memory>
    requires entrance { HasEntrance statement.now (option_map (λ x. x.now) entrance) }
    requires named { NamesOwn theory.now.operators statement.now }
    ensures { OnOk result ((t : IsTheory) (s : IsStatement) (k : Kept) → theory.now ≡ t → statement.now ≡ s
        → IsStatementOver t.operators s → IsEntered s [] k
        → boxes_with k.book.entrance ≡ box_list (option_map (λ x. x.now) entrance.entry)
        → Leaving t s builder.old k.book.entrance [] → HasEquation builder.old line k.book.first truth
        → IsFinished t s (lines_in builder.new)) }
{
    match statement {
        Statement::Equation(left, right) => end_equation(alloc, builder, left, right, line),
        Statement::Generated(sort, operators) => {
            let clause = Clause {
                sort,
                operators: operators.as_slice(),
            };
            end_generation(alloc, builder, theory, &clause, number_of(entrance), line)
        }
        Statement::Partitioned(sort, operators) => {
            let clause = Clause {
                sort,
                operators: operators.as_slice(),
            };
            end_partition(alloc, builder, theory, &clause, number_of(entrance), line)
        }
    }
}

/// A law, without work: a level that was entered for a clause has a box, so that it can be handed over.
pub fn clauses_have_boxes()
    ensures { (s : IsStatement) (k : Kept) (entrance : Option IsOpenBox) → IsEntered s [] k
        → boxes_with k.book.entrance ≡ box_list entrance → HasEntrance s entrance }
{}

// The number of the box in which a clause is shown.
fn number_of(entrance: Option<&OpenBox>) -> u64
    requires { IsSome (option_map (λ x. x.now) entrance) }
    ensures { IfSome (option_map (λ x. x.now) entrance.entry) (λ x. result ≡ x.number) }
{
    let Some(entrance) = entrance else {
        unreachable!()
    };
    entrance.number
}

// Ends the certificate of an equation.
fn end_equation(
    alloc: Global,
    builder: &mut Builder,
    left: &Term,
    right: &Term,
    line: u64,
) -> Result<(), Memory>
    ensures { OnOk result ((t : IsTheory) (s : IsStatement) → Leaving t s builder.old [] []
        → HasEquation builder.old line (formula left.now right.now) truth
        → IsFinished t (Equation left.now right.now) (lines_in builder.new)) }
{
    let said = push_equation(alloc, builder, left, right, line)?;
    push_again(alloc, builder, said)?;
    Ok(())
}

// Ends the certificate of a clause that generates a sort, by the number of its box.
#[tactic(auto, using(crate::proofs::Ends::never_none))]
fn end_generation(
    alloc: Global,
    builder: &mut Builder,
    theory: &Theory,
    clause: &Clause<'_>,
    number: u64,
    line: u64,
) -> Result<(), Memory>
    requires { All (Contains theory.now.operators) clause.now.operators.now }
    ensures { OnOk result ((s : IsStatement) (n : List ℕ) (k : Book) (x : SupposingBox)
        → IsStatementOver theory.now.operators (Generated clause.now.sort.now clause.now.operators.now)
        → EntersClause (generation_goal n clause.now.sort.now clause.now.operators.now) k
        → k.entrance ≡ x ∷ [] → x.box.number ≡ number → Leaving theory.now s builder.old k.entrance []
        → HasEquation builder.old line k.first truth
        → IsFinished theory.now (Generated clause.now.sort.now clause.now.operators.now) (lines_in builder.new)) }
{
    let said = finish_generated(alloc, builder, theory, clause, number, line)?;
    let Some(_) = said else { unreachable!() };
    Ok(())
}

// Ends the certificate of a clause that partitions a sort, by the number of its box.
#[tactic(auto, using(crate::proofs::Ends::never_none))]
fn end_partition(
    alloc: Global,
    builder: &mut Builder,
    theory: &Theory,
    clause: &Clause<'_>,
    number: u64,
    line: u64,
) -> Result<(), Memory>
    requires { All (Contains theory.now.operators) clause.now.operators.now }
    ensures { OnOk result ((s : IsStatement) (n m : List ℕ) (k : Book) (x : SupposingBox) → n ≢ m
        → IsStatementOver theory.now.operators (Partitioned clause.now.sort.now clause.now.operators.now)
        → EntersClause (partition_goal n m clause.now.sort.now clause.now.operators.now) k
        → k.entrance ≡ x ∷ [] → x.box.number ≡ number → Leaving theory.now s builder.old k.entrance []
        → HasEquation builder.old line k.first truth
        → IsFinished theory.now (Partitioned clause.now.sort.now clause.now.operators.now) (lines_in builder.new)) }
{
    let said = finish_partitioned(alloc, builder, theory, clause, number, line)?;
    let Some(_) = said else { unreachable!() };
    Ok(())
}
