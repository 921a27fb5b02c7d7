ghost use Rattle.std.specs.Prelude.{◌≡◌, ◌<◌, false, IfOk, OnOk, All, length, map};
ghost use Rattle.larch_term.specs.Equality.{same_statement};
ghost use Rattle.larch_term.specs.Tree.{app};
ghost use Rattle.larch_calculus.specs.Generation.{constant_terms};
ghost use Rattle.larch_verify_meaning.specs.BoxRules.{shows_case};
ghost use Rattle.larch_verify_meaning.specs.Events.{operators_from};
ghost use Rattle.larch_verify_meaning.specs.Matching.{same_statements};
ghost use Rattle.larch_verify_pool.specs.Pooled.{tree_in, Grows, HasTree};
ghost use Rattle.larch_verify_history.specs.Past.{IsBox, IsEquated, IsStated, box_in, equated_in, stated_in};
ghost use Rattle.larch_verify_box_rules.specs.Inductions.{IsInductive, equation_with, hypotheses_from};

use crate::matching::{constant_in, constants_in, has_constants};
use larch_base::Memory;
use larch_certificate::CodedVar;
use larch_term::Operator;
use larch_verify_history::{Equated, KnownBox, Stated, same_equated};
use larch_verify_parts::sides_of;
use larch_verify_pool::{Pool, PoolBinding, intern_operator, substitute};
use std::alloc::Global;

/// What is shown by induction: the variable that the induction is on, its number, and an equation by numbers.
#[derive(Drop)]
pub struct Inductive<'a> {
    pub variable: &'a CodedVar,
    pub number: u32,
    pub sides: Equated,
}

/// Whether a closed box shows an equation of what a generator makes: it has a constant for each of the generator's
/// arguments, it supposes the equation of those of the variable's sort, and its result is the equation with what the
/// generator makes of them.
pub fn shows_case(
    alloc: Global,
    pool: &mut Pool,
    inductive: &Inductive<'_>,
    generator: &Operator,
    known: &KnownBox,
    stated: &Stated,
) -> Result<bool, Memory>
    requires inductive { IsInductive pool.old inductive.now }
    requires known { IsBox pool.old known.now }
    requires stated { IsStated pool.old stated.now }
    ensures shows { IfOk result (λ b. b ≡ shows_case inductive.now.variable.now
        (tree_in pool.old.trees inductive.now.sides.left) (tree_in pool.old.trees inductive.now.sides.right)
        generator.now (box_in pool.old known.now, stated_in pool.old stated.now)) }
    ensures grows { OnOk result (Grows pool.old pool.new) }
{
    if !has_constants(known, generator.domain()) {
        return Ok(false);
    }
    let supposes = supposes_cases(alloc, pool, inductive, known)?;
    if !supposes {
        return Ok(false);
    }
    let results = has_result(alloc, pool, inductive, generator, known, stated)?;
    Ok(results)
}

// Whether a box of constants supposes the equation of each that has the variable's sort, in order, and nothing else.
fn supposes_cases(
    alloc: Global,
    pool: &mut Pool,
    inductive: &Inductive<'_>,
    known: &KnownBox,
) -> Result<bool, Memory>
    requires inductive { IsInductive pool.old inductive.now }
    requires known { IsBox pool.old known.now }
    requires constants { All (λ p. p.predicate ≡ false) known.now.parts }
    ensures supposes { IfOk result (λ b. b ≡ same_statements (map (equated_in pool.old) known.now.hypotheses)
        (hypotheses_from pool.old inductive.now known.now.number 1 known.now.parts)) }
    ensures grows { OnOk result (Grows pool.old pool.new) }
{
    let parts = known.parts.as_slice();
    let hypotheses = known.hypotheses.as_slice();
    let mut met = 0;
    for i in 0..parts.len() {
        let part = &parts[i];
        if part.sort != inductive.variable.sort {
            continue;
        }
        if met >= hypotheses.len() {
            return Ok(false);
        }
        let image = constant_in(alloc, pool, known.number, i as u64 + 1, part)?;
        let supposes = is_instance(alloc, pool, inductive, image, hypotheses[met])?;
        if !supposes {
            return Ok(false);
        }
        met += 1;
    }
    Ok(met == hypotheses.len())
}

// Whether the result of a box is the equation with what a generator makes of the box's constants.
fn has_result(
    alloc: Global,
    pool: &mut Pool,
    inductive: &Inductive<'_>,
    generator: &Operator,
    known: &KnownBox,
    stated: &Stated,
) -> Result<bool, Memory>
    requires inductive { IsInductive pool.old inductive.now }
    requires stated { IsStated pool.old stated.now }
    ensures result { IfOk result (λ b. b ≡ same_statement (stated_in pool.old stated.now)
        (equation_with pool.old inductive.now
        (app generator.now (constant_terms (operators_from known.now.number 1 known.now.parts))))) }
    ensures grows { OnOk result (Grows pool.old pool.new) }
{
    let Some(sides) = sides_of(stated) else {
        return Ok(false);
    };
    let made = made_of(alloc, pool, generator, known)?;
    let results = is_instance(alloc, pool, inductive, made, sides)?;
    Ok(results)
}

// What a generator makes of a box's constants.
fn made_of(
    alloc: Global,
    pool: &mut Pool,
    generator: &Operator,
    known: &KnownBox,
) -> Result<u32, Memory>
    ensures tree { IfOk result (λ n. HasTree pool.new n
        (app generator.now (constant_terms (operators_from known.now.number 1 known.now.parts)))) }
    ensures grows { OnOk result (Grows pool.old pool.new) }
{
    let constants = constants_in(alloc, pool, known)?;
    let operator = intern_operator(alloc, pool, generator)?;
    let number = pool.apply(operator, constants)?;
    Ok(number)
}

// Whether an equation is the one that is shown with a term for the variable.
fn is_instance(
    alloc: Global,
    pool: &mut Pool,
    inductive: &Inductive<'_>,
    image: u32,
    sides: Equated,
) -> Result<bool, Memory>
    requires inductive { IsInductive pool.old inductive.now }
    requires image { image < length pool.old.trees }
    requires sides { IsEquated pool.old sides }
    ensures instance { IfOk result (λ b. b ≡ same_statement (equated_in pool.old sides)
        (equation_with pool.old inductive.now (tree_in pool.old.trees image))) }
    ensures grows { OnOk result (Grows pool.old pool.new) }
{
    let by = [PoolBinding {
        variable: inductive.number,
        image,
    }];
    let left = substitute(alloc, pool, inductive.sides.left, &by)?;
    let right = substitute(alloc, pool, inductive.sides.right, &by)?;
    Ok(same_equated(pool, sides, Equated { left, right }))
}
