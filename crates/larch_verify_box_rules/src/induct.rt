ghost use Rattle.std.specs.Prelude.{◌≡◌, false, IfOk, IfSome, OnOk};
ghost use Rattle.std.specs.Option.{option_map, option_map_or, option_and_then};
ghost use Rattle.larch_verify_meaning.specs.BoxRules.{induct_says, induct_over, shows_case, shows_cases};
ghost use Rattle.larch_verify_meaning.specs.Context.{find_symbol, find_line, find_closed};
ghost use Rattle.larch_verify_pool.specs.Pooled.{Pooled, tree_in, Grows};
ghost use Rattle.larch_verify_history.specs.Past.{IsPast, IsEquated, equated_in, history_of, stated_in};
ghost use Rattle.larch_verify_box_rules.specs.Inductions.{IsInductive, generators_of};

use crate::showing::{Inductive, shows_case};
use larch_base::Memory;
use larch_certificate::{CodedEquation, CodedVar};
use larch_term::{Operator, Sort};
use larch_verify_decoding::{decode_equation, decode_variable};
use larch_verify_history::{Context, Equated, Stated};
use larch_verify_pool::Pool;
use std::alloc::Global;

/// What a line says by induction: an equation, and the variable that the induction is on.
#[derive(Drop)]
pub struct Induction<'a> {
    pub variable: &'a CodedVar,
    pub equation: &'a CodedEquation,
}

/// An equation by induction on a variable: a line says what generates its sort, and for each generator, in order, a
/// closed box shows the equation of what it makes.
pub fn judge_induct(
    alloc: Global,
    pool: &mut Pool,
    context: &Context<'_>,
    clause: u64,
    induction: &Induction<'_>,
    boxes: &[u64],
) -> Result<Option<Equated>, Memory>
    requires { IsPast context.now.theory.now pool.old context.now.past.now }
    ensures within { IfOk result (λ o. IfSome o (IsEquated pool.new)) }
    ensures says { IfOk result (λ o. option_map (equated_in pool.new) o
        ≡ induct_says (find_symbol context.now.theory.now (history_of pool.old context.now.past.now))
        (history_of pool.old context.now.past.now) clause induction.now.variable.now induction.now.equation.now
        boxes.now) }
    ensures grows { OnOk result (Grows pool.old pool.new) }
{
    let sides = decode_equation(alloc, pool, context, induction.equation)?;
    let Some(sides) = sides else {
        return Ok(None);
    };
    let variable = induction.variable;
    let number = decode_variable(pool, &variable.name, &variable.sort)?;
    let inductive = Inductive {
        variable,
        number,
        sides,
    };
    let shown = induct_over(alloc, pool, context, clause, &inductive, boxes)?;
    Ok(shown)
}

// The equation, if a line says what generates the variable's sort and boxes show it of what each generator makes.
fn induct_over(
    alloc: Global,
    pool: &mut Pool,
    context: &Context<'_>,
    clause: u64,
    inductive: &Inductive<'_>,
    boxes: &[u64],
) -> Result<Option<Equated>, Memory>
    requires past { IsPast context.now.theory.now pool.old context.now.past.now }
    requires inductive { IsInductive pool.old inductive.now }
    ensures within { IfOk result (λ o. IfSome o (IsEquated pool.new)) }
    ensures says { IfOk result (λ o. option_map (equated_in pool.new) o
        ≡ option_and_then (induct_over (history_of pool.old context.now.past.now) inductive.now.variable.now boxes.now
        (equated_in pool.old inductive.now.sides)) (find_line (history_of pool.old context.now.past.now) clause)) }
    ensures grows { OnOk result (Grows pool.old pool.new) }
{
    let Some(stated) = context.past.line(clause) else {
        return Ok(None);
    };
    let Some(generators) = generators_of(stated, &inductive.variable.sort) else {
        return Ok(None);
    };
    let shows = shows_all(alloc, pool, context, inductive, generators, boxes)?;
    if !shows {
        return Ok(None);
    }
    Ok(Some(inductive.sides))
}

// The operators that a statement says generate a sort. It takes no memory.
fn generators_of<'a>(stated: &'a Stated, sort: &Sort) -> Option<&'a [Operator]>
    ensures { (p : Pooled) → option_map (λ fs. fs.now) result ≡ generators_of sort.now (stated_in p stated.now) }
{
    match stated {
        Stated::Generates(generated, generators) => {
            if generated != sort {
                return None;
            }
            Some(generators.as_slice())
        }
        Stated::Equal(_) => None,
        Stated::Partitions(_, _) => None,
    }
}

// Whether there is a closed box for each generator, in order, that shows the equation of what it makes, and no further
// one.
fn shows_all(
    alloc: Global,
    pool: &mut Pool,
    context: &Context<'_>,
    inductive: &Inductive<'_>,
    generators: &[Operator],
    boxes: &[u64],
) -> Result<bool, Memory>
    requires past { IsPast context.now.theory.now pool.old context.now.past.now }
    requires inductive { IsInductive pool.old inductive.now }
    ensures shows { IfOk result (λ b. b ≡ shows_cases (history_of pool.old context.now.past.now)
        inductive.now.variable.now (equated_in pool.old inductive.now.sides) generators.now boxes.now) }
    ensures grows { OnOk result (Grows pool.old pool.new) }
{
    if generators.len() != boxes.len() {
        return Ok(false);
    }
    for i in 0..generators.len() {
        let generator = &generators[i];
        let shows = box_shows(alloc, pool, context, inductive, generator, boxes[i])?;
        if !shows {
            return Ok(false);
        }
    }
    Ok(true)
}

// Whether the closed box with a number shows the equation of what a generator makes.
fn box_shows(
    alloc: Global,
    pool: &mut Pool,
    context: &Context<'_>,
    inductive: &Inductive<'_>,
    generator: &Operator,
    of_box: u64,
) -> Result<bool, Memory>
    requires past { IsPast context.now.theory.now pool.old context.now.past.now }
    requires inductive { IsInductive pool.old inductive.now }
    ensures shows { IfOk result (λ b. b ≡ option_map_or
        (shows_case inductive.now.variable.now (tree_in pool.old.trees inductive.now.sides.left)
        (tree_in pool.old.trees inductive.now.sides.right) generator.now)
        (find_closed (history_of pool.old context.now.past.now) of_box) false) }
    ensures grows { OnOk result (Grows pool.old pool.new) }
{
    let Some((known, stated)) = context.past.closed_box(of_box) else {
        return Ok(false);
    };
    let shows = shows_case(alloc, pool, inductive, generator, known, stated)?;
    Ok(shows)
}
