ghost use Rattle.std.specs.Prelude.{◌≡◌, ◌∷◌, codes, IfOk, Some, option_and_then};
ghost use Rattle.larch_certificate.specs.declared.line.Line.TheVariants.{Induct};
ghost use Rattle.larch_certificate_reader.specs.Views.{parts_of};
ghost use Rattle.larch_certificate_text.specs.LineText.{axiom_of, box_by, box_of, cases_of, equal_of, four};
ghost use Rattle.larch_certificate_text.specs.LineText.{four_of, fresh_of, generated_of, goal_part, hyp_of};
ghost use Rattle.larch_certificate_text.specs.LineText.{induct_of, inst_of, observe_of, one_of, partitioned_of};
ghost use Rattle.larch_certificate_text.specs.LineText.{read_by_word, read_done, refl_of, refs_part, repl_of};
ghost use Rattle.larch_certificate_text.specs.LineText.{row_at_of, row_by, row_of, sym_of, three_of, two_of};

use crate::count::{box_by, four, one, three, two};
use crate::named::{
    goal_part, list_part, number_part, operators_part, place_part, ref_part, refs_part, sort_part,
    term_part, variable_part,
};
use crate::names::Names;
use larch_base::{Memory, let_go};
use larch_certificate::{Binding, BoxPart, CodedEquation, CodedVar, Line};
use larch_certificate_text::{Here, RuleWord};

/// What the parts behind the word of a rule say.
pub fn read_by_word(
    names: &mut Names,
    here: Here,
    parts: Option<&[u8]>,
    word: RuleWord,
) -> Result<Option<Line>, Memory>
    ensures { IfOk result (λ line. line ≡ read_by_word here (parts_of parts.entry) word) }
{
    match word {
        RuleWord::Axiom => Ok(read_axiom(here, parts)),
        RuleWord::Hyp => Ok(read_hyp(here, parts)),
        RuleWord::Row => read_row(names, here, parts),
        RuleWord::Refl => read_refl(names, here, parts),
        RuleWord::Sym => Ok(read_sym(here, parts)),
        RuleWord::Inst => read_inst(names, here, parts),
        RuleWord::Repl => read_repl(names, here, parts),
        RuleWord::Equal => Ok(read_equal(here, parts)),
        RuleWord::BoxLine => read_box(names, here, parts),
        RuleWord::Done => Ok(read_done(parts)),
        RuleWord::Fresh => read_fresh(names, here, parts),
        RuleWord::Cases => Ok(read_cases(here, parts)),
        RuleWord::Induct => read_induct(names, here, parts),
        RuleWord::Observe => read_observe(names, here, parts),
        RuleWord::Generated => read_generated(names, here, parts),
        RuleWord::Partitioned => read_partitioned(names, here, parts),
    }
}

fn read_axiom(here: Here, parts: Option<&[u8]>) -> Option<Line>
    ensures { result ≡ option_and_then (axiom_of here) (one_of (parts_of parts.entry)) }
{
    let part = one(parts)?;
    let number = number_part(here, b"statement", part)?;
    Some(Line::Axiom(number))
}

fn read_sym(here: Here, parts: Option<&[u8]>) -> Option<Line>
    ensures { result ≡ option_and_then (sym_of here) (one_of (parts_of parts.entry)) }
{
    let part = one(parts)?;
    let line = ref_part(here, b"line", part)?;
    Some(Line::Sym(line))
}

fn read_equal(here: Here, parts: Option<&[u8]>) -> Option<Line>
    ensures { result ≡ option_and_then (equal_of here) (one_of (parts_of parts.entry)) }
{
    let part = one(parts)?;
    let line = ref_part(here, b"line", part)?;
    Some(Line::Equal(line))
}

fn read_hyp(here: Here, parts: Option<&[u8]>) -> Option<Line>
    ensures { result ≡ option_and_then (hyp_of here) (two_of (parts_of parts.entry)) }
{
    match two(parts) {
        Some((opened, number)) => hyp_of(here, opened, number),
        None => None,
    }
}

fn hyp_of(here: Here, opened: &[u8], number: &[u8]) -> Option<Line>
    ensures { result ≡ hyp_of here (opened.now, number.now) }
{
    let opened = ref_part(here, b"box", opened)?;
    let number = number_part(here, b"number", number)?;
    Some(Line::Hyp(opened, number))
}

fn read_cases(here: Here, parts: Option<&[u8]>) -> Option<Line>
    ensures { result ≡ option_and_then (cases_of here) (two_of (parts_of parts.entry)) }
{
    match two(parts) {
        Some((yes, no)) => cases_of(here, yes, no),
        None => None,
    }
}

fn cases_of(here: Here, yes: &[u8], no: &[u8]) -> Option<Line>
    ensures { result ≡ cases_of here (yes.now, no.now) }
{
    let yes = ref_part(here, b"true", yes)?;
    let no = ref_part(here, b"false", no)?;
    Some(Line::Cases(yes, no))
}

fn read_refl(names: &mut Names, here: Here, parts: Option<&[u8]>) -> Result<Option<Line>, Memory>
    ensures { IfOk result (λ line. line ≡ option_and_then (refl_of here) (one_of (parts_of parts.entry))) }
{
    let Some(part) = one(parts) else {
        return Ok(None);
    };
    match term_part(names, here, part)? {
        Some(term) => Ok(Some(Line::Refl(term))),
        None => Ok(None),
    }
}

fn read_row(names: &mut Names, here: Here, parts: Option<&[u8]>) -> Result<Option<Line>, Memory>
    ensures { IfOk result (λ line. line ≡ row_by here (one_of (parts_of parts.entry)) (two_of (parts_of parts.entry))) }
{
    if let Some(number) = one(parts) {
        return Ok(row_of(here, number));
    }
    match two(parts) {
        Some((number, sort)) => row_at_of(names, here, number, sort),
        None => Ok(None),
    }
}

fn row_of(here: Here, number: &[u8]) -> Option<Line>
    ensures { result ≡ row_of here number.now }
{
    let number = number_part(here, b"number", number)?;
    Some(Line::Row(number, None))
}

fn row_at_of(
    names: &mut Names,
    here: Here,
    number: &[u8],
    sort: &[u8],
) -> Result<Option<Line>, Memory>
    ensures { IfOk result (λ line. line ≡ row_at_of here (number.now, sort.now)) }
{
    let Some(number) = number_part(here, b"number", number) else {
        return Ok(None);
    };
    match sort_part(names, here, sort)? {
        Some(sort) => Ok(Some(Line::Row(number, Some(sort)))),
        None => Ok(None),
    }
}

#[tactic(auto, using(crate::proofs::Fields::done_parts))]
fn read_done(parts: Option<&[u8]>) -> Option<Line>
    ensures { result ≡ read_done (parts_of parts.entry) }
{
    match parts {
        Some(_) => None,
        None => Some(Line::Done),
    }
}

fn read_box(names: &mut Names, here: Here, parts: Option<&[u8]>) -> Result<Option<Line>, Memory>
    ensures { IfOk result (λ line. line ≡ option_and_then (box_of here) (box_by here.relative (parts_of parts.entry))) }
{
    match box_by(here.relative, parts) {
        Some((sorts, hyps)) => box_of(names, here, sorts, hyps),
        None => Ok(None),
    }
}

fn box_of(names: &mut Names, here: Here, sorts: &[u8], hyps: &[u8]) -> Result<Option<Line>, Memory>
    ensures { IfOk result (λ line. line ≡ box_of here (sorts.now, hyps.now)) }
{
    let Some(sorts) = list_part::<BoxPart>(names, here, b"sorts", b',', sorts)? else {
        return Ok(None);
    };
    match list_part::<CodedEquation>(names, here, b"hyps", b';', hyps) {
        Ok(Some(hyps)) => Ok(Some(Line::BoxLine(sorts, hyps))),
        Ok(None) => Ok(let_go(None, sorts)),
        Err(memory) => Err(let_go(memory, sorts)),
    }
}

fn read_inst(names: &mut Names, here: Here, parts: Option<&[u8]>) -> Result<Option<Line>, Memory>
    ensures { IfOk result (λ line. line ≡ option_and_then (inst_of here) (two_of (parts_of parts.entry))) }
{
    match two(parts) {
        Some((line, by)) => inst_of(names, here, line, by),
        None => Ok(None),
    }
}

fn inst_of(names: &mut Names, here: Here, line: &[u8], by: &[u8]) -> Result<Option<Line>, Memory>
    ensures { IfOk result (λ found. found ≡ inst_of here (line.now, by.now)) }
{
    let Some(line) = ref_part(here, b"line", line) else {
        return Ok(None);
    };
    match list_part::<Binding>(names, here, b"by", b';', by)? {
        Some(by) => Ok(Some(Line::Inst(line, by))),
        None => Ok(None),
    }
}

fn read_fresh(names: &mut Names, here: Here, parts: Option<&[u8]>) -> Result<Option<Line>, Memory>
    ensures { IfOk result (λ line. line ≡ option_and_then (fresh_of here) (two_of (parts_of parts.entry))) }
{
    match two(parts) {
        Some((closed, by)) => fresh_of(names, here, closed, by),
        None => Ok(None),
    }
}

fn fresh_of(names: &mut Names, here: Here, closed: &[u8], by: &[u8]) -> Result<Option<Line>, Memory>
    ensures { IfOk result (λ line. line ≡ fresh_of here (closed.now, by.now)) }
{
    let Some(closed) = ref_part(here, b"box", closed) else {
        return Ok(None);
    };
    match list_part::<CodedVar>(names, here, b"by", b';', by)? {
        Some(by) => Ok(Some(Line::Fresh(closed, by))),
        None => Ok(None),
    }
}

fn read_repl(names: &mut Names, here: Here, parts: Option<&[u8]>) -> Result<Option<Line>, Memory>
    ensures { IfOk result (λ line. line ≡ option_and_then (repl_of here) (three_of (parts_of parts.entry))) }
{
    match three(parts) {
        Some((line, (place, other))) => repl_of(names, here, line, place, other),
        None => Ok(None),
    }
}

fn repl_of(
    names: &mut Names,
    here: Here,
    line: &[u8],
    place: &[u8],
    other: &[u8],
) -> Result<Option<Line>, Memory>
    ensures { IfOk result (λ found. found ≡ repl_of here (line.now, (place.now, other.now))) }
{
    let Some(line) = ref_part(here, b"line", line) else {
        return Ok(None);
    };
    let Some(place) = place_part(names, here, place)? else {
        return Ok(None);
    };
    match ref_part(here, b"with", other) {
        Some(other) => Ok(Some(Line::Repl(line, place, other))),
        None => Ok(None),
    }
}

fn read_induct(names: &mut Names, here: Here, parts: Option<&[u8]>) -> Result<Option<Line>, Memory>
    ensures { IfOk result (λ line. line ≡ option_and_then (induct_of here) (four_of (parts_of parts.entry))) }
{
    match four(parts) {
        Some((line, (variable, (goal, boxes)))) => {
            induct_of(names, here, line, variable, goal, boxes)
        }
        None => Ok(None),
    }
}

fn induct_of(
    names: &mut Names,
    here: Here,
    line: &[u8],
    variable: &[u8],
    goal: &[u8],
    boxes: &[u8],
) -> Result<Option<Line>, Memory>
    ensures { IfOk result (λ found. found
        ≡ induct_of here (line.now, (variable.now, (goal.now, boxes.now)))) }
{
    let Some(line) = ref_part(here, b"line", line) else {
        return Ok(None);
    };
    match variable_part(names, here, variable)? {
        Some(variable) => induct_over(names, here, line, variable, goal, boxes),
        None => Ok(None),
    }
}

// The induction of a line over a variable, with what the further parts say.
fn induct_over(
    names: &mut Names,
    here: Here,
    line: u64,
    variable: CodedVar,
    goal: &[u8],
    boxes: &[u8],
) -> Result<Option<Line>, Memory>
    ensures { IfOk result (λ found. found
        ≡ four (λ m x e bs. Induct m x e bs) (Some line) (Some variable) (goal_part here goal.now)
        (refs_part here (codes "boxes") boxes.now)) }
{
    let goal = match goal_part(names, here, goal) {
        Ok(Some(goal)) => goal,
        Ok(None) => return Ok(let_go(None, variable)),
        Err(memory) => return Err(let_go(memory, variable)),
    };
    match refs_part(names, here, b"boxes", boxes) {
        Ok(Some(boxes)) => Ok(Some(Line::Induct(line, variable, goal, boxes))),
        Ok(None) => Ok(let_go(None, (variable, goal))),
        Err(memory) => Err(let_go(memory, (variable, goal))),
    }
}

fn read_observe(names: &mut Names, here: Here, parts: Option<&[u8]>) -> Result<Option<Line>, Memory>
    ensures { IfOk result (λ line. line ≡ option_and_then (observe_of here) (three_of (parts_of parts.entry))) }
{
    match three(parts) {
        Some((line, (goal, lines))) => observe_of(names, here, line, goal, lines),
        None => Ok(None),
    }
}

fn observe_of(
    names: &mut Names,
    here: Here,
    line: &[u8],
    goal: &[u8],
    lines: &[u8],
) -> Result<Option<Line>, Memory>
    ensures { IfOk result (λ found. found ≡ observe_of here (line.now, (goal.now, lines.now))) }
{
    let Some(line) = ref_part(here, b"line", line) else {
        return Ok(None);
    };
    let Some(goal) = goal_part(names, here, goal)? else {
        return Ok(None);
    };
    match refs_part(names, here, b"lines", lines) {
        Ok(Some(lines)) => Ok(Some(Line::Observe(line, goal, lines))),
        Ok(None) => Ok(let_go(None, goal)),
        Err(memory) => Err(let_go(memory, goal)),
    }
}

fn read_generated(
    names: &mut Names,
    here: Here,
    parts: Option<&[u8]>,
) -> Result<Option<Line>, Memory>
    ensures { IfOk result (λ line. line ≡ option_and_then (generated_of here) (three_of (parts_of parts.entry))) }
{
    match three(parts) {
        Some((closed, (sort, operators))) => generated_of(names, here, closed, sort, operators),
        None => Ok(None),
    }
}

fn generated_of(
    names: &mut Names,
    here: Here,
    closed: &[u8],
    sort: &[u8],
    operators: &[u8],
) -> Result<Option<Line>, Memory>
    ensures { IfOk result (λ found. found ≡ generated_of here (closed.now, (sort.now, operators.now))) }
{
    let Some(closed) = ref_part(here, b"box", closed) else {
        return Ok(None);
    };
    let Some(sort) = sort_part(names, here, sort)? else {
        return Ok(None);
    };
    match operators_part(names, here, operators) {
        Ok(Some(operators)) => Ok(Some(Line::Generated(closed, sort, operators))),
        Ok(None) => Ok(let_go(None, sort)),
        Err(memory) => Err(let_go(memory, sort)),
    }
}

fn read_partitioned(
    names: &mut Names,
    here: Here,
    parts: Option<&[u8]>,
) -> Result<Option<Line>, Memory>
    ensures { IfOk result (λ line. line ≡ option_and_then (partitioned_of here) (three_of (parts_of parts.entry))) }
{
    match three(parts) {
        Some((closed, (sort, operators))) => partitioned_of(names, here, closed, sort, operators),
        None => Ok(None),
    }
}

fn partitioned_of(
    names: &mut Names,
    here: Here,
    closed: &[u8],
    sort: &[u8],
    operators: &[u8],
) -> Result<Option<Line>, Memory>
    ensures { IfOk result (λ found. found ≡ partitioned_of here (closed.now, (sort.now, operators.now))) }
{
    let Some(closed) = ref_part(here, b"box", closed) else {
        return Ok(None);
    };
    let Some(sort) = sort_part(names, here, sort)? else {
        return Ok(None);
    };
    match operators_part(names, here, operators) {
        Ok(Some(operators)) => Ok(Some(Line::Partitioned(closed, sort, operators))),
        Ok(None) => Ok(let_go(None, sort)),
        Err(memory) => Err(let_go(memory, sort)),
    }
}
