ghost use Rattle.std.specs.Prelude.{◌≡◌, ◌++◌, ◌∷◌, [], codes, OnOk};
ghost use Rattle.std.specs.List.{join_with_byte};
ghost use Rattle.larch_certificate.specs.declared.line.Line.TheVariants.{Axiom, Hyp, Row, Refl, Sym, Inst, Repl};
ghost use Rattle.larch_certificate.specs.declared.line.Line.TheVariants.{Equal, BoxLine, Fresh, Cases, Induct, Observe};
ghost use Rattle.larch_certificate.specs.declared.line.Line.TheVariants.{Generated, Partitioned};
ghost use Rattle.larch_certificate_text.specs.LineText.{goal_text, line_text, named_ref, operators_text, rule_fields};
ghost use Rattle.larch_certificate_text.specs.LineText.{variable_text};
ghost use Rattle.larch_certificate_text.specs.ListText.{part_with_label};

use crate::number::{NumberKind, write_number};
use crate::part::{
    write_equation_part, write_list_part, write_number_part, write_numbers_part, write_place_part,
    write_ref_part, write_sort_part, write_term_part, write_variable_part,
};
use larch_base::Memory;
use larch_certificate::{
    Bindings, BoxParts, Coded, CodedEquation, CodedEquations, CodedVar, CodedVars, Line, Numbers,
    Path,
};
use larch_certificate_text::{Here, Text};
use larch_term::Sort;
use std::alloc::Global;

// What an induction is on, and what it shows.
#[derive(Drop)]
struct Aim<'a> {
    variable: &'a CodedVar,
    goal: &'a CodedEquation,
}

// What a rule names that states a clause: the box, the sort and the operators.
#[derive(Drop)]
struct Clause<'a> {
    closed: u64,
    sort: &'a Sort,
    operators: &'a Numbers,
}

/// Puts a line at the end.
#[tactic(auto, using(crate::proofs::Labels::numbered_line, crate::proofs::Labels::named_line))]
pub fn write_line(alloc: Global, text: &mut Text, here: Here, line: &Line) -> Result<(), Memory>
    ensures { OnOk result (text.new ≡ text.old ++ line_text here line.now) }
{
    if !here.relative {
        write_number(alloc, text, here.line)?;
        text.push(b' ')?;
    }
    write_rule(alloc, text, here, line)
}

fn write_rule(alloc: Global, text: &mut Text, here: Here, line: &Line) -> Result<(), Memory>
    ensures { OnOk result (text.new ≡ text.old ++ join_with_byte 32 (rule_fields here line.now)) }
{
    match line {
        Line::Axiom(number) => write_axiom(alloc, text, here, *number),
        Line::Hyp(opened, number) => write_hyp(alloc, text, here, *opened, *number),
        Line::Row(number, sort) => write_row(alloc, text, here, *number, sort),
        Line::Refl(term) => write_refl(alloc, text, here, term),
        Line::Sym(line) => write_sym(alloc, text, here, *line),
        Line::Inst(line, by) => write_inst(alloc, text, here, *line, by),
        Line::Repl(line, place, other) => write_repl(alloc, text, here, *line, place, *other),
        Line::Equal(line) => write_equal(alloc, text, here, *line),
        Line::BoxLine(parts, hyps) => write_box(alloc, text, here, parts, hyps),
        Line::Done => text.append(b"done"),
        Line::Fresh(closed, by) => write_fresh(alloc, text, here, *closed, by),
        Line::Cases(yes, no) => write_cases(alloc, text, here, *yes, *no),
        Line::Induct(line, variable, goal, boxes) => {
            let aim = Aim { variable, goal };
            write_induct(alloc, text, here, *line, &aim, boxes)
        }
        Line::Observe(line, goal, lines) => write_observe(alloc, text, here, *line, goal, lines),
        Line::Generated(closed, sort, operators) => {
            write_generated(alloc, text, here, *closed, sort, operators)
        }
        Line::Partitioned(closed, sort, operators) => {
            write_partitioned(alloc, text, here, *closed, sort, operators)
        }
    }
}

// A word, and the line or box that a rule names first, with a blank behind each.
fn write_opening(
    alloc: Global,
    text: &mut Text,
    here: Here,
    word: &[u8],
    label: &[u8],
    line: u64,
) -> Result<(), Memory>
    ensures { OnOk result (text.new ≡ text.old
        ++ (word.now ++ (32 ∷ (named_ref here label.now line ++ (32 ∷ []))))) }
{
    text.append(word)?;
    text.push(b' ')?;
    write_ref_part(alloc, text, here, label, line)?;
    text.push(b' ')
}

fn write_refl(alloc: Global, text: &mut Text, here: Here, term: &Coded) -> Result<(), Memory>
    ensures { OnOk result (text.new ≡ text.old ++ join_with_byte 32 (rule_fields here (Refl term.now))) }
{
    text.append(b"refl ")?;
    write_term_part(alloc, text, here, b"term", term)
}

fn write_sym(alloc: Global, text: &mut Text, here: Here, line: u64) -> Result<(), Memory>
    ensures { OnOk result (text.new ≡ text.old ++ join_with_byte 32 (rule_fields here (Sym line))) }
{
    text.append(b"sym ")?;
    write_ref_part(alloc, text, here, b"line", line)
}

fn write_equal(alloc: Global, text: &mut Text, here: Here, line: u64) -> Result<(), Memory>
    ensures { OnOk result (text.new ≡ text.old ++ join_with_byte 32 (rule_fields here (Equal line))) }
{
    text.append(b"equal ")?;
    write_ref_part(alloc, text, here, b"line", line)
}

fn write_axiom(alloc: Global, text: &mut Text, here: Here, number: u64) -> Result<(), Memory>
    ensures { OnOk result (text.new ≡ text.old ++ join_with_byte 32 (rule_fields here (Axiom number))) }
{
    text.append(b"axiom ")?;
    write_number_part(alloc, text, here, b"statement", number)
}

fn write_hyp(
    alloc: Global,
    text: &mut Text,
    here: Here,
    opened: u64,
    number: u64,
) -> Result<(), Memory>
    ensures { OnOk result (text.new ≡ text.old ++ join_with_byte 32 (rule_fields here (Hyp opened number))) }
{
    write_opening(alloc, text, here, b"hyp", b"box", opened)?;
    write_number_part(alloc, text, here, b"number", number)
}

fn write_row(
    alloc: Global,
    text: &mut Text,
    here: Here,
    number: u64,
    sort: &Option<Sort>,
) -> Result<(), Memory>
    ensures { OnOk result (text.new ≡ text.old ++ join_with_byte 32 (rule_fields here (Row number sort.now))) }
{
    text.append(b"row ")?;
    write_number_part(alloc, text, here, b"number", number)?;
    if let Some(sort) = sort {
        text.push(b' ')?;
        write_sort_part(text, here, b"sort", sort)?;
    }
    Ok(())
}

fn write_inst(
    alloc: Global,
    text: &mut Text,
    here: Here,
    line: u64,
    by: &Bindings,
) -> Result<(), Memory>
    ensures { OnOk result (text.new ≡ text.old ++ join_with_byte 32 (rule_fields here (Inst line by.now))) }
{
    write_opening(alloc, text, here, b"inst", b"line", line)?;
    write_list_part(alloc, text, here, b"by", b';', by.as_slice())
}

fn write_repl(
    alloc: Global,
    text: &mut Text,
    here: Here,
    line: u64,
    place: &Path,
    other: u64,
) -> Result<(), Memory>
    ensures { OnOk result (text.new ≡ text.old ++ join_with_byte 32 (rule_fields here (Repl line place.now other))) }
{
    write_opening(alloc, text, here, b"repl", b"line", line)?;
    write_place_part(alloc, text, here, place.as_slice())?;
    text.push(b' ')?;
    write_ref_part(alloc, text, here, b"with", other)
}

fn write_box(
    alloc: Global,
    text: &mut Text,
    here: Here,
    parts: &BoxParts,
    hyps: &CodedEquations,
) -> Result<(), Memory>
    ensures { OnOk result (text.new ≡ text.old ++ join_with_byte 32 (rule_fields here (BoxLine parts.now hyps.now))) }
{
    text.append(b"box ")?;
    write_list_part(alloc, text, here, b"sorts", b',', parts.as_slice())?;
    if here.relative {
        text.push(b' ')?;
    } else {
        text.append(b" | ")?;
    }
    write_list_part(alloc, text, here, b"hyps", b';', hyps.as_slice())
}

fn write_fresh(
    alloc: Global,
    text: &mut Text,
    here: Here,
    closed: u64,
    by: &CodedVars,
) -> Result<(), Memory>
    ensures { OnOk result (text.new ≡ text.old ++ join_with_byte 32 (rule_fields here (Fresh closed by.now))) }
{
    write_opening(alloc, text, here, b"fresh", b"box", closed)?;
    write_list_part(alloc, text, here, b"by", b';', by.as_slice())
}

fn write_cases(alloc: Global, text: &mut Text, here: Here, yes: u64, no: u64) -> Result<(), Memory>
    ensures { OnOk result (text.new ≡ text.old ++ join_with_byte 32 (rule_fields here (Cases yes no))) }
{
    write_opening(alloc, text, here, b"cases", b"true", yes)?;
    write_ref_part(alloc, text, here, b"false", no)
}

fn write_induct(
    alloc: Global,
    text: &mut Text,
    here: Here,
    line: u64,
    aim: &Aim,
    boxes: &Numbers,
) -> Result<(), Memory>
    ensures { OnOk result (text.new ≡ text.old
        ++ join_with_byte 32 (rule_fields here (Induct line aim.now.variable.now aim.now.goal.now boxes.now))) }
{
    write_opening(alloc, text, here, b"induct", b"line", line)?;
    write_aim(alloc, text, here, aim)?;
    text.push(b' ')?;
    write_numbers_part(
        alloc,
        text,
        here,
        b"boxes",
        NumberKind::Line,
        boxes.as_slice(),
    )
}

// The variable and the goal of an induction.
fn write_aim(alloc: Global, text: &mut Text, here: Here, aim: &Aim) -> Result<(), Memory>
    ensures { OnOk result (text.new ≡ text.old
        ++ (part_with_label here (codes "var") (variable_text aim.now.variable.now)
        ++ (32 ∷ goal_text here aim.now.goal.now))) }
{
    write_variable_part(text, here, b"var", aim.variable)?;
    text.push(b' ')?;
    write_equation_part(alloc, text, here, b"goal", aim.goal)
}

fn write_observe(
    alloc: Global,
    text: &mut Text,
    here: Here,
    line: u64,
    goal: &CodedEquation,
    lines: &Numbers,
) -> Result<(), Memory>
    ensures { OnOk result (text.new ≡ text.old
        ++ join_with_byte 32 (rule_fields here (Observe line goal.now lines.now))) }
{
    write_opening(alloc, text, here, b"observe", b"line", line)?;
    write_equation_part(alloc, text, here, b"goal", goal)?;
    text.push(b' ')?;
    write_numbers_part(
        alloc,
        text,
        here,
        b"lines",
        NumberKind::Line,
        lines.as_slice(),
    )
}

fn write_generated(
    alloc: Global,
    text: &mut Text,
    here: Here,
    closed: u64,
    sort: &Sort,
    operators: &Numbers,
) -> Result<(), Memory>
    ensures { OnOk result (text.new ≡ text.old
        ++ join_with_byte 32 (rule_fields here (Generated closed sort.now operators.now))) }
{
    let clause = Clause {
        closed,
        sort,
        operators,
    };
    write_clause(alloc, text, here, b"generated", &clause)
}

fn write_partitioned(
    alloc: Global,
    text: &mut Text,
    here: Here,
    closed: u64,
    sort: &Sort,
    operators: &Numbers,
) -> Result<(), Memory>
    ensures { OnOk result (text.new ≡ text.old
        ++ join_with_byte 32 (rule_fields here (Partitioned closed sort.now operators.now))) }
{
    let clause = Clause {
        closed,
        sort,
        operators,
    };
    write_clause(alloc, text, here, b"partitioned", &clause)
}

// A rule that states a clause: its word, and what it names.
fn write_clause(
    alloc: Global,
    text: &mut Text,
    here: Here,
    word: &[u8],
    clause: &Clause,
) -> Result<(), Memory>
    ensures { OnOk result (text.new ≡ text.old
        ++ (word.now ++ (32 ∷ join_with_byte 32 (named_ref here (codes "box") clause.now.closed
        ∷ part_with_label here (codes "sort") clause.now.sort.now ∷ operators_text here clause.now.operators.now ∷ [])))) }
{
    write_opening(alloc, text, here, word, b"box", clause.closed)?;
    write_sort_part(text, here, b"sort", clause.sort)?;
    text.push(b' ')?;
    write_numbers_part(
        alloc,
        text,
        here,
        b"ops",
        NumberKind::Operator,
        clause.operators.as_slice(),
    )
}
