ghost use Rattle.std.specs.Prelude.{◌≡◌, ◌++◌, ◌<◌, IfOk, OnOk, length, drop, false, codes};
ghost use Rattle.std.specs.List.{join_by};
ghost use Rattle.larch_term.specs.Operator.{name_bytes};
ghost use Rattle.larch_term.specs.Tree.{forest_of};
ghost use Rattle.larch_print.specs.Print.{printing_of, printed_statement, operator_line, signature_text, domain_text};
ghost use Rattle.larch_print.specs.Print.{fill_name, first_placed, pieces_of, argument_list, stands_alone};
ghost use Rattle.larch_print.specs.Print.{begins_with_bracket, begins_with_marker, inside_after, opens_bracket};
ghost use Rattle.larch_print.specs.Print.{closes_bracket};

use larch_term::from_base::{Bytes, Memory, is_word};
use larch_term::{Node, Operator, Sort, Statement, Term, Terms, is_truth};
use std::alloc::Global;

/// The text of a term.
pub fn print_term(alloc: Global, term: &Term) -> Result<Bytes, Memory>
    ensures { IfOk result (λ text. text ≡ printing_of term.now) }
{
    let mut text = Bytes::new(alloc);
    write_term(&mut text, term)?;
    Ok(text)
}

/// Puts the text of a term behind others.
#[cycle(write)]
#[tactic(auto, using(larch_term::specs::Tree::nodes_all_is_sum))]
pub fn write_term(text: &mut Bytes, term: &Term) -> Result<(), Memory>
    ensures { OnOk result (text.new ≡ text.old ++ printing_of term.now) }
{
    match term.node() {
        Node::Var(name, _) => {
            text.append(name.bytes())?;
        }
        Node::App(operator, arguments) => {
            let name = name_of(operator);
            if is_word(name) {
                text.append(name)?;
                write_list(text, arguments)?;
            } else {
                write_filled(text, name, arguments)?;
            }
        }
    }
    Ok(())
}

// The arguments of a word: nothing, or all in parentheses.
#[cycle(write)]
#[tactic(auto, using(larch_term::specs::Tree::nodes_all_is_sum))]
fn write_list(text: &mut Bytes, arguments: &Terms) -> Result<(), Memory>
    ensures { OnOk result (text.new ≡ text.old ++ argument_list (pieces_of (forest_of arguments.now))) }
{
    if arguments.as_slice().is_empty() {
        return Ok(());
    }
    text.append(b"(")?;
    for (i, argument) in arguments.as_slice().iter().enumerate() {
        if i > 0 {
            text.append(b", ")?;
        }
        write_term(text, argument)?;
    }
    text.append(b")")?;
    Ok(())
}

// A name with the arguments in the markers' places.
#[cycle(write)]
#[tactic(auto, using(crate::proofs::Printing::marker_step, crate::proofs::Printing::marker_within, crate::proofs::Printing::byte_step, larch_term::specs::Tree::nodes_all_is_sum))]
fn write_filled(text: &mut Bytes, name: &[u8], arguments: &Terms) -> Result<(), Memory>
    ensures { OnOk result (text.new ≡ text.old ++ fill_name false name.now (pieces_of (forest_of arguments.now))) }
{
    let mut at = 0;
    let mut next = 0;
    let mut inside = false;
    while at < name.len() {
        if begins_with_marker(&name[at..]) {
            write_placed(text, arguments, next, inside)?;
            at += 2;
            next += 1;
        } else {
            text.append(&[name[at]])?;
            inside = inside_after(inside, name[at]);
            at += 1;
        }
    }
    Ok(())
}

// What stands in a marker's place: an argument as it is or in parentheses, or the marker where there is none.
#[cycle(write)]
#[tactic(auto, using(larch_term::specs::Tree::nodes_all_is_sum))]
fn write_placed(
    text: &mut Bytes,
    arguments: &Terms,
    next: usize,
    inside: bool,
) -> Result<(), Memory>
    ensures { OnOk result
        (text.new ≡ text.old ++ first_placed inside (pieces_of (forest_of (drop next arguments.now)))) }
{
    if next >= arguments.as_slice().len() {
        text.append(b"__")?;
        return Ok(());
    }
    let argument = &arguments.as_slice()[next];
    if inside || stands_alone(argument) {
        write_term(text, argument)?;
        return Ok(());
    }
    text.append(b"(")?;
    write_term(text, argument)?;
    text.append(b")")?;
    Ok(())
}

fn stands_alone(term: &Term) -> bool
    ensures { result ≡ stands_alone term.now }
{
    match term.node() {
        Node::Var(_, _) => true,
        Node::App(operator, _) => {
            let name = name_of(operator);
            is_word(name) || begins_with_bracket(name)
        }
    }
}

fn begins_with_bracket(name: &[u8]) -> bool
    ensures { result ≡ begins_with_bracket name.now }
{
    match name.split_first() {
        Some((byte, _)) => opens_bracket(*byte),
        None => false,
    }
}

fn begins_with_marker(bytes: &[u8]) -> bool
    ensures { result ≡ begins_with_marker bytes.now }
{
    matches!(bytes, [b'_', b'_', ..])
}

// Whether the text behind a byte is between brackets.
fn inside_after(inside: bool, byte: u8) -> bool
    ensures { result ≡ inside_after inside byte }
{
    opens_bracket(byte) || inside && !closes_bracket(byte)
}

fn opens_bracket(byte: u8) -> bool
    ensures { result ≡ opens_bracket byte }
{
    byte == b'[' || byte == b'{'
}

fn closes_bracket(byte: u8) -> bool
    ensures { result ≡ closes_bracket byte }
{
    byte == b']' || byte == b'}'
}

fn name_of(operator: &Operator) -> &[u8]
    ensures { result.now ≡ name_bytes operator.now.name }
{
    operator.name().bytes()
}

/// The text of a statement.
pub fn print_statement(alloc: Global, statement: &Statement) -> Result<Bytes, Memory>
    ensures { IfOk result (λ text. text ≡ printed_statement statement.now) }
{
    let mut text = Bytes::new(alloc);
    write_statement(&mut text, statement)?;
    Ok(text)
}

/// Puts the text of a statement behind others.
pub fn write_statement(text: &mut Bytes, statement: &Statement) -> Result<(), Memory>
    ensures { OnOk result (text.new ≡ text.old ++ printed_statement statement.now) }
{
    match statement {
        Statement::Equation(left, right) => write_equation(text, left, right)?,
        Statement::Generated(sort, generators) => {
            text.append(sort.bytes())?;
            text.append(b" generated by ")?;
            write_names(text, generators.as_slice())?;
        }
        Statement::Partitioned(sort, observers) => {
            text.append(sort.bytes())?;
            text.append(b" partitioned by ")?;
            write_names(text, observers.as_slice())?;
        }
    }
    Ok(())
}

fn write_equation(text: &mut Bytes, left: &Term, right: &Term) -> Result<(), Memory>
    ensures { OnOk result (text.new ≡ text.old ++ printed_statement (Statement.Equation left.now right.now)) }
{
    write_term(text, left)?;
    if !is_truth(right) {
        text.append(b" == ")?;
        write_term(text, right)?;
    }
    Ok(())
}

// The names of operators, with commas between them.
fn write_names(text: &mut Bytes, operators: &[Operator]) -> Result<(), Memory>
    ensures { OnOk result (text.new ≡ text.old ++ join_by (λ f. name_bytes f.name) (codes ", ") operators.now) }
{
    for (i, operator) in operators.iter().enumerate() {
        if i > 0 {
            text.append(b", ")?;
        }
        text.append(name_of(operator))?;
    }
    Ok(())
}

/// The line that introduces an operator, without its end: `op`, its name and its signature.
pub fn print_operator(alloc: Global, operator: &Operator) -> Result<Bytes, Memory>
    ensures { IfOk result (λ text. text ≡ operator_line operator.now) }
{
    let mut text = Bytes::new(alloc);
    write_operator(&mut text, operator)?;
    Ok(text)
}

/// Puts the line that introduces an operator behind others, without its end.
pub fn write_operator(text: &mut Bytes, operator: &Operator) -> Result<(), Memory>
    ensures { OnOk result (text.new ≡ text.old ++ operator_line operator.now) }
{
    text.append(b"op ")?;
    text.append(name_of(operator))?;
    text.append(b": ")?;
    write_signature(text, operator)?;
    Ok(())
}

/// Puts the signature of an operator behind others.
pub fn write_signature(text: &mut Bytes, operator: &Operator) -> Result<(), Memory>
    ensures { OnOk result (text.new ≡ text.old ++ signature_text operator.now) }
{
    write_sorts(text, operator.domain())?;
    text.append(b"-> ")?;
    text.append(operator.range().bytes())?;
    Ok(())
}

// Domain sorts with commas between them and a blank behind.
fn write_sorts(text: &mut Bytes, sorts: &[Sort]) -> Result<(), Memory>
    ensures { OnOk result (text.new ≡ text.old ++ domain_text sorts.now) }
{
    if sorts.is_empty() {
        return Ok(());
    }
    for (i, sort) in sorts.iter().enumerate() {
        if i > 0 {
            text.append(b", ")?;
        }
        text.append(sort.bytes())?;
    }
    text.append(b" ")?;
    Ok(())
}
