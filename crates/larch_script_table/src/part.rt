use larch_base::{Bytes, FactLetter, FactName, Memory, Name, Pos};
use larch_raw::{RawEquation, RawNode, RawOpRef, RawSig, RawTerm, RawWord};
use larch_script_commands::RawInstance;
use std::alloc::Global;

/// Puts a number behind a blank.
pub fn put_number(alloc: Global, number: u32, answer: &mut Bytes) -> Result<(), Memory> {
    let number = number.to_string(alloc)?;
    answer.append(b" ")?;
    answer.append(number.as_bytes())
}

fn put_pos(alloc: Global, pos: Pos, answer: &mut Bytes) -> Result<(), Memory> {
    let text = pos.to_string(alloc)?;
    answer.append(text.as_bytes())
}

fn put_name(alloc: Global, name: &Name, pos: Pos, answer: &mut Bytes) -> Result<(), Memory> {
    answer.append(b" |")?;
    answer.append(name.bytes())?;
    answer.append(b"|")?;
    put_pos(alloc, pos, answer)
}

fn put_word(alloc: Global, word: &RawWord, answer: &mut Bytes) -> Result<(), Memory> {
    put_name(alloc, &word.name, word.pos, answer)
}

fn put_words(alloc: Global, words: &[RawWord], answer: &mut Bytes) -> Result<(), Memory> {
    answer.append(b" (")?;
    for word in words {
        put_word(alloc, word, answer)?;
    }
    answer.append(b")")
}

/// Puts the text of a word behind a blank.
pub fn put_text(word: &RawWord, answer: &mut Bytes) -> Result<(), Memory> {
    answer.append(b" ")?;
    answer.append(word.name.bytes())
}

fn put_signature(alloc: Global, signature: &RawSig, answer: &mut Bytes) -> Result<(), Memory> {
    put_words(alloc, signature.domain.as_slice(), answer)?;
    put_word(alloc, &signature.range, answer)
}

/// Puts a reference to operators.
pub fn put_reference(
    alloc: Global,
    reference: &RawOpRef,
    answer: &mut Bytes,
) -> Result<(), Memory> {
    let form = &reference.form;
    answer.append(b" (")?;
    put_name(alloc, &form.name, form.pos, answer)?;
    answer.append(if form.word { b" word" } else { b" form" })?;
    put_number(alloc, form.markers, answer)?;
    if let Some(signature) = &reference.sig {
        put_signature(alloc, signature, answer)?;
    }
    answer.append(b")")
}

// What is left to print of a term.
#[derive(Clone, Copy, Drop)]
enum Piece<'a> {
    Whole(&'a RawTerm),
    Sort(&'a RawWord),
    Close,
}

// Puts the beginning of a term, and leaves the rest for later.
fn begin<'a>(
    alloc: Global,
    term: &'a RawTerm,
    work: &mut Vec<Piece<'a>>,
    answer: &mut Bytes,
) -> Result<(), Memory> {
    work.push(Piece::Close)?;
    match term.node() {
        RawNode::Apply(name, arguments, pos) => {
            answer.append(b" (")?;
            put_name(alloc, name, *pos, answer)?;
            let arguments = arguments.as_slice();
            for i in 0..arguments.len() {
                work.push(Piece::Whole(&arguments[arguments.len() - 1 - i]))?;
            }
        }
        RawNode::Qualified(term, sort, pos) => {
            answer.append(b" (:")?;
            put_pos(alloc, *pos, answer)?;
            work.push(Piece::Sort(sort))?;
            work.push(Piece::Whole(term))?;
        }
    }
    Ok(())
}

fn put_term(alloc: Global, term: &RawTerm, answer: &mut Bytes) -> Result<(), Memory> {
    let mut work = Vec::new(alloc);
    work.push(Piece::Whole(term))?;
    for _turn in 0..u64::MAX {
        match work.pop() {
            Some(Piece::Whole(term)) => begin(alloc, term, &mut work, answer)?,
            Some(Piece::Sort(sort)) => put_word(alloc, sort, answer)?,
            Some(Piece::Close) => answer.append(b")")?,
            None => return Ok(()),
        }
    }
    Ok(())
}

/// Puts an equation, or a term.
pub fn put_equation(
    alloc: Global,
    equation: &RawEquation,
    answer: &mut Bytes,
) -> Result<(), Memory> {
    answer.append(b" ")?;
    put_pos(alloc, equation.first, answer)?;
    put_term(alloc, &equation.left, answer)?;
    if let Some(right) = &equation.right {
        answer.append(b" ==")?;
        put_pos(alloc, right.pos, answer)?;
        put_term(alloc, &right.term, answer)?;
    }
    Ok(())
}

/// Puts instances in parentheses.
pub fn put_instances(
    alloc: Global,
    instances: &[RawInstance],
    answer: &mut Bytes,
) -> Result<(), Memory> {
    answer.append(b" (")?;
    for instance in instances {
        put_text(&instance.name, answer)?;
        put_equation(alloc, &instance.term, answer)?;
    }
    answer.append(b")")
}

/// Puts the name of a fact.
pub fn put_fact(alloc: Global, fact: FactName, answer: &mut Bytes) -> Result<(), Memory> {
    answer.append(match fact.letter {
        FactLetter::Axiom => b" A",
        FactLetter::Lemma => b" L",
        FactLetter::Hypothesis => b" H",
        FactLetter::Derived => b" D",
    })?;
    put_number(alloc, fact.number, answer)?;
    put_number(alloc, fact.part, answer)
}
