ghost use Rattle.std.specs.Prelude.{◌≡◌, ◌<◌, ◌+◌, ◌*◌, ◌-◌, ◌++◌, ◌∷◌, [], length, Some, None, IfOk, OnOk};
ghost use Rattle.larch_certificate_printer.specs.Pending.{pending, next_text, waits, next_waits};
ghost use Rattle.larch_certificate_text.specs.TermText.{term_text};
ghost use Rattle.larch_certificate.specs.Coded.{coded_nodes};

use crate::number::write_symbol;
use larch_base::{Memory, Name};
use larch_certificate::{Coded, CodedNode};
use larch_certificate_text::{Here, Stack, Text};
use larch_term::Sort;
use std::alloc::Global;

/// Puts a term at the end. What waits is kept in memory and not on the stack, so a term may be of any depth.
pub fn write_term(alloc: Global, text: &mut Text, here: Here, term: &Coded) -> Result<(), Memory>
    ensures { OnOk result (text.new ≡ text.old ++ term_text here term.now) }
{
    let mut waiting = Stack::new(alloc);
    write_on(alloc, text, here, term, &mut waiting)?;
    Ok(())
}

fn write_on<'a>(
    alloc: Global,
    text: &mut Text,
    here: Here,
    term: &'a Coded,
    waiting: &mut Stack<&'a [Coded]>,
) -> Result<(), Memory>
    requires { waiting.old ≡ [] }
    ensures { OnOk result (text.new ≡ text.old ++ term_text here term.now) }
{
    let mut next = Some(term);
    'work: while next.is_some() || !waiting.is_empty() {
        next = match next {
            Some(term) => write_head(alloc, text, here, term, waiting)?,
            None => write_other(text, here, waiting)?,
        };
    }
    Ok(())
}

// Puts a leaf or the symbol of a term, and answers the first argument; the others wait.
fn write_head<'a>(
    alloc: Global,
    text: &mut Text,
    here: Here,
    term: &'a Coded,
    waiting: &mut Stack<&'a [Coded]>,
) -> Result<Option<&'a Coded>, Memory>
    ensures text { IfOk result (λ next. text.new ++ (next_text here next ++ pending here waiting.new) ≡ text.old
        ++ (term_text here term.now ++ pending here waiting.old)) }
    ensures waits { IfOk result (λ next. next_waits next + waits waiting.new
        < 3 * coded_nodes term.now - 1 + waits waiting.old) }
{
    match term.node() {
        CodedNode::Var(name, sort) => {
            write_leaf(text, name, sort)?;
            Ok(None)
        }
        CodedNode::App(symbol, arguments) => {
            write_symbol(alloc, text, here, *symbol)?;
            let [first, others @ ..] = arguments.as_slice() else {
                return Ok(None);
            };
            text.push(b'(')?;
            waiting.push(others)?;
            Ok(Some(first))
        }
    }
}

// Puts a variable at the end: its name and its sort with a colon between them.
fn write_leaf(text: &mut Text, name: &Name, sort: &Sort) -> Result<(), Memory>
    ensures { OnOk result (text.new ≡ text.old ++ (name.now ++ (58 ∷ sort.now))) }
{
    text.append(name.bytes())?;
    text.push(b':')?;
    text.append(sort.bytes())
}

// Puts a comma, and answers the argument behind it, or puts the parenthesis that closes the arguments.
fn write_other<'a>(
    text: &mut Text,
    here: Here,
    waiting: &mut Stack<&'a [Coded]>,
) -> Result<Option<&'a Coded>, Memory>
    requires { 0 < length waiting.old }
    ensures text { IfOk result (λ next. text.new ++ (next_text here next ++ pending here waiting.new) ≡ text.old
        ++ pending here waiting.old) }
    ensures waits { IfOk result (λ next. next_waits next + waits waiting.new < waits waiting.old) }
{
    let Some(further) = waiting.pop() else {
        return Ok(None);
    };
    let [first, others @ ..] = further else {
        text.push(b')')?;
        return Ok(None);
    };
    text.push(b',')?;
    waiting.push(others)?;
    Ok(Some(first))
}
