use crate::part::{put_equation, put_fact, put_instances, put_number, put_reference, put_text};
use larch_base::{Bytes, Memory, Way};
use larch_script::read_script;
use larch_script_commands::{CommandKind, RawCommand, Script};
use std::alloc::Global;

/// What is printed of the scripts, between which there are bytes 0.
pub fn answers(alloc: Global, texts: &[u8]) -> Result<Bytes, Memory> {
    let mut answer = Bytes::new(alloc);
    for text in texts.split(|byte| *byte == 0) {
        if text.len() <= 1_048_576 {
            let script = read_script(alloc, text)?;
            put_script(alloc, &script, &mut answer)?;
        }
        answer.append(b"\0")?;
    }
    Ok(answer)
}

fn put_script(alloc: Global, script: &Script, answer: &mut Bytes) -> Result<(), Memory> {
    put_commands(alloc, script.preamble.as_slice(), answer)?;
    for block in script.blocks.as_slice() {
        answer.append(b"block")?;
        put_number(alloc, block.line, answer)?;
        let label = block.label.to_string(alloc)?;
        answer.append(b" ")?;
        answer.append(label.as_bytes())?;
        answer.append(b"\n")?;
        put_commands(alloc, block.commands.as_slice(), answer)?;
    }
    Ok(())
}

fn put_commands(alloc: Global, commands: &[RawCommand], answer: &mut Bytes) -> Result<(), Memory> {
    for command in commands {
        put_number(alloc, command.line, answer)?;
        put_setting(alloc, &command.kind, answer)?;
        answer.append(b"\n")?;
    }
    Ok(())
}

fn put_switch(word: &[u8], on: bool, answer: &mut Bytes) -> Result<(), Memory> {
    answer.append(word)?;
    answer.append(if on { b" yes" } else { b" no" })
}

// Commands that change what later ones do.
fn put_setting(alloc: Global, kind: &CommandKind, answer: &mut Bytes) -> Result<(), Memory> {
    match kind {
        CommandKind::Declare(names, sort) => {
            answer.append(b" declare")?;
            for name in names.as_slice() {
                put_text(name, answer)?;
            }
            answer.append(b" :")?;
            put_text(sort, answer)
        }
        CommandKind::Limit(number) => {
            answer.append(b" limit")?;
            put_number(alloc, *number, answer)
        }
        CommandKind::BoxChecking(on) => put_switch(b" boxes", *on, answer),
        CommandKind::Height(upper, lower) => {
            answer.append(b" height")?;
            put_reference(alloc, upper, answer)?;
            put_reference(alloc, lower, answer)
        }
        CommandKind::Status(way, operator) => {
            answer.append(way_word(*way))?;
            put_reference(alloc, operator, answer)
        }
        kind => put_method(alloc, kind, answer),
    }
}

fn way_word(way: Way) -> &'static [u8] {
    match way {
        Way::LeftToRight => b" status left-to-right",
        Way::RightToLeft => b" status right-to-left",
        Way::Multiset => b" status multiset",
    }
}

// Methods, and what they are about.
fn put_method(alloc: Global, kind: &CommandKind, answer: &mut Bytes) -> Result<(), Memory> {
    match kind {
        CommandKind::Prove(equation) => {
            answer.append(b" prove")?;
            put_equation(alloc, equation, answer)
        }
        CommandKind::Cases(term) => {
            answer.append(b" cases")?;
            put_equation(alloc, term, answer)
        }
        CommandKind::Implication => answer.append(b" =>"),
        CommandKind::Conjunction => answer.append(b" /\\"),
        CommandKind::Contradiction => answer.append(b" contradiction"),
        CommandKind::Induction(variable) => {
            answer.append(b" induction")?;
            put_text(variable, answer)
        }
        CommandKind::Partition => answer.append(b" partition"),
        kind => put_step(alloc, kind, answer),
    }
}

// Commands about facts, marks and bad lines.
fn put_step(alloc: Global, kind: &CommandKind, answer: &mut Bytes) -> Result<(), Memory> {
    match kind {
        CommandKind::Instantiate(instances, fact) => {
            answer.append(b" instantiate")?;
            put_instances(alloc, instances.as_slice(), answer)?;
            put_fact(alloc, *fact, answer)
        }
        CommandKind::CriticalPairs(first, second) => {
            answer.append(b" pairs")?;
            put_fact(alloc, *first, answer)?;
            put_fact(alloc, *second, answer)
        }
        CommandKind::Normalize(fact) => {
            answer.append(b" normalize")?;
            put_fact(alloc, *fact, answer)
        }
        CommandKind::Qed => answer.append(b" qed"),
        CommandKind::Mark(proved) => put_switch(b" mark", *proved, answer),
        CommandKind::Bad(code) => {
            answer.append(b" bad ")?;
            answer.append(code.text().as_bytes())
        }
        _ => Ok(()),
    }
}
