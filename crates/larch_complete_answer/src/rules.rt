ghost use Rattle.std.specs.Prelude.{◌≡◌, ◌++◌, OnOk, map};
ghost use Rattle.larch_complete_answer.specs.Told.{count_text, rule_line, rule_lines, rules_text};
ghost use Rattle.larch_complete_rounds.specs.Certified.{sides_behind};

use larch_base::{Bytes, Memory};
use larch_complete_rounds::CertifiedRule;
use larch_print::write_term;
use std::alloc::Global;

// Puts at the end how many rules there are, a line for each, and that this is the end.
pub(crate) fn append_rules(
    alloc: Global,
    text: &mut Bytes,
    rules: &[CertifiedRule],
) -> Result<(), Memory>
    ensures { OnOk result (text.new ≡ text.old ++ rules_text (map sides_behind rules.now)) }
{
    append_count(alloc, text, rules.len())?;
    append_lines(alloc, text, rules)?;
    text.append(b"end\n")
}

// Puts at the end how many rules there are.
fn append_count(alloc: Global, text: &mut Bytes, count: usize) -> Result<(), Memory>
    ensures { OnOk result (text.new ≡ text.old ++ count_text count) }
{
    let said = format!(in alloc; "complete {count} rules\n")?;
    text.append(said.as_bytes())
}

// Puts a line for each rule at the end.
fn append_lines(alloc: Global, text: &mut Bytes, rules: &[CertifiedRule]) -> Result<(), Memory>
    ensures { OnOk result (text.new ≡ text.old ++ rule_lines 1 (map sides_behind rules.now)) }
{
    for index in 0..rules.len() {
        append_line(alloc, text, index + 1, &rules[index])?;
    }
    Ok(())
}

// Puts the line of the rule with a number at the end.
fn append_line(
    alloc: Global,
    text: &mut Bytes,
    number: usize,
    rule: &CertifiedRule,
) -> Result<(), Memory>
    ensures { OnOk result (text.new ≡ text.old ++ rule_line number (sides_behind rule.now)) }
{
    let name = format!(in alloc; "R{number} ")?;
    text.append(name.as_bytes())?;
    write_term(text, &rule.said.rule.left)?;
    text.append(b" -> ")?;
    write_term(text, &rule.said.rule.right)?;
    text.append(b"\n")
}
