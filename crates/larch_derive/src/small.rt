ghost use Rattle.larch_certificate_text.specs.Parts.{IsSmall, Each};
ghost use Rattle.larch_derive.specs.Builder.{HasSmallNumbers};

use larch_certificate_text::from_certificate::Line;

// The numbers of a line are below 2 ^ 64, as all of the code are.
pub(crate) fn numbers_of_line_are_small(line: &Line)
    ensures { HasSmallNumbers line.now }
{
    match line {
        Line::Axiom(statement) => number_is_small(*statement),
        Line::Hyp(number, hypothesis) => two_are_small(*number, *hypothesis),
        Line::Row(row, _) => number_is_small(*row),
        Line::Refl(_) => {}
        Line::Sym(line) => number_is_small(*line),
        Line::Inst(line, _) => number_is_small(*line),
        Line::Repl(line, place, by) => {
            two_are_small(*line, *by);
            numbers_are_small(place.as_slice());
        }
        Line::Equal(line) => number_is_small(*line),
        Line::BoxLine(_, _) => {}
        Line::Done => {}
        Line::Fresh(number, _) => number_is_small(*number),
        Line::Cases(first, second) => two_are_small(*first, *second),
        Line::Induct(line, _, _, boxes) => {
            number_is_small(*line);
            numbers_are_small(boxes.as_slice());
        }
        Line::Observe(line, _, lines) => {
            number_is_small(*line);
            numbers_are_small(lines.as_slice());
        }
        Line::Generated(number, _, operators) => {
            number_is_small(*number);
            numbers_are_small(operators.as_slice());
        }
        Line::Partitioned(number, _, operators) => {
            number_is_small(*number);
            numbers_are_small(operators.as_slice());
        }
    }
}

// A number of the code is below 2 ^ 64.
pub(crate) fn number_is_small(number: u64)
    ensures { IsSmall number }
{
    let _ = number;
}

fn two_are_small(first: u64, second: u64)
    ensures first { IsSmall first }
    ensures second { IsSmall second }
{
    number_is_small(first);
    number_is_small(second);
}

// So is each of several.
fn numbers_are_small(numbers: &[u64])
    ensures { Each IsSmall numbers.now }
{
    for number in numbers {
        number_is_small(*number);
    }
}
