ghost use Rattle.std.specs.Prelude.{◌≡◌, suc, ◌-◌, ◌++◌, ◌∷◌, [], IfOk, OnErr, OnOk, false, length, map, take, All};
ghost use Rattle.larch_verify_meaning.specs.CalculusRenaming.{IsPlainName};
ghost use Rattle.larch_certificate_text.specs.Parts.{IsSmall};
ghost use Rattle.larch_derive.specs.Coding.{IsSymbolOf};
ghost use Rattle.larch_derive.specs.Predicates.{HasNoBadLine};
ghost use Rattle.larch_derive.specs.Words.{IsWordedTheory};
ghost use Rattle.larch_derive.specs.Builder.{IsEmpty, IsPushed, IsPushedOnto, IsOpened, IsBoxLine, IsCodeIn};
ghost use Rattle.larch_derive.specs.Builder.{opens_box, still_open, part_for, boxes_in, lines_in, theory_in};

use crate::coding::{code, code_equations, symbol_of};
use crate::copying::copy_line;
use crate::open_box::{OpenBox, OpenBoxes, copy_boxes};
use crate::shared_list::ChunkedList;
use crate::shared_theory::SharedTheory;
use crate::small::{number_is_small, numbers_of_line_are_small};
use larch_certificate_text::from_certificate::{
    BoxPart, BoxParts, Certificate, Coded, Line, Symbol,
};
use larch_term::from_base::{Memory, Sequence, let_go};
use larch_term::{Operator, Operators, Statements, Term, Theory, copy_operators};
use std::alloc::Global;

/// A certificate that is being written: the theory, the lines so far, and the boxes that are open, with the operators
/// that stand for their constants.
#[derive(Drop)]
pub struct Builder {
    alloc: Global,
    theory: SharedTheory,
    lines: ChunkedList<Line>,
    boxes: OpenBoxes,
}

impl Builder {
    /// A builder without lines, over this theory. None of its lines will be bad or without a text where the theory is
    /// in words.
    #[tactic(auto, using(crate::proofs::Start::empty_stands))]
    pub fn new(alloc: Global, theory: &Theory) -> Result<Builder, Memory>
        ensures empty { IfOk result (IsEmpty theory.now) }
        ensures stands { IfOk result (λ builder. IsWordedTheory theory.now → HasNoBadLine builder) }
    {
        names_are_plain(theory.operators.as_slice());
        let theory = SharedTheory::new(alloc, theory)?;
        Ok(Builder {
            alloc,
            theory,
            lines: ChunkedList::new(alloc),
            boxes: Sequence::new(alloc),
        })
    }

    /// The same builder once more. It shares the lines, and what is later pushed on one isn't in the other.
    pub fn copy(&self) -> Result<Builder, Memory>
        ensures { IfOk result (λ copied. copied ≡ self.now) }
    {
        let alloc = self.alloc;
        let boxes = copy_boxes(alloc, self.boxes.as_slice())?;
        let lines = match self.lines.copy() {
            Ok(lines) => lines,
            Err(memory) => return Err(let_go(memory, boxes)),
        };
        match self.theory.copy() {
            Ok(theory) => Ok(Builder {
                alloc,
                theory,
                lines,
                boxes,
            }),
            Err(memory) => Err(let_go(memory, (boxes, lines))),
        }
    }

    /// The lines so far, in order.
    pub fn certificate(&self) -> Result<Certificate, Memory>
        ensures { IfOk result (λ certificate. certificate ≡ lines_in self.now) }
    {
        let lines = self.lines.refs()?;
        let mut certificate = Sequence::new(self.alloc);
        for line in lines.as_slice() {
            let line = copy_line(self.alloc, line)?;
            certificate.push(line)?;
        }
        Ok(certificate)
    }

    /// The term as lines write it, where these boxes are open.
    pub fn code(&self, term: &Term) -> Result<Coded, Memory>
        ensures { IfOk result (IsCodeIn self.now term.now) }
    {
        let coded = code(self.alloc, &self.theory, self.boxes.as_slice(), term)?;
        Ok(coded)
    }

    /// What names an operator in lines, where these boxes are open. It takes no memory.
    pub fn symbol(&self, operator: &Operator) -> Symbol
        ensures { IsSymbolOf (boxes_in self.now) (theory_in self.now).operators operator.now result }
    {
        symbol_of(&self.theory, self.boxes.as_slice(), operator)
    }

    /// Puts a line that opens no box behind the others, and answers its number. A refused line changes nothing.
    pub fn push(&mut self, line: Line) -> Result<u64, Memory>
        requires { opens_box line ≡ false }
        ensures ok { IfOk result (IsPushed self.old self.new line) }
        ensures err { OnErr result (self.new ≡ self.old) }
    {
        numbers_of_line_are_small(&line);
        match self.next_number() {
            Ok(number) => self.push_numbered(number, line),
            Err(memory) => Err(let_go(memory, line)),
        }
    }

    // Puts a line that opens no box behind the others, and answers this number.
    fn push_numbered(&mut self, number: u64, line: Line) -> Result<u64, Memory>
        requires { opens_box line ≡ false }
        ensures number { IfOk result (λ n. n ≡ number) }
        ensures ok { OnOk result (IsPushedOnto self.old self.new line (still_open line self.old.boxes)) }
        ensures err { OnErr result (self.new ≡ self.old) }
    {
        if let Line::Done = &line {
            self.push_closing(line)?;
        } else {
            self.lines.push(line)?;
        }
        Ok(number)
    }

    // Puts a line behind the others, and closes the innermost box.
    fn push_closing(&mut self, line: Line) -> Result<(), Memory>
        ensures ok { OnOk result (IsPushedOnto self.old self.new line
            (take (length self.old.boxes - 1) self.old.boxes)) }
        ensures err { OnErr result (self.new ≡ self.old) }
    {
        match copy_boxes(self.alloc, outer(self.boxes.as_slice())) {
            Ok(boxes) => self.push_leaving(line, boxes),
            Err(memory) => Err(let_go(memory, line)),
        }
    }

    // Puts a line behind the others, with these boxes open behind it.
    fn push_leaving(&mut self, line: Line, boxes: OpenBoxes) -> Result<(), Memory>
        ensures ok { OnOk result (IsPushedOnto self.old self.new line boxes) }
        ensures err { OnErr result (self.new ≡ self.old) }
    {
        match self.lines.push(line) {
            Ok(()) => {
                self.boxes = boxes;
                Ok(())
            }
            Err(memory) => Err(let_go(memory, boxes)),
        }
    }

    // The number of the next line.
    fn next_number(&self) -> Result<u64, Memory>
        ensures next { IfOk result (λ n. n ≡ suc (length (lines_in self.now))) }
        ensures small { IfOk result IsSmall }
    {
        match self.lines.len().checked_add(1) {
            Some(number) => {
                number_is_small(number);
                Ok(number)
            }
            None => Err(Memory),
        }
    }

    /// Opens a box with these constants and predicates and these hypotheses, which are equations, and answers its
    /// number. A refused box changes nothing.
    pub fn open_box(
        &mut self,
        constants: &Operators,
        hypotheses: &Statements,
    ) -> Result<u64, Memory>
        ensures ok { IfOk result (IsOpened self.old self.new constants.now hypotheses.now) }
        ensures err { OnErr result (self.new ≡ self.old) }
    {
        let number = self.next_number()?;
        let boxes = self.boxes_with(number, constants)?;
        let line = self.box_line(constants, boxes.as_slice(), hypotheses)?;
        self.push_leaving(line, boxes)?;
        Ok(number)
    }

    // The open boxes and one more.
    fn boxes_with(&self, number: u64, constants: &Operators) -> Result<OpenBoxes, Memory>
        ensures { IfOk result (λ boxes.
            boxes ≡ boxes_in self.now ++ record { number = number; constants = constants.now } ∷ []) }
    {
        let constants = copy_operators(self.alloc, constants.as_slice())?;
        match copy_boxes(self.alloc, self.boxes.as_slice()) {
            Ok(boxes) => with_box(boxes, OpenBox { number, constants }),
            Err(memory) => Err(let_go(memory, constants)),
        }
    }

    // The line that opens a box, with hypotheses that are written where these boxes are open.
    fn box_line(
        &self,
        constants: &Operators,
        boxes: &[OpenBox],
        hypotheses: &Statements,
    ) -> Result<Line, Memory>
        ensures { IfOk result (IsBoxLine boxes.now (theory_in self.now).operators constants.now hypotheses.now) }
    {
        let equations = code_equations(self.alloc, &self.theory, boxes, hypotheses.as_slice())?;
        match parts_for(self.alloc, constants.as_slice()) {
            Ok(parts) => Ok(Line::BoxLine(parts, equations)),
            Err(memory) => Err(let_go(memory, equations)),
        }
    }
}

// No operator of the code has the name of a box's constant.
fn names_are_plain(operators: &[Operator])
    ensures { All (λ f. IsPlainName f.name) operators.now }
{
    for operator in operators {
        let _ = operator.name();
    }
}

// The boxes and one more.
fn with_box(boxes: OpenBoxes, further: OpenBox) -> Result<OpenBoxes, Memory>
    ensures { IfOk result (λ more. more ≡ boxes ++ further ∷ []) }
{
    let mut boxes = boxes;
    boxes.push(further)?;
    Ok(boxes)
}

// All boxes but the innermost.
fn outer(boxes: &[OpenBox]) -> &[OpenBox]
    ensures { result.now ≡ take (length boxes.now - 1) boxes.now }
{
    match boxes {
        [outer @ .., _] => outer,
        [] => boxes,
    }
}

// What a box line says of constants and predicates.
fn parts_for(alloc: Global, constants: &[Operator]) -> Result<BoxParts, Memory>
    ensures { IfOk result (λ parts. parts ≡ map part_for constants.now) }
{
    let mut parts = Sequence::new(alloc);
    for constant in constants {
        let part = part_for(constant)?;
        parts.push(part)?;
    }
    Ok(parts)
}

fn part_for(constant: &Operator) -> Result<BoxPart, Memory>
    ensures { IfOk result (λ part. part ≡ part_for constant.now) }
{
    match constant.domain() {
        [] => {
            let sort = constant.range().copy()?;
            Ok(BoxPart {
                sort,
                predicate: false,
            })
        }
        [first, ..] => {
            let sort = first.copy()?;
            Ok(BoxPart {
                sort,
                predicate: true,
            })
        }
    }
}
