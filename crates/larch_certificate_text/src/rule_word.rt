/// The words of the rules.
#[derive(Clone, Copy, Debug, PartialEq, Eq)]
pub enum RuleWord {
    Axiom,
    Hyp,
    Row,
    Refl,
    Sym,
    Inst,
    Repl,
    Equal,
    BoxLine,
    Done,
    Fresh,
    Cases,
    Induct,
    Observe,
    Generated,
    Partitioned,
}
