use larch_base::{Code, Fault, Label, Name};
use larch_term::Term;

/// What came of a duty.
#[derive(Drop)]
pub enum DutyOutcome {
    /// It is proved.
    Proved,
    /// So many goals are open, and this is the current one.
    Suspended(u32, Term),
    /// The script is refused at this line, with this code; at line 0 where it says nothing of the duty.
    Refused(u32, Code),
}

/// A line of a report.
#[derive(Drop)]
pub enum ReportLine {
    /// Nothing is wrong with the trait of this name.
    Right(Name),
    /// This is the first thing that is wrong with it.
    Wrong(Name, Fault),
    /// What came of the duty with this label, of the trait above.
    Duty(Label, DutyOutcome),
    /// What is wrong with the block of its script that begins at this line.
    Script(u32, Code),
    /// There is a script of this name, and no trait.
    Stray(Name),
}
