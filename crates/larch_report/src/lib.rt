//! Reports: their lines as data, and what is written and counted by them.
#![tactic(auto)]

mod counts;
mod examples;
mod line;
mod text;

pub use counts::{Counts, counts_of, is_good};
pub use line::{DutyOutcome, ReportLine};
pub use text::{append_line, report_text};
