//! Certificates over a theory that another theory has by new names, as certificates over that.
#![tactic(auto)]

mod importing;
mod item;
mod lengths;
mod line;
mod numbers;
mod term;
mod words;

pub use importing::{Places, rename_certificate};
pub use numbers::new_numbers;

// Passed on to crates above, which then needn't list these crates.
pub mod from_import_names {
    pub use larch_import_names::{
        OperatorPair, Renaming, SortPair, apart, rename_sort, rename_statement,
    };
}
