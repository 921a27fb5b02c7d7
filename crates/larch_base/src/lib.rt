//! Names, positions, codes, limits and the counter of steps: the words that every other crate speaks.
#![tactic(auto)]

mod by_number;
mod bytes;
mod code;
mod fact_name;
mod fault;
mod file_name;
mod label;
mod letting_go;
pub mod limits;
mod memory;
mod name;
mod number;
mod position;
mod sequence;
mod steps;
mod way;
mod word;

pub use by_number::numbered;
pub use bytes::Bytes;
pub use code::Code;
pub use fact_name::{FactLetter, FactName};
pub use fault::Fault;
pub use file_name::{FileName, NameRefusal, is_stem};
pub use label::{Label, read_label};
pub use letting_go::let_go;
pub use memory::Memory;
pub use name::Name;
pub use number::read_number;
pub use position::Pos;
pub use sequence::Sequence;
pub use steps::Steps;
pub use way::Way;
pub use word::is_word;
