//! The sizes that the program takes. Each is the greatest number that is allowed.

/// Bytes that one session takes from its source.
pub const MAX_SOURCE_BYTES: u64 = 67_108_864;

/// Bytes of the stem of a file name.
pub const MAX_STEM_BYTES: u32 = 64;

/// Bytes of one file.
pub const MAX_FILE_BYTES: u32 = 1_048_576;

/// Files of a session.
pub const MAX_FILES: u32 = 256;

/// Bytes of a session line, its newline left out.
pub const MAX_LINE_BYTES: u32 = 200;

/// Head tokens of one equation.
pub const MAX_HEAD_TOKENS: u32 = 5_000;

/// Constructs that are open at one position of a text.
pub const MAX_NESTING: u32 = 200;

/// Operators of a flat trait.
pub const MAX_OPERATORS: u32 = 1_000;

/// Statements of a flat trait.
pub const MAX_STATEMENTS: u32 = 1_000;

/// Term nodes of a flat trait.
pub const MAX_TRAIT_NODES: u32 = 100_000;

/// Duties of a trait.
pub const MAX_DUTIES: u32 = 1_000;

/// Commands of one block of a script.
pub const MAX_COMMANDS: u32 = 1_000;

/// Facts of one level of a proof.
pub const MAX_FACTS: u32 = 5_000;

/// Nodes of a term in a proof.
pub const MAX_TERM_NODES: u32 = 5_000;

/// The rewriting limit that may be set.
pub const MAX_REWRITING_LIMIT: u32 = 100_000;

/// The rewriting limit where none is set.
pub const DEFAULT_REWRITING_LIMIT: u32 = 1_000;
