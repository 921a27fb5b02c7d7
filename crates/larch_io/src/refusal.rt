ghost use Rattle.std.specs.Prelude.{◌≡◌};
ghost use Rattle.larch_io.specs.declared.refusal.FolderRefusal.TheVariants.{Failed as folder_failed};
ghost use Rattle.larch_io.specs.declared.refusal.FolderRefusal.TheVariants.{Memory as folder_wants_memory};
ghost use Rattle.larch_io.specs.declared.refusal.TakeRefusal.TheVariants.{Memory as take_wants_memory};
ghost use Rattle.larch_io.specs.declared.refusal.TakeRefusal.TheVariants.{ReadFault as read_failed};
ghost use Rattle.larch_io.specs.declared.refusal.WriteRefusal.TheVariants.{Memory as write_wants_memory};

use larch_base::Memory;
use thiserror::Error;

/// A fault of an object of the outside.
#[derive(Clone, Copy, Debug, PartialEq, Eq, Error)]
#[error("the outside failed")]
pub struct Failed;

/// Why a sink took nothing.
#[derive(Clone, Copy, Debug, PartialEq, Eq, Error)]
pub enum WriteRefusal {
    /// A fault of the sink, which counts it.
    #[error("the sink failed")]
    Failed,
    /// Out of memory.
    #[error("out of memory")]
    Memory,
}

impl From<Memory> for WriteRefusal {
    ghost from_gives = { λ _ refusal. refusal ≡ write_wants_memory };

    fn from(_memory: Memory) -> WriteRefusal {
        WriteRefusal::Memory
    }
}

/// Why a folder gave no file.
#[derive(Clone, Copy, Debug, PartialEq, Eq, Error)]
pub enum FolderRefusal {
    /// A fault of the folder, which counts it.
    #[error("the folder failed")]
    Failed,
    /// The folder has no file of the name.
    #[error("no such file")]
    NotThere,
    /// The file has more bytes than a file may have.
    #[error("the file is too long")]
    TooLong,
    /// Out of memory.
    #[error("out of memory")]
    Memory,
}

impl From<Memory> for FolderRefusal {
    ghost from_gives = { λ _ refusal. refusal ≡ folder_wants_memory };

    fn from(_memory: Memory) -> FolderRefusal {
        FolderRefusal::Memory
    }
}

impl From<Failed> for FolderRefusal {
    ghost from_gives = { λ _ refusal. refusal ≡ folder_failed };

    fn from(_fault: Failed) -> FolderRefusal {
        FolderRefusal::Failed
    }
}

/// Why nothing was taken from a source.
#[derive(Clone, Copy, Debug, PartialEq, Eq, Error)]
pub enum TakeRefusal {
    /// A fault of the source, which counts it.
    #[error("the source failed")]
    ReadFault,
    /// The source ended first.
    #[error("the source ended")]
    End,
    /// The line has too many bytes.
    #[error("the line is too long")]
    TooLong,
    /// More bytes than may be taken from a source.
    #[error("too many bytes")]
    Full,
    /// Out of memory.
    #[error("out of memory")]
    Memory,
}

impl From<Memory> for TakeRefusal {
    ghost from_gives = { λ _ refusal. refusal ≡ take_wants_memory };

    fn from(_memory: Memory) -> TakeRefusal {
        TakeRefusal::Memory
    }
}

impl From<Failed> for TakeRefusal {
    ghost from_gives = { λ _ refusal. refusal ≡ read_failed };

    fn from(_fault: Failed) -> TakeRefusal {
        TakeRefusal::ReadFault
    }
}
