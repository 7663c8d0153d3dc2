//! What is wrong with a source, and where.
use std::alloc::{AllocError, AllocFailed};
use thiserror::Error;

/// The kinds of fault of a source, in the order in which they are reported if two are at one
/// place. `lex` answers `BadCharacter`, `BadColumn` and `BadWord`, and the readers of divisions
/// `BadColumn` and the others but `UnknownName`, `LeavesRange` and `PerformsItself`, which no code
/// answers yet.
#[derive(Clone, Copy, Debug, PartialEq, Eq)]
pub enum SourceKind {
    /// A character that may not stand there, or a literal without its closing quotation mark.
    BadCharacter,
    /// A column that does not fit: an indicator other than a space, `*` and `/` in column 7, or
    /// what begins in the wrong area.
    BadColumn,
    /// A word, a number or a literal that is not formed as one.
    BadWord,
    /// A picture that is not formed as one.
    BadPicture,
    /// Another word or sign is wanted.
    WantedWord,
    /// A name or a clause stands twice.
    TwiceDeclared,
    /// A name is not declared.
    UnknownName,
    /// Something of another kind is wanted.
    WrongKind,
    /// Something of another length is wanted.
    WrongLength,
    /// Control would leave a performed range.
    LeavesRange,
    /// A performed range performs itself.
    PerformsItself,
    /// A second CD entry is INITIAL.
    TwoInitial,
    /// A limit is passed.
    OverLimit,
}

/// A fault of a source: its line and its column, both from 1, and its kind.
#[derive(Clone, Copy, Debug, PartialEq, Eq)]
pub struct SourceFault {
    pub line: u32,
    pub column: u32,
    pub kind: SourceKind,
}

/// Why a source was not read.
#[derive(Clone, Copy, Debug, Error)]
pub enum SourceError {
    /// The source has this fault.
    #[error("line {} column {}: {:?}", .0.line, .0.column, .0.kind)]
    Refused(SourceFault),
    /// Memory ran out.
    #[error("memory ran out")]
    Memory(AllocError),
}

impl From<AllocError> for SourceError {
    ghost use Rattle.std.specs.Prelude.{◌≡◌};
    ghost use Rattle.cob_lex.specs.declared.fault.SourceError.TheVariants.{Memory};

    ghost from_gives = { λ error gives. gives ≡ Memory error };

    fn from(error: AllocError) -> SourceError {
        SourceError::Memory(error)
    }
}

impl<T: Drop> From<AllocFailed<T>> for SourceError {
    ghost use Rattle.std.specs.Prelude.{◌≡◌, alloc_error};
    ghost use Rattle.cob_lex.specs.declared.fault.SourceError.TheVariants.{Memory};

    ghost from_gives = { λ _ error. error ≡ Memory alloc_error };

    fn from(_failed: AllocFailed<T>) -> SourceError {
        SourceError::Memory(AllocError)
    }
}
