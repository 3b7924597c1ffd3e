use thiserror::Error;

/// Where a fault of meaning stands. Entries and statements count from 1, statements over both sections.
#[derive(Clone, Copy, Debug, PartialEq, Eq)]
pub enum Place {
    /// An entry of the section `binding`.
    Binding(u32),
    /// The area map.
    Area,
    /// A statement.
    Statement(u32),
}

/// What is wrong in a script that reads well.
#[derive(Clone, Copy, Debug, PartialEq, Eq, Error)]
pub enum MeaningKind {
    /// A name that is neither bound nor assigned, or a word of no operation.
    #[error("unknown name")]
    UnknownName,
    /// Operands whose number or kinds no operation takes, a number that is no value of its kind, or a name with two kinds.
    #[error("the kinds do not agree")]
    KindMismatch,
    /// A name that is read above its assignment.
    #[error("the name has no value here")]
    NotAssigned,
    /// A prefix that gives no names of eleven bytes for a stack of maps.
    #[error("no prefix of a stack of maps")]
    BadStackName,
    /// A name or a file that is used in two ways.
    #[error("the name is used in two ways")]
    NameClash,
    /// The length of a window that is no odd whole number from 1 to 31.
    #[error("no length of a window")]
    BadWindow,
    /// An operation of the section `dynamic` that stands elsewhere, or a time series that is no whole right side or not at the name
    /// of an input grid.
    #[error("the operation may not stand here")]
    WrongSection,
    /// A local drain direction map in a place where none may stand, or none where one is asked.
    #[error("no drain map may stand here")]
    DrainPlace,
    /// More operations than a section may have, or more stacks read or written than a script may.
    #[error("too many")]
    TooMany,
}

/// A fault of meaning and its place.
#[derive(Clone, Copy, Debug, PartialEq, Eq, Error)]
#[error("{kind}")]
pub struct MeaningFault {
    pub at: Place,
    pub kind: MeaningKind,
}
