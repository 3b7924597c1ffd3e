use drain_meaning::{FlowOp, NearOp};

/// An operation over maps, in the order of the table of operations.
#[derive(Clone, Copy, Debug, PartialEq, Eq)]
pub enum Op {
    /// The operand as it is: what a statement does whose right side has no operation.
    CopyOf,
    /// `+`.
    Add,
    /// `-` of two.
    Sub,
    /// `*`.
    Mul,
    /// `/`.
    Div,
    /// `idiv`.
    IntDiv,
    /// `mod`.
    IntMod,
    /// Unary `-`.
    Neg,
    /// `abs`.
    Abs,
    /// `rounddown`.
    RoundDown,
    /// `roundup`.
    RoundUp,
    /// `roundoff`.
    RoundOff,
    /// `min` of two.
    Min,
    /// `max` of two.
    Max,
    /// `==`.
    Equal,
    /// `!=`.
    NotEqual,
    /// `<`.
    Less,
    /// `<=`.
    LessEqual,
    /// `>`.
    Greater,
    /// `>=`.
    GreaterEqual,
    /// `and`.
    And,
    /// `or`.
    Or,
    /// `xor`.
    Xor,
    /// `not`.
    Not,
    /// `if(c then a)`.
    IfThen,
    /// `if(c then a else b)`.
    IfElse,
    /// `cover` of two.
    Cover,
    /// `defined`.
    Defined,
    /// `boolean`.
    ToBoolean,
    /// `nominal`.
    ToNominal,
    /// `ordinal`.
    ToOrdinal,
    /// `scalar`.
    ToScalar,
    /// `directional`.
    ToDirectional,
    /// `lookupboolean`.
    LookupBoolean,
    /// `lookupnominal`.
    LookupNominal,
    /// `lookupordinal`.
    LookupOrdinal,
    /// `lookupscalar`.
    LookupScalar,
    /// `lookupdirectional`.
    LookupDirectional,
    /// `timeinputboolean`.
    TimeInputBoolean,
    /// `timeinputnominal`.
    TimeInputNominal,
    /// `timeinputordinal`.
    TimeInputOrdinal,
    /// `timeinputscalar`.
    TimeInputScalar,
    /// `timeinputdirectional`.
    TimeInputDirectional,
    /// `windowtotal`.
    WindowTotal,
    /// `windowaverage`.
    WindowAverage,
    /// `windowminimum`.
    WindowMinimum,
    /// `windowmaximum`.
    WindowMaximum,
    /// `windowdiversity`.
    WindowDiversity,
    /// `windowmajority`.
    WindowMajority,
    /// `areatotal`.
    AreaTotal,
    /// `areaaverage`.
    AreaAverage,
    /// `areaminimum`.
    AreaMinimum,
    /// `areamaximum`.
    AreaMaximum,
    /// `areadiversity`.
    AreaDiversity,
    /// `areamajority`.
    AreaMajority,
    /// `areaarea`.
    AreaArea,
    /// `maptotal`.
    MapTotal,
    /// `mapminimum`.
    MapMinimum,
    /// `mapmaximum`.
    MapMaximum,
    /// `upstream` or `downstream`.
    Near(NearOp),
    /// A transport along drain directions. The first four have words: `accuflux`, `accuthresholdflux`,
    /// `accuthresholdstate` and `catchment`.
    Flow(FlowOp),
}
