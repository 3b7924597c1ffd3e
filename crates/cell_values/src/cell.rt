/// One cell of a map.
#[derive(Clone, Copy, Debug, PartialEq, Eq)]
pub enum Cell {
    /// A missing value.
    Mv,
    /// A value in the range of the map's kind; millionths where the kind is scalar or directional.
    Val(i64),
}

/// The result of an operation lies outside the range of its kind.
#[derive(Clone, Copy, Debug, PartialEq, Eq)]
pub struct Over;

/// Why a text gives no value.
#[derive(Clone, Copy, Debug, PartialEq, Eq)]
pub enum NumberFault {
    /// The text is no decimal.
    BadNumber,
    /// The decimal has no value of the kind.
    Range,
}
