/// The kind of a map, PCRaster's data type.
#[derive(Clone, Copy, Debug, PartialEq, Eq)]
pub enum Kind {
    /// True or false, 1 or 0.
    Boolean,
    /// A class without an order.
    Nominal,
    /// A class with an order.
    Ordinal,
    /// A quantity, counted in millionths.
    Scalar,
    /// A direction, counted in millionths of a degree.
    Directional,
    /// A local drain direction, named as on a numeric keypad.
    Ldd,
}
