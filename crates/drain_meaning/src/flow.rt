/// What flows from one cell to the next in a transport.
#[derive(Clone, Copy, Debug, PartialEq, Eq)]
pub enum Flow {
    /// A missing value.
    Mv,
    /// A number, of any size that the cells of a map can come to.
    Num(i128),
}
