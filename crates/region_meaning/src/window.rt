/// An operation over the cells of a window.
#[derive(Clone, Copy, Debug, PartialEq, Eq)]
pub enum WindowOp {
    /// The sum of the values: `windowtotal`.
    Total,
    /// The sum over the number of values, rounded to millionths: `windowaverage`.
    Average,
    /// The least value: `windowminimum`.
    Minimum,
    /// The greatest value: `windowmaximum`.
    Maximum,
    /// How many different values there are: `windowdiversity`.
    Diversity,
    /// The most frequent value, the least of several: `windowmajority`.
    Majority,
}
