/// An operation over the cells of an area.
#[derive(Clone, Copy, Debug, PartialEq, Eq)]
pub enum AreaOp {
    /// The sum of the values: `areatotal`, `maptotal`.
    Total,
    /// The sum over the number of values, rounded to millionths: `areaaverage`.
    Average,
    /// The least value: `areaminimum`, `mapminimum`.
    Minimum,
    /// The greatest value: `areamaximum`, `mapmaximum`.
    Maximum,
    /// How many different values there are: `areadiversity`.
    Diversity,
    /// The most frequent value, the least of several: `areamajority`.
    Majority,
    /// How many cells the area has: `areaarea`.
    Area,
}
