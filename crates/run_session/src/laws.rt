//! What holds of all time series.

ghost use Rattle.run_session.specs.Laws.{ColumnsAreIds};

/// The columns of a time series ascend, and are exactly the positive values of the map of its ids, each of them once.
pub fn columns_are_the_positive_ids()
    ensures { ColumnsAreIds }
{}
