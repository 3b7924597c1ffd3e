//! Tables, series and drain maps that several may hold.

ghost use Rattle.std.specs.Prelude.{◌≡◌, IfOk};

use drain_meaning::Drain;
use lookup_table::Table;
use std::alloc::{AllocError, Global};
use std::marker::Model;
use std::sync::Arc;
use time_series::Series;

/// A lookup table that several may hold. Contracts see the table.
#[derive(Drop)]
pub struct SharedTable {
    shared: Arc<Table>,
}

impl Model for SharedTable {
    ghost use Rattle.lookup_table.specs.Form.{TableValue};

    ghost Value = { TableValue };

    ghost view = { λ t. t.shared.value };
}

impl SharedTable {
    /// This table.
    pub fn new(alloc: Global, table: Table) -> Result<SharedTable, AllocError>
        ensures { IfOk result (λ shared. shared ≡ table) }
    {
        Ok(SharedTable {
            shared: Arc::new(alloc, table)?,
        })
    }

    /// The same table, held once more; nothing is copied.
    pub fn share(&self) -> Result<SharedTable, AllocError>
        ensures { IfOk result (λ shared. shared ≡ self.now) }
    {
        Ok(SharedTable {
            shared: Arc::try_clone(&self.shared)?,
        })
    }

    /// The table.
    pub fn table(&self) -> &Table
        ensures { result.now ≡ self.now }
    {
        &self.shared
    }
}

/// A time series that several may hold. Contracts see the series.
#[derive(Drop)]
pub struct SharedSeries {
    shared: Arc<Series>,
}

impl Model for SharedSeries {
    ghost use Rattle.time_series.specs.Form.{SeriesValue};

    ghost Value = { SeriesValue };

    ghost view = { λ s. s.shared.value };
}

impl SharedSeries {
    /// This series.
    pub fn new(alloc: Global, series: Series) -> Result<SharedSeries, AllocError>
        ensures { IfOk result (λ shared. shared ≡ series) }
    {
        Ok(SharedSeries {
            shared: Arc::new(alloc, series)?,
        })
    }

    /// The same series, held once more; nothing is copied.
    pub fn share(&self) -> Result<SharedSeries, AllocError>
        ensures { IfOk result (λ shared. shared ≡ self.now) }
    {
        Ok(SharedSeries {
            shared: Arc::try_clone(&self.shared)?,
        })
    }

    /// The series.
    pub fn series(&self) -> &Series
        ensures { result.now ≡ self.now }
    {
        &self.shared
    }
}

/// A sound drain map that several may hold. Contracts see the drain map.
#[derive(Drop)]
pub struct SharedDrain {
    shared: Arc<Drain>,
}

impl Model for SharedDrain {
    ghost use Rattle.drain_meaning.specs.Drains.{DrainMap};

    ghost Value = { DrainMap };

    ghost view = { λ d. d.shared.value };
}

impl SharedDrain {
    /// This drain map.
    pub fn new(alloc: Global, drain: Drain) -> Result<SharedDrain, AllocError>
        ensures { IfOk result (λ shared. shared ≡ drain) }
    {
        Ok(SharedDrain {
            shared: Arc::new(alloc, drain)?,
        })
    }

    /// The same drain map, held once more; nothing is copied.
    pub fn share(&self) -> Result<SharedDrain, AllocError>
        ensures { IfOk result (λ shared. shared ≡ self.now) }
    {
        Ok(SharedDrain {
            shared: Arc::try_clone(&self.shared)?,
        })
    }

    /// The drain map.
    pub fn drain(&self) -> &Drain
        ensures { result.now ≡ self.now }
    {
        &self.shared
    }
}
