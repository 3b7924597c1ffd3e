//! The small examples, made by `scripts/examples-in-tests` from the folders of examples/, which the built program runs too.

use crate::files::{File, PUT, folder_with};
use crate::runs::{expect_end, expect_puts};
use std::alloc::Global;
use std::process::Abort;
use std::sync::Wait;
use std::test::Fail;
use std::thread::Threads;

/// An example: its words, its script, its other files, its status, its line, and what it puts, in order.
type Example = (
    &'static str,
    &'static str,
    &'static [File],
    u8,
    &'static str,
    &'static [File],
);

/// first-sum
static FIRST_SUM: Example = (
    "plain m.mod",
    "binding A = a.asc; B = b.asc; areamap A; initial report C = A + B;",
    &[
        (
            "a.asc",
            "ncols 2\nnrows 1\nxllcorner 0\nyllcorner 0\ncellsize 1\n1 2\n",
        ),
        (
            "b.asc",
            "ncols 2\nnrows 1\nxllcorner 0\nyllcorner 0\ncellsize 1\n3 4\n",
        ),
    ],
    0,
    "done files=1 steps=0\n",
    &[(
        "C",
        "ncols 2\nnrows 1\nxllcorner 0\nyllcorner 0\ncellsize 1\nNODATA_value 1e31\n4 6\n",
    )],
);

/// gauged-areas
static GAUGED_AREAS: Example = (
    "plain m.mod",
    "#! timeoutput mean\n# Rain, soil moisture and runoff of three gauged areas, as means over the area above each gauge: what is compared with\n# what the gauges give. Lengths are millimetres, steps are days.\nbinding\n Rain = rain.tss;                       # a column for each rain gauge\n Evaporation = evaporation.tss;         # what a full soil evaporates, the same everywhere\n Nearest = nearest.asc : nominal;       # the rain gauge that is nearest to a cell\n Area = area.asc : nominal;             # the gauged area that a cell belongs to, 0 for none\n Soil = soil.asc : nominal;             # 1 sand, 2 loam, 3 clay; missing on open water\n Capacity = capacity.tbl;               # what a soil can hold\n MeanRain = rain_mean.tss;  Moisture = moisture.tss;  Runoff = runoff.tss;\nareamap Area;\ntimer 1 8 1;\ninitial\n Cap = lookupscalar(Capacity, Soil);\n Store = Cap / 2;\ndynamic\n Fallen = timeinputscalar(Rain, Nearest);           # missing where the nearest gauge has no reading\n Dried = Store - timeinputscalar(Evaporation, 1) * Store / Cap;\n Full = Dried + cover(Fallen, 0);\n Store = min(Full, Cap);\n report MeanRain = timeoutput(Area, Fallen);\n report Moisture = timeoutput(Area, 100 * Store / Cap);   # percent of what the soils can hold\n report Runoff = timeoutput(Area, Full - Store);\n",
    &[
        (
            "area.asc",
            "ncols 12\nnrows 8\nxllcorner 204000\nyllcorner 475000\ncellsize 500\nNODATA_value -9999\n0 1 1 1 1 2 2 2 2 2 0 0\n1 1 1 1 1 2 2 2 2 2 2 0\n1 1 1 1 1 1 2 2 2 2 2 2\n0 1 1 1 1 1 2 2 2 2 2 0\n0 1 1 1 1 3 3 3 2 2 0 0\n0 0 3 3 3 3 3 3 3 3 0 0\n0 0 0 3 3 3 3 3 3 3 3 0\n0 0 0 0 3 3 3 3 3 0 0 0\n",
        ),
        ("capacity.tbl", "1 40\n2 60\n3 80\n"),
        (
            "evaporation.tss",
            "evaporation of a full soil in millimetres a day\n2\ntimestep\n1\n1 4\n2 2\n3 2\n4 2\n5 4\n6 5\n7 2\n8 4\n",
        ),
        (
            "nearest.asc",
            "ncols 12\nnrows 8\nxllcorner 204000\nyllcorner 475000\ncellsize 500\nNODATA_value -9999\n1 1 1 1 1 1 2 2 2 2 2 2\n1 1 1 1 1 1 2 2 2 2 2 2\n1 1 1 1 1 1 2 2 2 2 2 2\n1 1 1 1 1 1 2 2 2 2 2 2\n1 1 1 1 1 3 3 3 2 2 2 2\n3 3 3 3 3 3 3 3 3 3 3 3\n3 3 3 3 3 3 3 3 3 3 3 3\n3 3 3 3 3 3 3 3 3 3 3 3\n",
        ),
        (
            "rain.tss",
            "rain in millimetres a day, 1e31 where a gauge has no reading\n4\ntimestep\nwest\neast\nsouth\n1 0 0 0\n2 12 6 8\n3 30 24 20\n4 18 14 1e31\n5 2 4 0\n6 0 0 0\n7 40 36 44\n8 0 0 1\n",
        ),
        (
            "soil.asc",
            "ncols 12\nnrows 8\nxllcorner 204000\nyllcorner 475000\ncellsize 500\nNODATA_value -9999\n3 3 3 2 2 2 2 3 3 3 3 3\n3 3 2 2 2 1 2 2 3 3 3 3\n3 2 2 2 1 1 1 2 2 3 3 3\n3 2 2 1 1 1 1 1 2 2 3 3\n2 2 2 1 1 -9999 -9999 1 1 2 2 3\n2 2 1 1 -9999 -9999 -9999 1 1 2 2 2\n2 2 2 1 1 -9999 1 1 2 2 2 2\n2 2 2 2 1 1 1 2 2 2 2 2\n",
        ),
    ],
    0,
    "done files=3 steps=8\n",
    &[
        (
            "rain_mean.tss",
            "timeseries scalar\n4\ntimestep\n1\n2\n3\n1 0 0 0\n2 12 6.5 8\n3 30 24.5 20\n4 18 14.333333 1e31\n5 2 3.833333 0\n6 0 0 0\n7 40 36.333333 44\n8 0 0 1\n",
        ),
        (
            "moisture.tss",
            "timeseries scalar\n4\ntimestep\n1\n2\n3\n1 46.354167 46.666667 45.555556\n2 66.547744 56.161459 61.314815\n3 99.433268 90.452687 96.609877\n4 100 99.127295 92.278436\n5 96.354167 98.823708 84.015429\n6 87.593316 90.579807 74.639144\n7 100 100 100\n8 92.708333 93.333333 93.333333\n",
        ),
        (
            "runoff.tss",
            "timeseries scalar\n4\ntimestep\n1\n2\n3\n1 0 0 0\n2 0 0 0\n3 9.028681 2.04956 2.563333\n4 15.557949 6.032988 0\n5 0 0 0\n6 0 0 0\n7 31.430426 28.750629 30.649037\n8 0 0 0\n",
        ),
    ],
);

/// soil-bucket
static SOIL_BUCKET: Example = (
    "plain m.mod",
    "# A soil bucket: rain fills it, evaporation empties it in proportion to what is there, what is too much runs off.\n# Lengths are millimetres, steps are days.\nbinding\n Rain = rain.tss;                       # a column for each gauge\n Demand = demand.tss;                   # what a full soil would evaporate\n Gauges = gauges.asc : nominal;         # which gauge a cell belongs to\n Soil = soil.asc : nominal;\n Capacity = capacity.tbl;               # what a soil can hold\n Moist = moist;                         # a map for each day: moist000.001 ..\n Stores = store.tss;  Runoff = runoff.tss;\nareamap Soil;\ntimer 1 6 1;\ninitial\n Cap = lookupscalar(Capacity, Soil);\n Store = Cap * 0.5;\n Lost = 0;\ndynamic\n Evap = min(Store, timeinputscalar(Demand, Gauges) * Store / Cap);\n Full = Store - Evap + cover(timeinputscalar(Rain, Gauges), 0);   # no reading: no rain\n Over = max(0, Full - Cap);\n Store = Full - Over;\n Lost = Lost + Over;\n report Moist = Store / Cap;\n report Stores = timeoutput(Soil, Store);\n report Runoff = timeoutput(Soil, Lost);\n",
    &[
        ("capacity.tbl", "1 150\n2 100\n3 60\n"),
        (
            "demand.tss",
            "potential evaporation, mm a day\n3\ntimestep\nwest\neast\n1 2 2.5\n2 1 1\n3 0.5 0.4\n4 3 3\n5 3.2 3.6\n6 4 4\n",
        ),
        (
            "gauges.asc",
            "ncols 4\nnrows 3\nxllcorner 181000\nyllcorner 331500\ncellsize 25\nNODATA_value -9999\n1 1 1 2\n1 1 2 2\n1 2 2 2\n",
        ),
        (
            "rain.tss",
            "rain, mm a day\n3\ntimestep\nwest\neast\n1 0 0\n2 12.5 8\n3 64 71.4\n4 3 0\n5 40 1e31\n6 0 2\n",
        ),
        (
            "soil.asc",
            "ncols 4\nnrows 3\nxllcorner 181000\nyllcorner 331500\ncellsize 25\nNODATA_value -9999\n1 1 2 2\n1 2 2 3\n-9999 2 3 3\n",
        ),
    ],
    0,
    "done files=8 steps=6\n",
    &[
        (
            "moist000.001",
            "ncols 4\nnrows 3\nxllcorner 181000\nyllcorner 331500\ncellsize 25\nNODATA_value 1e31\n0.493333 0.493333 0.49 0.4875\n0.493333 0.49 0.4875 0.479167\n1e31 0.4875 0.479167 0.479167\n",
        ),
        (
            "moist000.002",
            "ncols 4\nnrows 3\nxllcorner 181000\nyllcorner 331500\ncellsize 25\nNODATA_value 1e31\n0.573378 0.573378 0.6101 0.562625\n0.573378 0.6101 0.562625 0.604514\n1e31 0.562625 0.604514 0.604514\n",
        ),
        (
            "moist000.003",
            "ncols 4\nnrows 3\nxllcorner 181000\nyllcorner 331500\ncellsize 25\nNODATA_value 1e31\n0.998133 0.998133 1 1\n0.998133 1 1 1\n1e31 1 1 1\n",
        ),
        (
            "moist000.004",
            "ncols 4\nnrows 3\nxllcorner 181000\nyllcorner 331500\ncellsize 25\nNODATA_value 1e31\n0.998171 0.998171 1 0.97\n0.998171 1 0.97 0.95\n1e31 0.97 0.95 0.95\n",
        ),
        (
            "moist000.005",
            "ncols 4\nnrows 3\nxllcorner 181000\nyllcorner 331500\ncellsize 25\nNODATA_value 1e31\n1 1 1 0.93508\n1 1 0.93508 0.893\n1e31 0.93508 0.893 0.893\n",
        ),
        (
            "moist000.006",
            "ncols 4\nnrows 3\nxllcorner 181000\nyllcorner 331500\ncellsize 25\nNODATA_value 1e31\n0.973333 0.973333 0.96 0.917677\n0.973333 0.96 0.917677 0.8668\n1e31 0.917677 0.8668 0.8668\n",
        ),
        (
            "store.tss",
            "timeseries scalar\n4\ntimestep\n1\n2\n3\n1 74 49 28.75\n2 86.006667 61.01 36.270833\n3 149.719978 100 60\n4 149.725578 100 57\n5 150 100 53.58\n6 146 96 52.008\n",
        ),
        (
            "runoff.tss",
            "timeseries scalar\n4\ntimestep\n1\n2\n3\n1 0 0 0\n2 0 0 0\n3 0 24.70495 47.429027\n4 0 24.70495 47.429027\n5 36.531432 61.50495 47.429027\n6 36.531432 61.50495 47.429027\n",
        ),
    ],
);

/// storm-runoff
static STORM_RUNOFF: Example = (
    "plain m.mod",
    "# Runoff of one storm: the rain beyond what the ground takes in and its hollows hold. Amounts are in millimetres.\nbinding\n Rain = rain.asc;              # missing where no gauge is near\n Soil = soil.asc : nominal;    # 1 sand, 2 loam, 3 clay\n Slope = slope.asc;            # percent\n Paved = paved.asc : boolean;  # missing outside of the village\n MeanRain = 42;\n Hollows = 2;\n Steepness = steepness.asc;\n Capacity = capacity.asc;\n Runoff = runoff.asc;\n Share = share.asc;\n Flooded = flooded.asc;\nareamap Soil;\ninitial\n report Steepness = nominal(if(Slope < 5 then 1 else if(Slope < 15 then 2 else 3)));\n # what a soil takes in on flat ground, less of it on steeper slopes, and nothing of it under a road or a roof\n OnFlat = if(Soil == 1 then 60 else if(Soil == 2 then 35 else 15));\n report Capacity = if(cover(Paved, 0) then 0 else OnFlat / scalar(Steepness));\n Fallen = cover(Rain, MeanRain);\n report Runoff = max(Fallen - Capacity - Hollows, 0);\n report Share = Runoff / Fallen;\n # water stands where much comes and the ground is flat\n report Flooded = Runoff >= 25 and Steepness == 1;\n",
    &[
        (
            "paved.asc",
            "ncols 8\nnrows 6\nxllcorner 180000\nyllcorner 330000\ncellsize 25\nNODATA_value -9999\n-9999 -9999 -9999 -9999 -9999 -9999 -9999 -9999\n-9999 -9999 -9999 -9999 -9999 -9999 -9999 -9999\n-9999 -9999 -9999 -9999 0 1 1 0\n-9999 -9999 -9999 -9999 1 1 0 0\n-9999 -9999 -9999 -9999 0 1 0 0\n-9999 -9999 -9999 -9999 -9999 -9999 -9999 -9999\n",
        ),
        (
            "rain.asc",
            "ncols 8\nnrows 6\nxllcorner 180000\nyllcorner 330000\ncellsize 25\nNODATA_value -9999\n38 38.5 39 40 41.5 43 44 44\n38 39 40 41 42 43.5 44 45\n39 40 41 42 43 44 45 45.5\n-9999 41 42 43 44 45 46 46\n-9999 -9999 43 44 45 46 47 47\n-9999 -9999 44 45 46 47 48 48\n",
        ),
        (
            "slope.asc",
            "ncols 8\nnrows 6\nxllcorner 180000\nyllcorner 330000\ncellsize 25\nNODATA_value -9999\n18 16 12 9 6 4 2 1\n17 14 11 8 5 3 2 1\n13 12 9 6 4 2 1 1\n10 9 7 4 2 1 1 2\n8 6 4 3 1 1 2 4\n6 4 3 2 1 2 4 7.5\n",
        ),
        (
            "soil.asc",
            "ncols 8\nnrows 6\nxllcorner 180000\nyllcorner 330000\ncellsize 25\nNODATA_value -9999\n1 1 1 2 2 2 3 3\n1 1 2 2 2 3 3 3\n1 2 2 2 3 3 3 3\n2 2 2 3 3 3 3 3\n2 2 3 3 3 3 2 2\n2 3 3 3 3 2 2 -9999\n",
        ),
    ],
    0,
    "done files=5 steps=0\n",
    &[
        (
            "steepness.asc",
            "ncols 8\nnrows 6\nxllcorner 180000\nyllcorner 330000\ncellsize 25\nNODATA_value 1e31\n3 3 2 2 2 1 1 1\n3 2 2 2 2 1 1 1\n2 2 2 2 1 1 1 1\n2 2 2 1 1 1 1 1\n2 2 1 1 1 1 1 1\n2 1 1 1 1 1 1 2\n",
        ),
        (
            "capacity.asc",
            "ncols 8\nnrows 6\nxllcorner 180000\nyllcorner 330000\ncellsize 25\nNODATA_value 1e31\n20 20 30 17.5 17.5 35 15 15\n20 30 17.5 17.5 17.5 15 15 15\n30 17.5 17.5 17.5 15 0 0 15\n17.5 17.5 17.5 15 0 0 15 15\n17.5 17.5 15 15 15 0 35 35\n17.5 15 15 15 15 35 35 1e31\n",
        ),
        (
            "runoff.asc",
            "ncols 8\nnrows 6\nxllcorner 180000\nyllcorner 330000\ncellsize 25\nNODATA_value 1e31\n16 16.5 7 20.5 22 6 27 27\n16 7 20.5 21.5 22.5 26.5 27 28\n7 20.5 21.5 22.5 26 42 43 28.5\n22.5 21.5 22.5 26 42 43 29 29\n22.5 22.5 26 27 28 44 10 10\n22.5 25 27 28 29 10 11 1e31\n",
        ),
        (
            "share.asc",
            "ncols 8\nnrows 6\nxllcorner 180000\nyllcorner 330000\ncellsize 25\nNODATA_value 1e31\n0.421053 0.428571 0.179487 0.5125 0.53012 0.139535 0.613636 0.613636\n0.421053 0.179487 0.5125 0.52439 0.535714 0.609195 0.613636 0.622222\n0.179487 0.5125 0.52439 0.535714 0.604651 0.954545 0.955556 0.626374\n0.535714 0.52439 0.535714 0.604651 0.954545 0.955556 0.630435 0.630435\n0.535714 0.535714 0.604651 0.613636 0.622222 0.956522 0.212766 0.212766\n0.535714 0.595238 0.613636 0.622222 0.630435 0.212766 0.229167 1e31\n",
        ),
        (
            "flooded.asc",
            "ncols 8\nnrows 6\nxllcorner 180000\nyllcorner 330000\ncellsize 25\nNODATA_value 1e31\n0 0 0 0 0 0 1 1\n0 0 0 0 0 1 1 1\n0 0 0 0 1 1 1 1\n0 0 0 1 1 1 1 1\n0 0 1 1 1 1 0 0\n0 1 1 1 1 0 0 1e31\n",
        ),
    ],
);

// The run of an example ends as it says, and puts what it says.
fn expect_example(
    rt: &(impl Abort + Threads + Wait + Sync),
    alloc: Global,
    example: &Example,
) -> Result<(), Fail> {
    let (words, script, files, answer, line, puts) = *example;
    let mut folder = folder_with(alloc, script, files, 0)?;
    expect_end(rt, alloc, words, &mut folder, answer, line)?;
    expect_puts(rt, alloc, &folder, PUT, puts, words)
}

#[test]
fn first_sum_comes_out(rt: HostRuntime) -> Result<(), Fail> {
    expect_example(&rt, rt.alloc(), &FIRST_SUM)
}

#[test]
fn gauged_areas_comes_out(rt: HostRuntime) -> Result<(), Fail> {
    expect_example(&rt, rt.alloc(), &GAUGED_AREAS)
}

#[test]
fn soil_bucket_comes_out(rt: HostRuntime) -> Result<(), Fail> {
    expect_example(&rt, rt.alloc(), &SOIL_BUCKET)
}

#[test]
fn storm_runoff_comes_out(rt: HostRuntime) -> Result<(), Fail> {
    expect_example(&rt, rt.alloc(), &STORM_RUNOFF)
}
