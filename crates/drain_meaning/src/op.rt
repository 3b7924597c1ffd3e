/// Which cells feed a cell in a transport.
#[derive(Clone, Copy, Debug, PartialEq, Eq)]
pub enum Orient {
    /// Those that drain into it: flow goes down the paths.
    Down,
    /// The one that it drains into: flow goes up the paths, from the pits on.
    Up,
}

/// An operation that looks one step up or down.
#[derive(Clone, Copy, Debug, PartialEq, Eq)]
pub enum NearOp {
    /// `upstream`: the sum over the cells that drain directly into a cell.
    Upstream,
    /// `downstream`: the value of the cell that a cell drains into; at a pit its own.
    Downstream,
}

/// A transport: an operation whose values pass along whole paths.
#[derive(Clone, Copy, Debug, PartialEq, Eq)]
pub enum FlowOp {
    /// `accuflux`: what comes together at a cell flows on.
    Accuflux,
    /// `accuthresholdflux`: what is above a threshold flows on.
    ThresholdFlux,
    /// `accuthresholdstate`: what a threshold keeps.
    ThresholdState,
    /// `accucapacityflux`: at most a capacity flows on.
    CapacityFlux,
    /// `accucapacitystate`: what a capacity keeps.
    CapacityState,
    /// `accutriggerflux`: all flows on where it is above a trigger, else nothing.
    TriggerFlux,
    /// `accutriggerstate`: what a trigger keeps.
    TriggerState,
    /// `accufractionflux`: a fraction flows on.
    FractionFlux,
    /// `accufractionstate`: what a fraction keeps.
    FractionState,
    /// `catchment`: the point farthest down the path.
    Catchment,
    /// `subcatchment`: the point nearest down the path.
    Subcatchment,
    /// `path`: whether a cell lies on the path of a marked one.
    PathOf,
    /// `streamorder`: the order of the stream at a cell.
    StreamOrder,
}
