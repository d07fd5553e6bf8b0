//! What a line of a certificate may be.

use crate::Numbers;

/// The version that a title names.
#[derive(Clone, Copy, Debug, PartialEq, Eq)]
pub enum Version {
    One,
    Two,
}

/// What a certificate claims: that no plan is feasible, or that none that is has a score below this.
#[derive(Clone, Copy, Debug, PartialEq, Eq)]
pub enum Bound {
    NoPlan,
    Least(i128),
}

/// Which of its two limits a load leaves.
#[derive(Clone, Copy, Debug, PartialEq, Eq)]
pub enum Side {
    Over,
    Under,
}

/// A line of a certificate. Its numbers are those of the text, in which resources, interventions,
/// exclusions, scenarios and periods count from 1.
#[derive(Debug, Drop)]
pub enum CertificateLine {
    /// `mpcert 1` or `mpcert 2`.
    Title(Version),
    /// `bound NUMBER` or `bound none`.
    Bound(Bound),
    /// `lists M`: how many price lists follow.
    Lists {
        count: u64,
    },
    /// `prices`: a price list begins.
    Prices,
    /// `up C T V`: the price of a resource's upper limit in a period.
    Up {
        c: u64,
        t: u64,
        v: u64,
    },
    /// `lo C T V`: the price of a resource's lower limit in a period.
    Lo {
        c: u64,
        t: u64,
        v: u64,
    },
    /// `tail T B K1 K2 ..`: the weight of a period's tail, and its scenarios in ascending order.
    Tail {
        t: u64,
        weight: u64,
        places: Numbers,
    },
    /// `ex E T V`: the price of an exclusion in a period.
    Ex {
        e: u64,
        t: u64,
        v: u64,
    },
    /// `tree`: the tree begins.
    Tree,
    /// `split I S`: an intervention, and the last start of the left part.
    Split {
        i: u64,
        last: u64,
    },
    /// `cost J`: the number of a price list.
    Cost {
        list: u64,
    },
    /// `point`.
    Point,
    /// `band C T over` or `band C T under`: a resource whose load leaves its band in a period.
    Band {
        c: u64,
        t: u64,
        side: Side,
    },
    /// `excl E`: an exclusion that is broken.
    Excl {
        e: u64,
    },
    /// `empty I`: an intervention without a start.
    Empty {
        i: u64,
    },
}
