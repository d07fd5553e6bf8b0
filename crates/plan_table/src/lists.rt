//! The lists of a report: contracts see each as a list.
ghost use Rattle.std.specs.Prelude.{◌≡◌};

use crate::report::{LoadLine, RunLine};
use std::marker::Model;

/// Loads, one for each resource in file order.
#[derive(Drop)]
pub struct LoadLines {
    items: Vec<LoadLine>,
}

impl Model for LoadLines {
    ghost use Rattle.std.specs.Prelude.{List};
    ghost use Rattle.plan_table.specs.declared.report.LoadLine.{LoadLine};

    ghost Value = { List LoadLine };

    ghost view = { λ l. l.items.items };
}

impl LoadLines {
    pub fn as_slice(&self) -> &[LoadLine]
        ensures { result.now ≡ self.now }
    {
        self.items.as_slice()
    }

    pub fn from_vec(items: Vec<LoadLine>) -> LoadLines
        ensures { result ≡ items.items }
    {
        LoadLines { items }
    }

    pub fn into_vec(self) -> Vec<LoadLine>
        ensures { result.items ≡ self }
    {
        let LoadLines { items } = self;
        items
    }
}

/// Interventions in progress, in file order.
#[derive(Drop)]
pub struct RunLines {
    items: Vec<RunLine>,
}

impl Model for RunLines {
    ghost use Rattle.std.specs.Prelude.{List};
    ghost use Rattle.plan_table.specs.declared.report.RunLine.{RunLine};

    ghost Value = { List RunLine };

    ghost view = { λ l. l.items.items };
}

impl RunLines {
    pub fn as_slice(&self) -> &[RunLine]
        ensures { result.now ≡ self.now }
    {
        self.items.as_slice()
    }

    pub fn from_vec(items: Vec<RunLine>) -> RunLines
        ensures { result ≡ items.items }
    {
        RunLines { items }
    }

    pub fn into_vec(self) -> Vec<RunLine>
        ensures { result.items ≡ self }
    {
        let RunLines { items } = self;
        items
    }
}

/// Broken exclusions by number, in file order.
#[derive(Drop)]
pub struct ClashLines {
    items: Vec<u32>,
}

impl Model for ClashLines {
    ghost use Rattle.std.specs.Prelude.{ℕ, List};

    ghost Value = { List ℕ };

    ghost view = { λ l. l.items.items };
}

impl ClashLines {
    pub fn as_slice(&self) -> &[u32]
        ensures { result.now ≡ self.now }
    {
        self.items.as_slice()
    }

    pub fn from_vec(items: Vec<u32>) -> ClashLines
        ensures { result ≡ items.items }
    {
        ClashLines { items }
    }

    pub fn into_vec(self) -> Vec<u32>
        ensures { result.items ≡ self }
    {
        let ClashLines { items } = self;
        items
    }
}
