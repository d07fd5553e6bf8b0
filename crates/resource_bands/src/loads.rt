//! The loads of the runs on board, with how far they are outside their limits.
ghost use Rattle.std.specs.Prelude.{◌≡◌, ◌^◌, ◌<◌, ◌≤◌, length, map, replicate, unsigned_abs, slice_set, Some, None};
ghost use Rattle.std.specs.Prelude.{IfOk, IsSome, IsTrue};
ghost use Rattle.instance_model.specs.Tables.{Tables, is_allowed};
ghost use Rattle.instance_model.specs.Plans.{start_of, load_sum, AreAllowedStarts};
ghost use Rattle.instance_model.specs.Keys.{band_gaps};
ghost use Rattle.resource_bands.specs.BoardLoads.{IsOver, kept_row};
ghost use Rattle.resource_bands.specs.Gaps.{start_before, start_after};

use crate::change::Change;
use crate::row::Row;
use crate::rows::{change_rows, gap_of_rows, idle_rows};
use fixed_num::Amount;
use instance_model::Instance;
use std::alloc::{AllocError, Global};
use std::marker::Model;

/// The runs on board: contracts see their starts beside what is kept of their loads.
#[derive(Drop)]
pub struct Loads {
    board: Vec<Option<u32>>,
    rows: Vec<Row>,
    violation: Amount,
}

impl Model for Loads {
    ghost use Rattle.resource_bands.specs.BoardLoads.{BoardLoads};

    ghost Value = { BoardLoads };

    ghost view = { λ l. record { board = l.board.items; loads = l.rows.items; violation = l.violation } };
}

impl Loads {
    /// The loads of these starts, with all interventions on board. Takes memory, as no other call does.
    pub fn make(alloc: Global, inst: &Instance, starts: &[u32]) -> Result<Loads, AllocError>
        requires { AreAllowedStarts inst.now starts.now }
        ensures over { IfOk result (IsOver inst.now) }
        ensures board { IfOk result (λ loads. loads.board ≡ map Some starts.now) }
    {
        let mut loads = Loads::idle(alloc, inst)?;
        for i in 0..inst.interventions() {
            loads.add_run(inst, i, starts[i as usize]);
        }
        Ok(loads)
    }

    /// Nothing on board.
    fn idle(alloc: Global, inst: &Instance) -> Result<Loads, AllocError>
        ensures over { IfOk result (IsOver inst.now) }
        ensures board { IfOk result (λ loads. loads.board ≡ replicate (length inst.now.names) None) }
    {
        let board = vec![in alloc; None; inst.interventions() as usize]?;
        let rows = idle_rows(alloc, inst)?;
        let violation = gap_of_rows(inst, &rows);
        Ok(Loads {
            board,
            rows,
            violation,
        })
    }

    /// Puts intervention `i` on board at start `s`.
    pub fn add_run(&mut self, inst: &Instance, i: u32, s: u32)
        requires over { IsOver inst.now self.old }
        requires number { i < length inst.now.names }
        requires idle { start_of self.old.board i ≡ None }
        requires allowed { IsTrue (is_allowed inst.now i s) }
        ensures over { IsOver inst.now self.new }
        ensures board { self.new.board ≡ slice_set self.old.board i (Some s) }
    {
        self.change_run(inst, i, s, Change::Add);
    }

    /// Takes intervention `i` off board.
    pub fn take_run(&mut self, inst: &Instance, i: u32)
        requires over { IsOver inst.now self.old }
        requires number { i < length inst.now.names }
        requires on_board { IsSome (start_of self.old.board i) }
        ensures over { IsOver inst.now self.new }
        ensures board { self.new.board ≡ slice_set self.old.board i None }
    {
        let Some(s) = self.board[i as usize] else {
            unreachable!();
        };
        self.change_run(inst, i, s, Change::Take);
    }

    /// Puts the run of intervention `i` at start `s` on board, or takes it off. Visits each
    /// resource once in each period of the run.
    fn change_run(&mut self, inst: &Instance, i: u32, s: u32, change: Change)
        requires over { IsOver inst.now self.old }
        requires number { i < length inst.now.names }
        requires allowed { IsTrue (is_allowed inst.now i s) }
        requires start { start_of self.old.board i ≡ start_before change s }
        ensures over { IsOver inst.now self.new }
        ensures board { self.new.board ≡ slice_set self.old.board i (start_after change s) }
    {
        inst.fits();
        let further = change_rows(&mut self.rows, inst, i, s, change);
        self.violation = self.violation.plus(further);
        self.board[i as usize] = change.start(s);
    }

    /// The load of resource `c` in period `t`.
    pub fn load(&self, c: u32, t: u32) -> i128
        requires resource { c < length self.now.loads }
        requires from { 1 ≤ t }
        requires to { t ≤ length (kept_row self.now c) }
        ensures value { (inst : Tables) → IsOver inst self.now → result ≡ load_sum inst self.now.board c t }
        ensures small { unsigned_abs result < 10 ^ 37 }
    {
        self.rows[c as usize].load(t).number()
    }

    /// How far all loads are outside their limits, in counts of 10^-12.
    pub fn violation(&self) -> i128
        ensures value { (inst : Tables) → IsOver inst self.now → result ≡ band_gaps inst self.now.board }
        ensures small { unsigned_abs result < 10 ^ 37 }
    {
        self.violation.number()
    }
}
