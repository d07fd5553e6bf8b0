//! Separation: of the covers of all bands and exclusions that a plan breaks, the one that is worth most.
ghost use Rattle.std.specs.Prelude.{◌<◌, ◌≤◌, length, IfSome};
ghost use Rattle.duration_calendar.specs.Windows.{IsInHorizon};
ghost use Rattle.branch_search.specs.node_state.KeptLoads.{IsOver};

use crate::choosing::cover::{Cover, better, cover_of};
use crate::choosing::least_plan::LeastPlan;
use crate::choosing::load_ranges::{LoadRange, LoadRanges};
use crate::choosing::member::{Member, member_of};
use crate::choosing::place_loads::{PlaceCell, load_in, place_of};
use crate::node_state::BoxLoads;
use certificate_tree::Side;
use duration_calendar::{Window, meets_in, run};
use instance_model::Instance;
use lagrange_bound::{PriceTable, Span};
use std::alloc::{AllocError, Global};

/// The plan of least prices in a box by one list, with what its covers are found by: the loads of the box and those of
/// each intervention in it, the worth by that list, and how much it lacks of the value that closes the box.
#[derive(Clone, Copy)]
pub(crate) struct PlanView<'a> {
    pub(crate) inst: &'a Instance,
    pub(crate) ranges: &'a LoadRanges,
    pub(crate) boxes: &'a BoxLoads,
    pub(crate) table: &'a PriceTable,
    pub(crate) plan: &'a LeastPlan,
    pub(crate) worth: i128,
    pub(crate) lacking: i128,
    ghost over: { IsOver inst.now boxes.now },
}

/// Whether an intervention becomes a member for a limit in a place, which holds as long as its interval stays: nothing
/// where that isn't known.
#[derive(Clone, Copy)]
struct KeptMember {
    side: Option<Side>,
    member: Option<Member>,
}

/// Nothing is known.
const UNKNOWN: KeptMember = KeptMember {
    side: None,
    member: None,
};

/// Room for the covers of one plan: the loads of an intervention by start, the members of a cover, the shares of their
/// costs, what is kept by the number of a range of loads, and the intervals for which that holds.
#[derive(Drop)]
pub(crate) struct CoverRoom {
    loads: Vec<i128>,
    members: Vec<Member>,
    shares: Vec<u64>,
    kept: Vec<KeptMember>,
    spans: Vec<Span>,
}

/// What is told of a plan: whether it breaks a band or an exclusion, and the cover that is worth most.
#[derive(Clone, Copy)]
pub(crate) struct Separated {
    pub(crate) is_broken: bool,
    pub(crate) cover: Option<Cover>,
}

impl Separated {
    /// Takes in a broken band or exclusion and its cover, where there is one.
    fn take(&mut self, cover: Option<Cover>) {
        self.is_broken = true;
        self.cover = better(self.cover, cover);
    }
}

impl CoverRoom {
    /// With nothing known.
    pub(crate) fn make(
        alloc: Global,
        inst: &Instance,
        ranges: &LoadRanges,
    ) -> Result<CoverRoom, AllocError> {
        let none = Span { from: 1, to: 0 };
        Ok(CoverRoom {
            loads: vec![in alloc; 0; inst.periods() as usize]?,
            members: Vec::new(alloc),
            shares: Vec::new(alloc),
            kept: vec![in alloc; UNKNOWN; ranges.len()]?,
            spans: vec![in alloc; none; inst.interventions() as usize]?,
        })
    }

    /// Forgets what is kept of intervention `i`, where its interval is another.
    fn follow_one(&mut self, ranges: &LoadRanges, i: u32, span: Span) {
        let k = i as usize;
        if k >= self.spans.len() || self.spans[k] == span {
            return;
        }
        self.spans[k] = span;
        let (from, past) = ranges.numbers_of(i);
        for number in from..past {
            if let Some(kept) = self.kept.as_mut_slice().get_mut(number) {
                *kept = UNKNOWN;
            }
        }
    }

    /// Forgets what is kept of all interventions, where their plan is another.
    pub(crate) fn forget(&mut self) {
        self.kept.fill(UNKNOWN);
    }

    /// Takes over the intervals of a box. The plan's starts are those of least prices in them.
    pub(crate) fn follow(&mut self, inst: &Instance, ranges: &LoadRanges, spans: &[Span]) {
        for i in 0..inst.interventions() {
            if let Some(span) = spans.get(i as usize) {
                self.follow_one(ranges, i, *span);
            }
        }
    }

    /// Spreads loads over the starts, with the other sign for a lower limit.
    fn spread(&mut self, cells: &[PlaceCell], side: Side) {
        self.loads.fill(0);
        for cell in cells {
            let k = cell.start.saturating_sub(1) as usize;
            if k < self.loads.len() {
                self.loads[k] = signed(side, cell.load.count());
            }
        }
    }

    /// Spreads 1 over the starts of intervention `i` at which its run meets a window in a season.
    fn spread_meetings(&mut self, inst: &Instance, season: u32, window: Window, i: u32)
        requires season { season < length inst.now.season_names }
        requires horizon { IsInHorizon inst.now window }
        requires number { i < length inst.now.names }
    {
        self.loads.fill(0);
        for s in 1..inst.periods() + 1 {
            let k = s as usize - 1;
            if k < self.loads.len() && meets_at(inst, season, window, i, s) {
                self.loads[k] = 1;
            }
        }
    }

    /// Intervention `i`, of which the loads are spread, where it may become a member.
    fn member(&self, view: &PlanView<'_>, i: u32) -> Option<Member> {
        let span = view.boxes.spans().get(i as usize)?;
        let from = span.from.saturating_sub(1) as usize;
        let past = span.to.min(512) as usize;
        let at = view.plan.start(i).saturating_sub(1) as usize;
        member_of(i, view.table.row(i), &self.loads, from, past, at)
    }

    /// Notes intervention `i`, of which the loads are spread, where it may become a member.
    fn note(&mut self, view: &PlanView<'_>, i: u32) -> Result<(), AllocError> {
        if let Some(member) = self.member(view, i) {
            self.members.push(member)?;
        }
        Ok(())
    }

    /// The cover of what was noted, for this room.
    fn cover(&mut self, view: &PlanView<'_>, room: i128) -> Result<Option<Cover>, AllocError> {
        cover_of(
            &mut self.members,
            &mut self.shares,
            room,
            view.worth,
            view.lacking,
        )
    }

    /// An intervention by its range of loads in a place, where another start of its interval is better there, and where
    /// it may become a member.
    fn member_by(&mut self, view: &PlanView<'_>, range: &LoadRange, side: Side) -> Option<Member> {
        let cells = view.ranges.loads_of(range);
        let load = load_in(cells, view.plan.start(range.i));
        if !is_bettered(range, load, side) {
            return None;
        }
        self.spread(cells, side);
        self.member(view, range.i)
    }

    /// The same, as it was kept or else is kept from now on.
    fn kept_member(&mut self, view: &PlanView<'_>, number: usize, side: Side) -> Option<Member> {
        if let Some(kept) = self.kept.get(number) {
            if kept.side == Some(side) {
                return kept.member;
            }
        }
        let range = view.ranges.range(number)?;
        let member = self.member_by(view, range, side);
        if let Some(kept) = self.kept.as_mut_slice().get_mut(number) {
            *kept = KeptMember {
                side: Some(side),
                member,
            };
        }
        member
    }

    /// Notes all interventions that have a load in a place.
    fn note_all(
        &mut self,
        view: &PlanView<'_>,
        place: usize,
        side: Side,
    ) -> Result<(), AllocError> {
        self.members.clear();
        for numbered in view.ranges.of_place(place) {
            if let Some(member) = self.kept_member(view, numbered.number, side) {
                self.members.push(member)?;
            }
        }
        Ok(())
    }
}

/// A load, or that with the other sign for a lower limit.
pub(crate) fn signed(side: Side, load: i128) -> i128 {
    match side {
        Side::Over => load,
        Side::Under => 0i128.saturating_sub(load),
    }
}

/// Whether another start of the interval has a lesser load than this, or for a lower limit a greater one.
fn is_bettered(range: &LoadRange, load: i128, side: Side) -> bool {
    match side {
        Side::Over => range.least < load,
        Side::Under => load < range.greatest,
    }
}

/// The limit that a load leaves.
fn side_off(inst: &Instance, c: u32, t: u32, load: i128) -> Option<Side>
    requires resource { c < length inst.now.resource_names }
    requires from { 1 ≤ t }
    requires to { t ≤ inst.now.periods }
{
    if inst.upper(c, t) < load {
        Some(Side::Over)
    } else if load < inst.lower(c, t) {
        Some(Side::Under)
    } else {
        None
    }
}

/// How much more load the limit of a side leaves room for, where all interventions have their least loads, or for a
/// lower limit their greatest ones.
fn room_of(view: &PlanView<'_>, c: u32, t: u32, side: Side) -> i128
    requires resource { c < length view.now.inst.now.resource_names }
    requires from { 1 ≤ t }
    requires to { t ≤ view.now.inst.now.periods }
{
    let inst = view.inst;
    let boxes = view.boxes;
    match side {
        Side::Over => inst
            .upper(c, t)
            .saturating_sub(boxes.least_load(inst, c, t)),
        Side::Under => boxes
            .greatest_load(inst, c, t)
            .saturating_sub(inst.lower(c, t)),
    }
}

/// Whether the run of intervention `i` at start `s`, where that is allowed, meets a window in a season.
pub(crate) fn meets_at(inst: &Instance, season: u32, window: Window, i: u32, s: u32) -> bool
    requires season { season < length inst.now.season_names }
    requires horizon { IsInHorizon inst.now window }
    requires number { i < length inst.now.names }
{
    inst.allowed(i, s) && meets_in(inst, season, window, run(inst, i, s)).is_some()
}

/// The run of intervention `i` in the plan, where its start is allowed.
fn run_in(view: &PlanView<'_>, i: u32) -> Option<Window>
    requires { i < length view.now.inst.now.names }
    ensures { IfSome result (IsInHorizon view.now.inst.now) }
{
    let s = view.plan.start(i);
    if !view.inst.allowed(i, s) {
        return None;
    }
    Some(run(view.inst, i, s))
}

/// Takes in the cover of the band of resource `c` in period `t`, where the plan breaks it.
fn separate_band(
    view: &PlanView<'_>,
    room: &mut CoverRoom,
    c: u32,
    t: u32,
    separated: &mut Separated,
) -> Result<(), AllocError>
    requires resource { c < length view.now.inst.now.resource_names }
    requires from { 1 ≤ t }
    requires to { t ≤ view.now.inst.now.periods }
{
    let place = place_of(view.inst, c, t);
    let Some(side) = side_off(view.inst, c, t, view.plan.load(place)) else {
        return Ok(());
    };
    room.note_all(view, place, side)?;
    let left = room_of(view, c, t, side);
    separated.take(room.cover(view, left)?);
    Ok(())
}

/// Takes in those of the bands of resource `c`.
fn separate_bands_of(
    view: &PlanView<'_>,
    room: &mut CoverRoom,
    c: u32,
    separated: &mut Separated,
) -> Result<(), AllocError>
    requires { c < length view.now.inst.now.resource_names }
{
    for t in 1..view.inst.periods() + 1 {
        separate_band(view, room, c, t, separated)?;
    }
    Ok(())
}

/// Takes in those of all bands.
fn separate_bands(
    view: &PlanView<'_>,
    room: &mut CoverRoom,
    separated: &mut Separated,
) -> Result<(), AllocError> {
    for c in 0..view.inst.resources() {
        separate_bands_of(view, room, c, separated)?;
    }
    Ok(())
}

/// Takes in the cover of exclusion `e`, where the plan breaks it: both of its interventions are needed for a cover,
/// where they can leave each other.
fn separate_exclusion(
    view: &PlanView<'_>,
    room: &mut CoverRoom,
    e: u32,
    separated: &mut Separated,
) -> Result<(), AllocError>
    requires { e < length view.now.inst.now.exclusion_names }
{
    let inst = view.inst;
    let exclusion = inst.exclusion(e);
    let Some(first) = run_in(view, exclusion.first) else {
        return Ok(());
    };
    let Some(second) = run_in(view, exclusion.second) else {
        return Ok(());
    };
    if meets_in(inst, exclusion.season, first, second).is_none() {
        return Ok(());
    }
    room.members.clear();
    room.spread_meetings(inst, exclusion.season, second, exclusion.first);
    room.note(view, exclusion.first)?;
    room.spread_meetings(inst, exclusion.season, first, exclusion.second);
    room.note(view, exclusion.second)?;
    let left = (room.members.len() as i128).saturating_sub(1);
    separated.take(room.cover(view, left)?);
    Ok(())
}

/// Takes in those of all exclusions.
fn separate_exclusions(
    view: &PlanView<'_>,
    room: &mut CoverRoom,
    separated: &mut Separated,
) -> Result<(), AllocError> {
    for e in 0..view.inst.exclusions() {
        separate_exclusion(view, room, e, separated)?;
    }
    Ok(())
}

/// The best cover of all bands and exclusions that the plan breaks.
pub(crate) fn separate(view: &PlanView<'_>, room: &mut CoverRoom) -> Result<Separated, AllocError> {
    let mut separated = Separated {
        is_broken: false,
        cover: None,
    };
    separate_bands(view, room, &mut separated)?;
    separate_exclusions(view, room, &mut separated)?;
    Ok(separated)
}
