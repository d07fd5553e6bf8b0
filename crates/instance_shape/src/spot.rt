//! Where a value stands in the shape of an instance.

ghost use Rattle.std.specs.Prelude.{◌≡◌};
ghost use Rattle.instance_shape.specs.Shape as shape;
ghost use Rattle.instance_shape.specs.declared.spot.Spot.TheVariants as spots;

/// A spot of the shape: each value of the text stands at one.
#[derive(Clone, Copy, Debug, PartialEq, Eq)]
pub enum Spot {
    Root,
    Resources,
    Resource,
    Max,
    Min,
    BandLimit,
    Seasons,
    Season,
    SeasonPeriod,
    Interventions,
    Intervention,
    Tmax,
    Delta,
    Duration,
    Workload,
    WorkloadResource,
    WorkloadPeriod,
    WorkloadNumber,
    Risk,
    RiskPeriod,
    RiskStart,
    RiskNumber,
    Exclusions,
    Exclusion,
    Word,
    Beyond,
    T,
    ScenariosNumber,
    Scenario,
    Quantile,
    Alpha,
    Skipped,
}

/// What a value at a spot has to be.
#[derive(Clone, Copy, Debug, PartialEq, Eq)]
pub enum Kind {
    /// An object with required keys; others are skipped.
    Record,
    /// An object whose keys are names.
    Names,
    /// An object whose keys are periods or starts.
    Numbers,
    List,
    /// A list of three texts.
    Triple,
    Whole,
    /// A number that is read as a count.
    Count,
    Quantile,
    Alpha,
    Name,
    /// Nothing may stand there.
    Nothing,
    Anything,
}

/// What has to stand at a spot.
pub fn kind_of(spot: Spot) -> Kind
    ensures { result ≡ shape.kind_of spot }
{
    match spot {
        Spot::Root | Spot::Resource | Spot::Intervention => Kind::Record,
        Spot::Resources | Spot::Seasons | Spot::Interventions | Spot::Workload | Spot::Exclusions =>
            Kind::Names,
        Spot::Max
        | Spot::Min
        | Spot::Season
        | Spot::Delta
        | Spot::RiskStart
        | Spot::ScenariosNumber => Kind::List,
        Spot::BandLimit | Spot::WorkloadNumber | Spot::RiskNumber => Kind::Count,
        Spot::SeasonPeriod | Spot::Tmax | Spot::Duration | Spot::T | Spot::Scenario => Kind::Whole,
        Spot::WorkloadResource | Spot::WorkloadPeriod | Spot::Risk | Spot::RiskPeriod =>
            Kind::Numbers,
        Spot::Exclusion => Kind::Triple,
        Spot::Word => Kind::Name,
        Spot::Beyond => Kind::Nothing,
        Spot::Quantile => Kind::Quantile,
        Spot::Alpha => Kind::Alpha,
        Spot::Skipped => Kind::Anything,
    }
}

/// The spot of the element of a list with so many elements before it.
pub fn element(spot: Spot, before: u64) -> Spot
    ensures { result ≡ shape.element spot before }
{
    match spot {
        Spot::Max | Spot::Min => Spot::BandLimit,
        Spot::Season => Spot::SeasonPeriod,
        Spot::Delta => Spot::Duration,
        Spot::RiskStart => Spot::RiskNumber,
        Spot::ScenariosNumber => Spot::Scenario,
        Spot::Exclusion => { if before < 3 { Spot::Word } else { Spot::Beyond } }
        _ => Spot::Skipped,
    }
}

/// The spot of the value under a later key of the root.
fn under_late(key: &str) -> Spot
    ensures { result ≡ shape.among shape.late_keys key.now }
{
    if key == "T" {
        Spot::T
    } else if key == "Scenarios_number" {
        Spot::ScenariosNumber
    } else if key == "Quantile" {
        Spot::Quantile
    } else if key == "Alpha" {
        Spot::Alpha
    } else {
        Spot::Skipped
    }
}

/// The spot of the value under a key of the root.
fn under_root(key: &str) -> Spot
    ensures { result ≡ shape.under spots.Root key.now }
{
    if key == "Resources" {
        Spot::Resources
    } else if key == "Seasons" {
        Spot::Seasons
    } else if key == "Interventions" {
        Spot::Interventions
    } else if key == "Exclusions" {
        Spot::Exclusions
    } else {
        under_late(key)
    }
}

/// The spot of the value under a key of a resource.
fn under_resource(key: &str) -> Spot
    ensures { result ≡ shape.under spots.Resource key.now }
{
    if key == "max" {
        Spot::Max
    } else if key == "min" {
        Spot::Min
    } else {
        Spot::Skipped
    }
}

/// The spot of the value under a key of an intervention.
fn under_intervention(key: &str) -> Spot
    ensures { result ≡ shape.under spots.Intervention key.now }
{
    if key == "tmax" {
        Spot::Tmax
    } else if key == "Delta" {
        Spot::Delta
    } else if key == "workload" {
        Spot::Workload
    } else if key == "risk" {
        Spot::Risk
    } else {
        Spot::Skipped
    }
}

/// The spot of the value under a key of the object at a spot.
pub fn under(spot: Spot, key: &str) -> Spot
    ensures { result ≡ shape.under spot key.now }
{
    match spot {
        Spot::Root => under_root(key),
        Spot::Resource => under_resource(key),
        Spot::Intervention => under_intervention(key),
        Spot::Resources => Spot::Resource,
        Spot::Seasons => Spot::Season,
        Spot::Interventions => Spot::Intervention,
        Spot::Workload => Spot::WorkloadResource,
        Spot::WorkloadResource => Spot::WorkloadPeriod,
        Spot::WorkloadPeriod => Spot::WorkloadNumber,
        Spot::Risk => Spot::RiskPeriod,
        Spot::RiskPeriod => Spot::RiskStart,
        Spot::Exclusions => Spot::Exclusion,
        _ => Spot::Skipped,
    }
}
