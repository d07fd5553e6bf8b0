//! The line of a refused instance.
ghost use Rattle.std.specs.Prelude.{◌≡◌, ◌++◌, OnOk, IfSome};
ghost use Rattle.instance_read.specs.Faults.{fault_of};
ghost use Rattle.command_frame.specs.Lines.{then_number, then_text, limit_word, fault_words, fault_place};
ghost use Rattle.command_frame.specs.Lines.{instance_fault_line};
ghost use Rattle.command_frame.specs.Refusals.{line_or_memory};

use crate::refusal::MEMORY_LINE;
use crate::text::Text;
use instance_read::InstanceFault;
use instance_shape::{Which, text_of};
use std::alloc::AllocError;

/// Adds the line of a fault of an instance file.
pub fn push_instance_fault(line: &mut Text, fault: &InstanceFault) -> Result<(), AllocError>
    ensures { OnOk result (line.new ≡ line.old ++ line_or_memory (fault_of fault.now)) }
{
    match fault {
        InstanceFault::Memory => line.push(MEMORY_LINE),
        _ => push_told(line, fault),
    }
}

fn push_told(line: &mut Text, fault: &InstanceFault) -> Result<(), AllocError>
    ensures { OnOk result (IfSome (fault_of fault.now) (λ told. line.new ≡ line.old ++ instance_fault_line told)) }
{
    line.push("refused instance ")?;
    line.push(words_of(fault))?;
    push_place(line, fault)?;
    line.push("\n")?;
    Ok(())
}

/// What is wrong.
fn words_of(fault: &InstanceFault) -> &'static str
    ensures { IfSome (fault_of fault.now) (λ told. result.now ≡ fault_words told) }
{
    match fault {
        InstanceFault::Syntax { .. } => "syntax",
        InstanceFault::TooDeep { .. } => "too deep",
        InstanceFault::Double { .. } => "double",
        InstanceFault::BadName { .. } => "bad name",
        InstanceFault::Missing { .. } => "missing",
        InstanceFault::Shape { .. } => "shape",
        InstanceFault::TooLarge { .. } => "too large",
        InstanceFault::Limit { .. } => "limit",
        InstanceFault::ScenarioList => "scenario list",
        InstanceFault::BandLength { .. } => "band length",
        InstanceFault::BadTmax { .. } => "bad tmax",
        InstanceFault::NoDelta { .. } => "no delta",
        InstanceFault::Unknown { .. } => "unknown",
        InstanceFault::NoRisk { .. } => "no risk",
        InstanceFault::ScenarioCount { .. } => "scenario count",
        InstanceFault::Memory => "",
    }
}

/// Adds where it is.
fn push_place(line: &mut Text, fault: &InstanceFault) -> Result<(), AllocError>
    ensures { OnOk result (IfSome (fault_of fault.now) (λ told. line.new ≡ line.old ++ fault_place told)) }
{
    match fault {
        InstanceFault::Syntax { at }
        | InstanceFault::TooDeep { at }
        | InstanceFault::Double { at }
        | InstanceFault::BadName { at }
        | InstanceFault::Shape { at }
        | InstanceFault::TooLarge { at } => push_number(line, *at),
        InstanceFault::Missing { at, key } => push_number_and_text(line, *at, text_of(*key)),
        InstanceFault::Limit { at, which } => push_number_and_text(line, *at, limit_word(*which)),
        InstanceFault::BandLength { resource: name }
        | InstanceFault::BadTmax { intervention: name }
        | InstanceFault::NoDelta { intervention: name }
        | InstanceFault::Unknown { name } => push_text(line, name.as_str()),
        InstanceFault::NoRisk {
            intervention,
            period,
            start,
        }
        | InstanceFault::ScenarioCount {
            intervention,
            period,
            start,
        } => push_run(line, intervention.as_str(), *period, *start),
        InstanceFault::ScenarioList | InstanceFault::Memory => Ok(()),
    }
}

/// How a limit is called.
fn limit_word(which: Which) -> &'static str
    ensures { result.now ≡ limit_word which }
{
    match which {
        Which::Periods => "periods",
        Which::Scenarios => "scenarios",
        Which::Resources => "resources",
        Which::Interventions => "interventions",
        Which::Seasons => "seasons",
        Which::Exclusions => "exclusions",
        Which::RiskCells => "risk-cells",
        Which::WorkloadEntries => "workload-entries",
    }
}

fn push_number(line: &mut Text, n: u64) -> Result<(), AllocError>
    ensures { OnOk result (line.new ≡ line.old ++ then_number n) }
{
    line.push(" ")?;
    line.push_number(n)
}

fn push_text(line: &mut Text, text: &str) -> Result<(), AllocError>
    ensures { OnOk result (line.new ≡ line.old ++ then_text text.now) }
{
    line.push(" ")?;
    line.push(text)
}

fn push_number_and_text(line: &mut Text, n: u64, text: &str) -> Result<(), AllocError>
    ensures { OnOk result (line.new ≡ line.old ++ (then_number n ++ then_text text.now)) }
{
    push_number(line, n)?;
    push_text(line, text)
}

/// Adds an intervention, a period and a start.
fn push_run(line: &mut Text, name: &str, period: u32, start: u32) -> Result<(), AllocError>
    ensures { OnOk result (line.new ≡ line.old ++ (then_text name.now ++ (then_number period ++ then_number start))) }
{
    push_text(line, name)?;
    push_number(line, period.into())?;
    push_number(line, start.into())
}
