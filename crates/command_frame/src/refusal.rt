//! Why a run refuses, and what it then says.
ghost use Rattle.std.specs.Prelude.{◌≡◌, ◌++◌, IfOk, OnOk};
ghost use Rattle.command_frame.specs.Lines.{plan_fault_line, script_fault_line, certificate_fault_line};
ghost use Rattle.command_frame.specs.Lines.{failing_leaf_line};
ghost use Rattle.command_frame.specs.Refusals.{status_of, line_of};

use crate::instance_line::push_instance_fault;
use crate::text::{Text, push_numbered};
use certificate_text::CertFault;
use instance_read::InstanceFault;
use move_script::ScriptFault;
use plan_text::PlanFault;
use std::alloc::{AllocError, Global};

/// The line where the words are not in the grammar.
pub const WORDS_LINE: &str = "refused words\n";

/// The line where memory ran out.
pub const MEMORY_LINE: &str = "refused memory\n";

/// The line where a file could not be read, before the number of its word.
pub const READ_WORDS: &str = "refused read ";

/// Why the files that the words name are refused.
#[derive(Debug, Drop)]
pub enum Refusal {
    /// The file of this word could not be read. Words count from 1, and the command is word 1.
    Unread { word: u64 },
    LongInstance,
    /// The fault of the instance; never `Memory`.
    Instance(InstanceFault),
    LongPlan,
    /// The first fault of the plan's text.
    Plan(PlanFault),
    LongScript,
    /// The first fault of the script's text.
    Script(ScriptFault),
    LongCertificate,
    /// The first fault of the certificate's text.
    Certificate(CertFault),
    Memory,
}

impl From<AllocError> for Refusal {
    ghost use Rattle.command_frame.specs.declared.refusal.Refusal.TheVariants.{Memory};

    ghost from_gives = { λ _ refusal. refusal ≡ Memory };

    fn from(_: AllocError) -> Self {
        Refusal::Memory
    }
}

impl Refusal {
    pub fn status(&self) -> u8
        ensures { result ≡ status_of self.now }
    {
        match self {
            Refusal::LongInstance | Refusal::Instance(_) => 3,
            Refusal::LongPlan | Refusal::Plan(_) => 4,
            Refusal::LongCertificate | Refusal::Certificate(_) => 5,
            Refusal::LongScript | Refusal::Script(_) => 6,
            Refusal::Unread { .. } => 7,
            Refusal::Memory => 11,
        }
    }

    /// The line that is said, with its line feed.
    pub fn line(&self, alloc: Global) -> Result<Text, AllocError>
        ensures { IfOk result (λ line. line ≡ line_of self.now) }
    {
        let mut line = Text::new(alloc);
        match self {
            Refusal::LongInstance => line.push("refused instance too long\n")?,
            Refusal::Instance(fault) => push_instance_fault(&mut line, fault)?,
            Refusal::LongPlan => line.push("refused plan too long\n")?,
            Refusal::Plan(fault) => push_plan_fault(&mut line, *fault)?,
            Refusal::LongScript => line.push("refused script too long\n")?,
            Refusal::Script(fault) => push_script_fault(&mut line, *fault)?,
            Refusal::LongCertificate => line.push("refused certificate too long\n")?,
            Refusal::Certificate(fault) => push_certificate_fault(&mut line, *fault)?,
            Refusal::Unread { word } => push_numbered(&mut line, READ_WORDS, *word)?,
            Refusal::Memory => line.push(MEMORY_LINE)?,
        }
        Ok(line)
    }
}

/// Adds the line of a plan's fault.
fn push_plan_fault(line: &mut Text, fault: PlanFault) -> Result<(), AllocError>
    ensures { OnOk result (line.new ≡ line.old ++ plan_fault_line fault) }
{
    match fault {
        PlanFault::BadLine { n } => push_numbered(line, "refused plan bad line ", n),
        PlanFault::UnknownName { n } => push_numbered(line, "refused plan unknown name ", n),
        PlanFault::Twice { n } => push_numbered(line, "refused plan twice ", n),
        PlanFault::Memory => line.push(MEMORY_LINE),
    }
}

/// Adds the line of a script's fault.
fn push_script_fault(line: &mut Text, fault: ScriptFault) -> Result<(), AllocError>
    ensures { OnOk result (line.new ≡ line.old ++ script_fault_line fault) }
{
    match fault {
        ScriptFault::BadLine { n } => push_numbered(line, "refused script bad line ", n),
        ScriptFault::UnknownName { n } => push_numbered(line, "refused script unknown name ", n),
        ScriptFault::Memory => line.push(MEMORY_LINE),
    }
}

/// Adds the line of a certificate's fault.
fn push_certificate_fault(line: &mut Text, fault: CertFault) -> Result<(), AllocError>
    ensures { OnOk result (line.new ≡ line.old ++ certificate_fault_line fault) }
{
    match fault {
        CertFault::Cut { n } => push_numbered(line, "refused certificate cut ", n),
        CertFault::BadLine { n } => push_numbered(line, "refused certificate bad line ", n),
        CertFault::Bounds { n } => push_numbered(line, "refused certificate bounds ", n),
        CertFault::Memory => line.push(MEMORY_LINE),
    }
}

/// The line of the first leaf of a certificate that doesn't hold.
pub fn leaf_text(alloc: Global, n: u64) -> Result<Text, AllocError>
    ensures { IfOk result (λ text. text ≡ failing_leaf_line n) }
{
    let mut text = Text::new(alloc);
    push_numbered(&mut text, "refused certificate leaf ", n)?;
    Ok(text)
}
