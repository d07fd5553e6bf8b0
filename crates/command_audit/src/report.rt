//! The report on an accepted certificate.
ghost use Rattle.std.specs.Prelude.{◌≡◌, IfOk};
ghost use Rattle.certificate_tree.specs.Ranges.{IsBoundInRange};
ghost use Rattle.command_answers.specs.Audit.{audited_report};

use certificate_text::Bound;
use command_answers::push_least;
use command_frame::{Text, push_rounded};
use instance_model::Instance;
use std::alloc::{AllocError, Global};

/// The report on an accepted certificate with this bound.
pub(crate) fn audited_text(alloc: Global, inst: &Instance, bound: Bound) -> Result<Text, AllocError>
    requires { IsBoundInRange bound }
    ensures { IfOk result (λ text. text ≡ audited_report inst.now bound) }
{
    let mut text = Text::new(alloc);
    text.push("accepted\n")?;
    push_least(&mut text, bound)?;
    push_rounded(&mut text, inst.rounded())?;
    Ok(text)
}
