//! Which certificates `check` and `audit` accept. The functions do nothing: each contract is the law.
ghost use Rattle.command_answers.specs.Accepting.{ValidWithinIsAcceptableBy, ShortValidIsAuditable};

use certificate_text::{nodes_are_one_tree, texts_tell, valid_bounds_plans};
use certificate_tree::proved_bounds_plans;
use command_frame::FileCertificate;
use instance_model::Instance;
use plan_changes::{ChangeGoal, bounds_count_changes};

/// `check` without a plan accepts each valid certificate of this instance whose text is within the limit of certificate
/// files, whatever kind of certificates it is that `check` takes.
pub fn valid_is_accepted<C: FileCertificate>(inst: &Instance)
    ensures { ValidWithinIsAcceptableBy C.kind inst.now }
{
    inst.fits();
    inst.cost_is_just_above_score();
    nodes_are_one_tree();
    proved_bounds_plans();
    C::laws(inst);
}

/// `audit` accepts each valid certificate of this instance and these old starts whose text is shorter than the limit of
/// certificate files.
pub fn valid_is_audited(inst: &Instance, goal: &ChangeGoal)
    ensures { ShortValidIsAuditable inst.now goal.now }
{
    inst.fits();
    nodes_are_one_tree();
    texts_tell();
    bounds_count_changes();
    valid_bounds_plans(goal);
}
