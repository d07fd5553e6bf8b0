//! A plan is written as text.
ghost use Rattle.std.specs.Prelude.{◌≡◌, ◌<◌, ◌^◌, length, map, Some, All, IsTrue};
ghost use Rattle.plan_desk.specs.Written.{WritesText};
ghost use Rattle.plan_text.specs.Spelling.{IsPlan, plan_text, line_text};

use fixed_num::Line;
use instance_model::Instance;
use plan_desk::{Desk, Failed, write_pieces};

/// Writes one start for each intervention, in file order, to the end of the file that is open. Takes no memory.
pub fn write_plan<D: Desk>(inst: &Instance, starts: &[u32], desk: &mut D) -> Result<(), Failed>
    requires opened { IsTrue (D.shows desk.old).output.opened }
    requires each { length starts.now ≡ length inst.now.names }
    requires small { All (λ start. start < 10 ^ 9) starts.now }
    ensures written { WritesText (plan_text inst.now.names starts.now) (D.shows desk.old) (D.shows desk.new) result }

    // What is written whole is read as these starts.
    ensures spelled { IsPlan inst.now.names (plan_text inst.now.names starts.now) (map Some starts.now) }
{
    inst.fits();
    for i in 0..inst.interventions() {
        write_line(inst.name(i), starts[i as usize], desk)?;
    }
    Ok(())
}

/// Writes the line of an intervention.
fn write_line<D: Desk>(name: &str, start: u32, desk: &mut D) -> Result<(), Failed>
    requires opened { IsTrue (D.shows desk.old).output.opened }
    ensures { WritesText (line_text name.now start) (D.shows desk.old) (D.shows desk.new) result }
{
    let digits = Line::of_natural(u64::from(start));
    write_pieces(desk, &[name.as_bytes(), b" ", digits.bytes(), b"\n"])
}
