//! One line is written.
ghost use Rattle.std.specs.Prelude.{[], ◌∷◌, IsTrue};
ghost use Rattle.plan_desk.specs.Written.{WritesText};
ghost use Rattle.refined_text.specs.declared.lines.line.RefinedLine.{RefinedLine};
ghost use Rattle.refined_text.specs.text.Text.{text_of_refined};
ghost use Rattle.refined_text.specs.text.Steps.{group_words, clique_words, group_text, offset_text, clique_text};

use certificate_lines::{CertificateLine, write_words};
use certificate_text::put_line;
use plan_desk::{Desk, Failed, write_all};
use refined_prices::{Clique, Member, Offset};

/// The title.
pub fn put_title<D: Desk>(desk: &mut D) -> Result<(), Failed>
    requires opened { IsTrue (D.shows desk.old).output.opened }
    ensures { WritesText (text_of_refined (RefinedLine.Title ∷ [])) (D.shows desk.old) (D.shows desk.new) result }
{
    write_all(desk, b"mpcert 3\n")
}

/// A line that version 2 has too.
pub fn put_plain<D: Desk>(line: CertificateLine, desk: &mut D) -> Result<(), Failed>
    requires opened { IsTrue (D.shows desk.old).output.opened }
    ensures { WritesText (text_of_refined (RefinedLine.Plain line ∷ [])) (D.shows desk.old) (D.shows desk.new) result }
{
    put_line(line, desk)
}

/// That caps of lower limits count.
pub fn put_cap<D: Desk>(desk: &mut D) -> Result<(), Failed>
    requires opened { IsTrue (D.shows desk.old).output.opened }
    ensures { WritesText (text_of_refined (RefinedLine.Cap ∷ [])) (D.shows desk.old) (D.shows desk.new) result }
{
    write_all(desk, b"cap\n")
}

/// The line of a group of period `t`.
pub fn put_group<D: Desk>(t: u32, group: &[Member], desk: &mut D) -> Result<(), Failed>
    requires opened { IsTrue (D.shows desk.old).output.opened }
    ensures { WritesText (group_text t group.now) (D.shows desk.old) (D.shows desk.new) result }
{
    write_all(desk, b"tail")?;
    write_words(&[u64::from(t)], desk)?;
    write_members(group, desk)?;
    write_all(desk, b"\n")
}

/// The scenarios of a group with their weights.
fn write_members<D: Desk>(group: &[Member], desk: &mut D) -> Result<(), Failed>
    requires opened { IsTrue (D.shows desk.old).output.opened }
    ensures { WritesText (group_words group.now) (D.shows desk.old) (D.shows desk.new) result }
{
    for member in group {
        write_words(
            &[u64::from(member.scenario), u64::from(member.weight)],
            desk,
        )?;
    }
    Ok(())
}

/// The line of an offset.
pub fn put_offset<D: Desk>(x: Offset, desk: &mut D) -> Result<(), Failed>
    requires opened { IsTrue (D.shows desk.old).output.opened }
    ensures { WritesText (offset_text x) (D.shows desk.old) (D.shows desk.new) result }
{
    let t = u64::from(x.period);
    let i = u64::from(x.intervention);
    let g = u64::from(x.group);
    let v = u64::from(x.value);
    write_all(desk, b"off")?;
    write_words(&[t, i + 1, g + 1, v], desk)?;
    write_all(desk, b"\n")
}

/// The line of the price of a clique.
pub fn put_clique<D: Desk>(x: &Clique, desk: &mut D) -> Result<(), Failed>
    requires opened { IsTrue (D.shows desk.old).output.opened }
    ensures { WritesText (clique_text x.now) (D.shows desk.old) (D.shows desk.new) result }
{
    let t = u64::from(x.period);
    let v = u64::from(x.value);
    write_all(desk, b"clq")?;
    write_words(&[t, v], desk)?;
    write_interventions(x.members.as_slice(), desk)?;
    write_all(desk, b"\n")
}

/// The interventions of a clique, which count from 1 in the text.
fn write_interventions<D: Desk>(members: &[u32], desk: &mut D) -> Result<(), Failed>
    requires opened { IsTrue (D.shows desk.old).output.opened }
    ensures { WritesText (clique_words members.now) (D.shows desk.old) (D.shows desk.new) result }
{
    for i in members {
        write_words(&[u64::from(*i) + 1], desk)?;
    }
    Ok(())
}
