//! Changes are written as a script.
ghost use Rattle.std.specs.Prelude.{[], ◌∷◌, ◌++◌, map, All, IsTrue};
ghost use Rattle.plan_desk.specs.Written.{WritesText};
ghost use Rattle.plan_moves.specs.Scripts.{NamesKnown, line_of};
ghost use Rattle.move_script.specs.Spelling.{IsScript, HasSmallStart, change_text, moves_text, words_text};

use fixed_num::Line;
use instance_model::Instance;
use plan_desk::{Desk, Failed, write_pieces};
use plan_moves::{Change, Moves};

/// Writes the changes as lines of a script to the end of the file that is open,
/// each line with a line feed. Takes no memory.
pub fn write_moves<D: Desk>(inst: &Instance, moves: &Moves, desk: &mut D) -> Result<(), Failed>
    requires opened { IsTrue (D.shows desk.old).output.opened }
    requires known { All (λ change. NamesKnown inst.now (line_of change)) moves.now }
    requires small { All HasSmallStart moves.now }
    ensures written { WritesText (moves_text inst.now.names moves.now) (D.shows desk.old) (D.shows desk.new) result }

    // What is written whole is read as these changes.
    ensures spelled { IsScript inst.now.names (moves_text inst.now.names moves.now) (map line_of moves.now) }
{
    inst.fits();
    for change in moves.as_slice() {
        write_change(inst, *change, desk)?;
    }
    Ok(())
}

fn write_change<D: Desk>(inst: &Instance, change: Change, desk: &mut D) -> Result<(), Failed>
    requires opened { IsTrue (D.shows desk.old).output.opened }
    requires known { NamesKnown inst.now (line_of change) }
    ensures { WritesText (change_text inst.now.names change) (D.shows desk.old) (D.shows desk.new) result }
{
    match change {
        Change::Move { i, s } => {
            let digits = Line::of_natural(u64::from(s));
            write_words(b"move ", inst.name(i).as_bytes(), digits.bytes(), desk)
        }
        Change::Swap { i, j } => write_words(
            b"swap ",
            inst.name(i).as_bytes(),
            inst.name(j).as_bytes(),
            desk,
        ),
    }
}

/// Writes a line of two words behind a verb.
fn write_words<D: Desk>(
    verb: &[u8],
    first: &[u8],
    second: &[u8],
    desk: &mut D,
) -> Result<(), Failed>
    requires opened { IsTrue (D.shows desk.old).output.opened }
    ensures { WritesText (words_text verb.now first.now second.now ++ 10 ∷ []) (D.shows desk.old)
        (D.shows desk.new) result }
{
    write_pieces(desk, &[verb, first, b" ", second, b"\n"])
}
