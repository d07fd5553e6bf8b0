//! The line that is said of a key.
ghost use Rattle.std.specs.Prelude.{◌≡◌, ◌+◌, ◌≤◌, ◌++◌, length};
ghost use Rattle.arrayvec.specs.ArrayVec.{array_vec_len};
ghost use Rattle.plan_desk.specs.Written.{SaysText};
ghost use Rattle.move_script.specs.Replays.{key_line};

use arrayvec::ArrayVec;
use fixed_num::Line;
use instance_model::Key;
use plan_desk::{Desk, Failed, say_all};

/// Room for three numbers of at most 64 bytes each, and what stands behind each.
const ROOM: usize = 256;

/// Says the line of a key at line `n` of a script by one call of the desk, unless that takes less. Takes no memory.
pub fn say_key<D: Desk>(desk: &mut D, n: u64, key: Key) -> Result<(), Failed>
    ensures { SaysText (key_line n key) (D.shows desk.old) (D.shows desk.new) result }
{
    say_all(desk, line_of(n, key).as_slice())
}

fn line_of(n: u64, key: Key) -> ArrayVec<u8, ROOM>
    ensures { result.items ≡ key_line n key }
{
    let mut line = ArrayVec::new();
    append(&mut line, Line::of_natural(n).bytes());
    append(&mut line, b" ");
    append(&mut line, Line::of_int(key.violation).bytes());
    append(&mut line, b" ");
    append(&mut line, Line::of_int(key.score).bytes());
    append(&mut line, b"\n");
    line
}

fn append(line: &mut ArrayVec<u8, ROOM>, piece: &[u8])
    requires { array_vec_len line.old + length piece.now ≤ 256 }
    ensures { line.new.items ≡ line.old.items ++ piece.now }
{
    line.try_extend_from_slice(piece).unwrap();
}
