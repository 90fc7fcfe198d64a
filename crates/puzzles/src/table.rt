// The clues of a puzzle, read once from the first byte to the last: each line's machine goes into the table as soon as the line is read.
ghost use Rattle.std.specs.Prelude.{◌≡◌, ◌≤◌};
ghost use Rattle.puzzles.specs.Table.{Reads};

use boards::LINES;
use lines::{Machine, closed, machine_of, read_line};

// The table of the puzzle of this size with `k` colours whose clues the bytes are, and nothing more; none, where they are no such clues.
pub fn read_table(k: usize, w: usize, h: usize, clues: &[u8]) -> Option<[Machine; LINES]>
    requires { (k ≤ 7) × (w ≤ 16) × (h ≤ 16) }
    ensures { Reads k w h clues.now result }
{
    let mut machines = [closed(); LINES];
    let mut at = 0;
    for i in 0..h + w {
        let end = read_line(k, clues, at)?;
        machines[i] = machine_of(&clues[at + 1..end]);
        at = end;
    }
    (at == clues.len()).then_some(machines)
}
