// Reducing a line by its clue's machine: once backwards, for the states that lead on to the end, and once forwards, for those that the line can be in.
ghost use Rattle.std.specs.Prelude.{◌≡◌, ◌%◌, ◌≤◌, ◌<◌, length};
ghost use Rattle.lines.specs.Machines.{pick, sign, goes, moves, keeps, kept, reduce_by, Became};
ghost use Rattle.lines.specs.Ways.{WaysOf};

use crate::machine::Machine;
use rules::LARGEST_SIDE;

// What a cell is reduced by: the states that its colours go on from, and those behind it that lead on to the end.
#[derive(Clone, Copy)]
struct Way {
    goes: u32,
    ends: u32,
}

// The way of each cell, and the states before the first that lead on to the end.
#[derive(Clone, Copy)]
struct Ways {
    cells: [Way; LARGEST_SIDE],
    start: u32,
}

// `p` if `s` is odd, as a set with blank is, and 0 if not. A product and no branch, which the processor could not foresee.
fn pick(s: u8, p: u32) -> u32
    ensures { result ≡ pick (s % 2) p }
{
    p * u32::from(s % 2)
}

// 0 for 0, and 1 for any other number.
fn sign(x: u32) -> u8
    ensures { result ≡ sign x }
{
    u8::from(x != 0)
}

// The states that a colour of the set `s` goes on from. It stops after the highest colour of the set, since most sets have one or two colours: all masks in turn take more instructions.
fn goes(m: Machine, s: u8) -> u32
    ensures { result ≡ goes m.by s }
{
    let mut states = 0;
    let mut rest = s;
    for p in m.by {
        if rest == 0 {
            break;
        }
        states |= pick(rest, p);
        rest /= 2;
    }
    states
}

// The set of the colours of `s` that go on from one of these states. It stops after the highest colour, as `goes` does.
fn moves(m: Machine, s: u8, states: u32) -> u8
    ensures { result ≡ moves m.by s states }
{
    let mut able = 0;
    for (c, p) in m.by.iter().enumerate() {
        if s >> c == 0 {
            break;
        }
        able |= sign(p & states) << c;
    }
    able & s
}

// The set of the colours of `s` that lead from a state of `from` to one of `to`, a blank that stays among them.
#[tactic(auto, unfolding(crate::specs::Machines::keeps))]
fn keeps(m: Machine, s: u8, from: u32, to: u32) -> u8
    ensures { result ≡ keeps m s from to }
{
    moves(m, s, from & (to / 2)) | sign((pick(s, m.gap) & from) & to)
}

// From the last cell to the first.
fn backwards(m: Machine, sets: &[u8]) -> Ways
    requires { length sets.now ≤ 16 }
    ensures { WaysOf m sets.now result }
{
    let mut cells = [Way { goes: 0, ends: 0 }; LARGEST_SIDE];
    let mut to = m.last;
    for i in (0..sets.len()).rev() {
        let s = sets[i];
        let way = Way {
            goes: goes(m, s),
            ends: to,
        };
        to = (pick(s, m.gap) & to) | (way.goes & (to / 2));
        cells[i] = way;
    }
    Ways { cells, start: to }
}

// Each cell of the line keeps its colours that lead from a state that the line can be in to one that leads on to the end.
fn forwards(m: Machine, w: Ways, line: &mut [u8])
    requires { (length line.old ≤ 16) × WaysOf m line.old w }
    ensures { line.new ≡ kept m 1 line.old }
{
    let mut from = 1;
    for (i, cell) in line.iter_mut().enumerate() {
        let s = *cell;
        let way = w.cells[i];
        *cell = keeps(m, s, from, way.ends);
        from = (pick(s, m.gap) & from) | ((way.goes & from) * 2);
    }
}

// Reduces the line by the machine and answers true; or answers false, where the machine accepts no line of the sets, and leaves it as it was.
#[tactic(auto, unfolding(crate::specs::Machines::reduce_by))]
pub fn reduce_by(m: Machine, line: &mut [u8]) -> bool
    requires { length line.old ≤ 16 }
    ensures { Became (reduce_by m line.old) line.old result line.new }
{
    let w = backwards(m, line);
    if w.start % 2 == 1 {
        forwards(m, w, line);
        return true;
    }
    false
}
