// The machine of a clue, which reduces lines: built once for each line of a puzzle, and kept.
ghost use Rattle.std.specs.Prelude.{◌≡◌, [], ◌-◌, ◌*◌, ◌≤◌, ◌<◌, length, replicate};
ghost use Rattle.rules.specs.Lines.{between};
ghost use Rattle.lines.specs.Machines.{pushed, pushed_all, machine, closed, need, machine_of, Room, clue_in, first_in, rest_in, Legal, Coloured};

use rules::{COLOURS, LARGEST_SIDE};

// See specs/Machines.antt: a mask of states for each colour, those in which a blank may stay, and those at the end.
#[derive(Clone, Copy)]
pub struct Machine {
    pub by: [u32; COLOURS],
    pub gap: u32,
    pub last: u32,
}

// The machine of no blocks: blanks alone.
#[tactic(auto, unfolding(crate::specs::Machines::machine))]
fn empty() -> Machine
    ensures { result ≡ machine [] }
{
    Machine {
        by: [0; COLOURS],
        gap: 1,
        last: 1,
    }
}

// The machine that accepts no line.
pub fn closed() -> Machine
    ensures { result ≡ closed }
{
    Machine {
        by: [0; COLOURS],
        gap: 0,
        last: 0,
    }
}

// The machine that wants the colour `c` first.
fn push(m: Machine, c: usize) -> Machine
    requires { (c < 8) × Room 16 m }
    ensures { result ≡ pushed c m }
{
    let mut by = m.by.map(|p| p << 1);
    by[c] += 1;
    Machine {
        by,
        gap: m.gap << 1,
        last: m.last << 1,
    }
}

// The machine that wants `n` cells of the colour `c` first.
#[tactic(auto, unfolding(crate::specs::Machines::pushed_all))]
fn push_all(mut m: Machine, c: usize, n: usize) -> Machine
    requires { (c < 8) × (n ≤ 16) × Room (16 - n) m }
    ensures { result ≡ pushed_all (replicate n c) m }
{
    for _ in 0..n {
        m = push(m, c);
    }
    m
}

// THE ONE PLACE where a blank is asked between two blocks: how many must stand between the first block and the rest. One, if the second has the same colour.
#[tactic(auto, using(crate::proofs::Building::blanks_none, crate::proofs::Building::blanks_some))]
fn blanks_between(pairs: &[u8]) -> usize
    requires { 2 ≤ length pairs.now }
    ensures { replicate result 0 ≡ between (first_in pairs.now) (rest_in pairs.now) }
{
    match pairs {
        [here, _, next, _, ..] => usize::from(here == next),
        _ => 0,
    }
}

// The fewest cells that the clue needs.
#[tactic(auto, using(crate::proofs::Building::clue_none, crate::proofs::Building::need_none))]
fn need(pairs: &[u8]) -> usize
    requires { length pairs.now ≤ 33 }
    ensures fewest { result ≡ need (clue_in pairs.now) }
    ensures few { result ≤ 256 * length pairs.now }
{
    match pairs {
        [_, cells, rest @ ..] => usize::from(*cells) + blanks_between(pairs) + need(rest),
        _ => 0,
    }
}

// The machine of a clue that fits some line, from its last block to its first. A call for each block takes half as many instructions again.
fn build(pairs: &[u8]) -> Machine
    requires { Coloured (clue_in pairs.now) × (need (clue_in pairs.now) ≤ 16) }
    ensures { result ≡ machine (clue_in pairs.now) }
{
    let mut m = empty();
    for j in (0..pairs.len() / 2).rev() {
        let blocks = &pairs[2 * j..];
        m = push_all(m, 0, blanks_between(blocks));
        m = push_all(m, usize::from(blocks[0]), usize::from(blocks[1]));
        m.gap |= 1;
    }
    m
}

// The machine of the clue that pairs of colour and length mean.
#[tactic(auto, using(crate::proofs::Building::legal_pairs), unfolding(crate::specs::Machines::machine_of))]
pub fn machine_of(pairs: &[u8]) -> Machine
    requires { Legal pairs.now }
    ensures { result ≡ machine_of (clue_in pairs.now) }
{
    if need(pairs) <= LARGEST_SIDE {
        build(pairs)
    } else {
        closed()
    }
}
