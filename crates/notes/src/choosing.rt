// Choosing guesses: cells go by rate, and within a cell the colour that solves most comes first.
ghost use Rattle.std.specs.Prelude.{◌≡◌, map, length};
ghost use Rattle.rules.specs.Boards.{cells};
ghost use Rattle.rules.specs.Floats.{rate};
ghost use Rattle.rules.specs.Options.{opt_of};
ghost use Rattle.rules.specs.Queues.{pop, in_order};
ghost use Rattle.rules.specs.Guesses.{largest, smallest, rate_at, tally, colour_order};
ghost use Rattle.queues.specs.Entries.{Holds};
ghost use Rattle.notes.specs.Round.{note_of, noted, notes_of};
ghost use Rattle.notes.specs.Choosing.{rate_of, more, waiting_colours, popped_colour, Ordered};

use crate::round::{Note, Notes};
use arrayvec::ArrayVec;
use cells::{CellNo, Colour};
use queues::{Queue, Rank};
use rules::COLOURS;

// The rate of a cell, by what was noted of it: by the largest and the smallest number of newly solved cells over its colours.
pub fn rate_by_impact(t: Note) -> f64
    ensures { result ≡ rate (largest (note_of t)) (smallest (note_of t)) }
{
    rates::rate_of(t.most(), t.least())
}

// What a cell waits with: its rate, if it was noted and is not solved.
fn rate_if(note: Option<Note>, s: u8) -> Option<f64>
    ensures { opt_of result ≡ rate_of s (noted note) }
{
    if cells::is_solved(s) {
        return None;
    }
    Some(rate_by_impact(note?))
}

// The noted, unsolved cells of a board, each waiting with its rate.
pub fn cell_order(notes: &Notes, board: &[u8]) -> Queue
    requires { length board.now ≡ notes.now.n }
    ensures { Holds notes.now.n (map (rate_at board.now (notes_of notes.now)) (cells board.now)) result }
{
    let mut q = Queue::empty(notes.n);
    for (i, s) in board.iter().enumerate() {
        let c = CellNo(i as u16);
        if let Some(rate) = rate_if(notes.at(c), *s) {
            q.wait(c, rate);
        }
    }
    q
}

// How many cells a colour newly solves: the colour that solves more goes first.
#[derive(Clone, Copy)]
struct Solves(u8);

impl Rank for Solves {
    ghost higher = { λ m n. more m.0 n.0 };

    fn is_higher(self, than: Solves) -> bool {
        than.0 < self.0
    }
}

// The colour of a set that solves most, if the set has any.
fn most_solving(s: u8, counts: &[u8; COLOURS]) -> Option<Colour>
    ensures { popped_colour s counts.now result ≡ pop more (waiting_colours s counts.now) }
{
    let (x, _) = queues::leader(COLOURS, |x| {
        cells::has(s, Colour(x as u8)).then_some(Solves(counts[x]))
    })?;
    Some(Colour(x as u8))
}

// The colours of a note, taken out of its set one after the other.
fn order_of(t: Note) -> ArrayVec<Colour, COLOURS>
    ensures { Ordered (in_order more (tally (note_of t))) result.items }
{
    let mut order = ArrayVec::new();
    let mut left = t.set;
    while let Some(x) = most_solving(left, &t.counts) {
        order.push(x);
        left = cells::without(left, x);
    }
    order
}

// The colours of a noted cell, the one that solves most first, ties ascending; of a cell that was not noted, none.
pub fn colour_order(notes: &Notes, c: CellNo) -> ArrayVec<Colour, COLOURS>
    ensures { Ordered (colour_order (notes_of notes.now) c.0) result.items }
{
    match notes.at(c) {
        Some(t) => order_of(t),
        None => ArrayVec::new(),
    }
}
