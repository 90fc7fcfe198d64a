// Where a grid stands in a list: the tests in their order, of which the first that fails refuses; and the grid as a part of the list.
ghost use Rattle.std.specs.Prelude.{◌≡◌, MatchResult};
ghost use Rattle.rules.specs.Answers.{no_part, grid_of};
ghost use Rattle.rules.specs.Refusals.{refusal_number};
ghost use Rattle.grids.specs.Parts.{answer, Placed};

use lines::within;
use rules::{LARGEST_SIDE, Refusal};

// Where a grid starts in a list, and how many cells it has.
#[derive(Clone, Copy, Debug, PartialEq, Eq)]
pub struct Place {
    pub start: usize,
    pub size: usize,
}

// The number, and the part of the list; nothing of it where handing out is refused.
#[derive(Clone, Copy)]
pub struct Handed<'a> {
    pub number: u8,
    pub part: &'a [u8],
}

// Where grid number i of n stands, counted from 0. That n grids fit into the list is tested by a division, since n times their size may be too large to be computed.
pub fn place_of(list: &[u8], w: usize, h: usize, n: usize, i: usize) -> Result<Place, Refusal>
    ensures { MatchResult result (λ p. Placed list.now w h n i p) (λ e. no_part (refusal_number e) ≡ grid_of list.now w h n i) }
{
    if !within(1, LARGEST_SIDE, w) || !within(1, LARGEST_SIDE, h) {
        return Err(Refusal::Sides);
    }
    let size = w * h;
    if n > list.len() / size {
        return Err(Refusal::List);
    }
    if i >= n {
        return Err(Refusal::Grid);
    }
    Ok(Place {
        start: i * size,
        size,
    })
}

// Grid number i of n: 11, 16 or 20 where handing out is refused, and otherwise 0.
pub fn grid<'a>(list: &'a [u8], w: usize, h: usize, n: usize, i: usize) -> Handed<'a>
    ensures { answer result ≡ grid_of list.now w h n i }
{
    match place_of(list, w, h, n, i) {
        Ok(Place { start, size }) => Handed {
            number: 0,
            part: &list[start..start + size],
        },
        Err(refusal) => Handed {
            number: refusal.number(),
            part: &[],
        },
    }
}

// 0, or the number by which handing out is refused.
pub fn number(list: &[u8], w: usize, h: usize, n: usize, i: usize) -> u8
    ensures { result ≡ (grid_of list.now w h n i).number }
{
    grid(list, w, h, n, i).number
}

// The grid's cells, where they stand in the list; nothing where handing out is refused.
pub fn part(list: &[u8], w: usize, h: usize, n: usize, i: usize) -> &[u8]
    ensures { result.now ≡ (grid_of list.now w h n i).part }
{
    grid(list, w, h, n, i).part
}
