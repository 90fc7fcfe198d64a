// What is expected of a search, and whether it comes: the answer, every byte of the board and every byte of the list.
#![tactic(auto)]

ghost use Rattle.std.specs.Prelude.{◌≡◌, ◌↔◌, IsTrue};
ghost use Rattle.rules.specs.Answers.{solve};
ghost use Rattle.belutharin.specs.Answers.{asked};
ghost use Rattle.expected.specs.Agreeing.{widened_of, IsList, Agrees};

// Each byte of a list before it is lent.
pub const UNTOUCHED: u8 = 165;

// What a search is asked besides the clue bytes, the cells and the list: the size, the number of colours and the limits.
#[derive(Clone, Copy)]
pub struct Question {
    pub w: usize,
    pub h: usize,
    pub k: usize,
    pub most_grids: usize,
    pub most_depth: usize,
    pub budget: u64,
}

// The five numbers of an answer, as a text has them.
#[derive(Clone, Copy, PartialEq, Eq)]
pub struct Numbers {
    pub number: u64,
    pub grids: u64,
    pub steps: u64,
    pub deepest: u64,
    pub limit: u64,
}

impl From<belutharin::Numbers> for Numbers {
    ghost from_gives = { λ n widened. widened ≡ widened_of n };

    fn from(n: belutharin::Numbers) -> Self {
        Numbers {
            number: u64::from(n.number),
            grids: n.grids as u64,
            steps: n.steps,
            deepest: n.deepest as u64,
            limit: u64::from(n.limit),
        }
    }
}

// What is expected of a search: the numbers of its answer, the board and the stored grids.
#[derive(Clone, Copy)]
pub struct Expected<'a> {
    pub answer: Numbers,
    pub board: &'a [u8],
    pub grids: &'a [u8],
}

// Whether a list is the stored grids, and untouched after them.
fn is_list(list: &[u8], grids: &[u8]) -> bool
    ensures { IsTrue result ↔ IsList grids.now list.now }
{
    match list.strip_prefix(grids) {
        Some(rest) => rest.iter().all(|b| *b == UNTOUCHED),
        None => false,
    }
}

// Whether a search gives the answer that is expected, and leaves this board and these grids: whether the rules do.
pub fn agrees(q: Question, clues: &[u8], cells: &mut [u8], list: &mut [u8], e: Expected) -> bool
    ensures { IsTrue result ↔ Agrees e.entry (solve (asked q.w q.h q.k q.most_grids q.most_depth q.budget clues.now cells.old list.old)) }
{
    let answer = belutharin::solve(
        q.w,
        q.h,
        q.k,
        clues,
        &mut *cells,
        &mut *list,
        q.most_grids,
        q.most_depth,
        q.budget,
    );
    let numbers = belutharin::Numbers::from(answer);
    Numbers::from(numbers) == e.answer && &*cells == e.board && is_list(list, e.grids)
}
