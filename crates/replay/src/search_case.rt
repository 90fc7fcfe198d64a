// A case of a search or of a refusal, which have one form.
use expected::{Expected, Numbers, Question, UNTOUCHED};
use vectors::Vectors;

// How many bytes there are to lend.
const ROOM: usize = 65536;

// The question, the clue bytes, the cells and how many bytes are lent; then the answer, the board and the stored grids that are expected, and which mends acted, which is passed over.
pub fn agrees(case: &mut Vectors) -> bool {
    let mut clues = [0; 2048];
    let mut cells = [0; 512];
    let mut list = [UNTOUCHED; ROOM];
    let mut board = [0; 512];
    let mut grids = [0; 4096];
    let asked = question(case);
    let clues_length = case.bytes(&mut clues);
    let size = case.bytes(&mut cells);
    let lent = case.number() as usize;
    let answer = numbers(case);
    let board_size = case.bytes(&mut board);
    let grids_length = case.bytes(&mut grids);
    let _mends = case.number();
    expected::agrees(
        asked,
        &clues[..clues_length],
        &mut cells[..size],
        &mut list[..lent.min(ROOM)],
        Expected {
            answer,
            board: &board[..board_size],
            grids: &grids[..grids_length],
        },
    )
}

fn question(case: &mut Vectors) -> Question {
    Question {
        w: case.number() as usize,
        h: case.number() as usize,
        k: case.number() as usize,
        most_grids: case.number() as usize,
        most_depth: case.number() as usize,
        budget: case.number(),
    }
}

fn numbers(case: &mut Vectors) -> Numbers {
    Numbers {
        number: case.number(),
        grids: case.number(),
        steps: case.number(),
        deepest: case.number(),
        limit: case.number(),
    }
}
