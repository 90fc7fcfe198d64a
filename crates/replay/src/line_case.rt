// A case of reducing a line.
use vectors::Vectors;

// The number of colours, the clue's bytes and the cells; then the number that is expected, and the cells afterwards.
pub fn agrees(case: &mut Vectors) -> bool {
    let mut clue = [0; 512];
    let mut cells = [0; 512];
    let mut expected = [0; 512];
    let k = case.number() as usize;
    let clue_length = case.bytes(&mut clue);
    let length = case.bytes(&mut cells);
    let number = case.number();
    let expected_length = case.bytes(&mut expected);
    let cells = &mut cells[..length];
    let answer = lines::reduce_line(k, &clue[..clue_length], &mut *cells);
    u64::from(lines::line_number(answer)) == number && &*cells == &expected[..expected_length]
}
