// Printing an answer and its grids, parted by tabs.
use belutharin::Numbers;
use std::io;

// An answer: its number, the grids stored, the steps, the deepest and the limit.
pub fn answer_line(rt: &impl Print, numbers: Numbers) -> io::Result<()> {
    let Numbers {
        number,
        grids,
        steps,
        deepest,
        limit,
    } = numbers;
    println!(rt; "answer\t{number}\t{grids}\t{steps}\t{deepest}\t{limit}")
}

// The n grids that are stored in a list.
pub fn grid_lines(rt: &impl Print, list: &[u8], w: usize, h: usize, n: usize) -> io::Result<()> {
    for i in 0..n {
        grid_line(rt, i, grids::part(list, w, h, n, i))?;
    }
    Ok(())
}

// A grid by its number, its colours row by row.
pub fn grid_line(rt: &impl Print, i: usize, cells: &[u8]) -> io::Result<()> {
    print!(rt; "grid\t{i}\t")?;
    for cell in cells {
        rt.print(digit(*cell))?;
    }
    println!(rt)
}

// The digit of a cell's one colour, and `?` for a cell that is not solved.
fn digit(cell: u8) -> char {
    match cell {
        1 => '0',
        2 => '1',
        4 => '2',
        8 => '3',
        _ => '?',
    }
}
