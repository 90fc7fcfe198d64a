// A case of handing out a grid as a part of a list.
use vectors::Vectors;

// The list's length, the size of a grid, how many grids there are and which is asked for; then the number and the bounds of the part that are expected.
pub fn agrees(case: &mut Vectors, bytes: &[u8]) -> bool {
    let list = between(bytes, 0, case.number());
    let w = case.number() as usize;
    let h = case.number() as usize;
    let n = case.number() as usize;
    let i = case.number() as usize;
    let number = case.number();
    let start = case.number();
    let end = case.number();
    let handed = grids::grid(list, w, h, n, i);
    u64::from(handed.number) == number && handed.part == between(list, start, end)
}

// The bytes of a list from one place to another, and none where it has no such places.
fn between(list: &[u8], start: u64, end: u64) -> &[u8] {
    list.get(start as usize..end as usize).unwrap_or(&[])
}
