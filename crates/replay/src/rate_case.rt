// A case of the rate of a cell.
use vectors::Vectors;

// The largest and the smallest count; then the number that is expected, 0 for none, and the rate's bits.
pub fn agrees(case: &mut Vectors) -> bool {
    let max = case.number();
    let min = case.number();
    let number = case.number();
    let bits = case.number();
    let (found, rate) = rates::numbered(rates::rate(max, min));
    u64::from(found) == number && rate.to_bits() == bits
}
