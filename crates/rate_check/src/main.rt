// Prints rates with their bits, the refusals, and a sum over all 32,896 legal pairs of counts. What it must print is made by tools/rates.py from IEEE square roots.
#![tactic(auto)]

use std::io;

// The worked rates, and pairs at the edge of what is refused.
const EXAMPLES: [(u64, u64); 10] = [
    (4, 0),
    (9, 3),
    (0, 0),
    (255, 254),
    (255, 255),
    (255, 0),
    (256, 0),
    (3, 4),
    (0, 1),
    (u64::MAX, u64::MAX),
];

fn main(rt: HostRuntime) -> io::Result<()> {
    for (max, min) in EXAMPLES {
        line(&rt, max, min)?;
    }
    for i in 0..16 {
        four(&rt, 17 * i)?;
    }
    let all = Summary::of_all();
    println!(rt; "{}\t{:016x}", all.pairs, all.sum)
}

// Four pairs with one max: the smallest min, the largest, and two between.
fn four(rt: &impl Print, max: u64) -> io::Result<()> {
    for min in [0, max / 3, max / 2, max] {
        line(rt, max, min)?;
    }
    Ok(())
}

// max, min, the number and the rate's bits.
fn line(rt: &impl Print, max: u64, min: u64) -> io::Result<()> {
    let (number, bits) = answer(max, min);
    println!(rt; "{max}\t{min}\t{number}\t{bits:016x}")
}

// The number, and the bits of the rate, which is never a NaN.
fn answer(max: u64, min: u64) -> (u8, u64) {
    let (number, rate) = rates::numbered(rates::rate(max, min));
    (number, rate.to_bits())
}

// How many pairs were summed, and their sum: each step takes 33 times the sum so far, and the bits of one more rate.
#[derive(Clone, Copy)]
struct Summary {
    pairs: u64,
    sum: u64,
}

impl Summary {
    // All legal pairs.
    fn of_all() -> Self {
        let mut all = Summary { pairs: 0, sum: 0 };
        for max in 0..256 {
            for min in 0..=max {
                all = all.with(max, min);
            }
        }
        all
    }

    fn with(self, max: u64, min: u64) -> Self {
        let (_, bits) = answer(max, min);
        Summary {
            pairs: self.pairs.wrapping_add(1),
            sum: self.sum.wrapping_mul(33).wrapping_add(bits),
        }
    }
}
