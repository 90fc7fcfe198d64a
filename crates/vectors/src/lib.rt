// Reading vectors: decimal numbers parted by anything else. A number past the end reads as 0, so that a text cut short shows as cases that differ.
#![tactic(auto)]

ghost use Rattle.std.specs.Prelude.{◌≡◌, ◌≤◌, length, min, List, ℕ};
ghost use Rattle.std.specs.Slice.Iter.{iter_rest};
ghost use Rattle.vectors.specs.Numbers.{digit, number, numbers, put};

use std::marker::Model;
use std::slice::Iter;

// What is left to read of a text.
#[derive(Drop)]
pub struct Vectors<'a> {
    left: Iter<'a, u8>,
}

impl<'a> Model for Vectors<'a> {
    ghost Value = { List ℕ };

    ghost view = { λ v. iter_rest v.left };
}

impl<'a> Vectors<'a> {
    // A text from its beginning.
    pub fn new(text: &'a [u8]) -> Self
        ensures { result ≡ text.now }
    {
        Vectors { left: text.iter() }
    }

    // The next number; one that no u64 holds goes round.
    pub fn number(&mut self) -> u64
        ensures value { result ≡ (number self.old).0 }
        ensures left { self.new ≡ (number self.old).1 }
    {
        let first = self.left.find(|b| digit(b).is_some());
        let mut value = first.and_then(digit).unwrap_or(0);
        while let Some(d) = self.left.next().and_then(digit) {
            value = value.wrapping_mul(10).wrapping_add(d);
        }
        value
    }

    // A list of bytes, its length first, is put over the first bytes of `out`, and what there is no room for is passed over; how many were put.
    pub fn bytes(&mut self, out: &mut [u8]) -> usize
        ensures within { result ≤ length out.new }
        ensures count { result ≡ min (number self.old).0 (length out.old) }
        ensures put { out.new ≡ put (numbers (number self.old).0 (number self.old).1).0 out.old }
        ensures left { self.new ≡ (numbers (number self.old).0 (number self.old).1).1 }
    {
        let count = self.number() as usize;
        for i in 0..count {
            let byte = (self.number() % 256) as u8;
            if i < out.len() {
                out[i] = byte;
            }
        }
        count.min(out.len())
    }
}

// What a byte counts as a digit.
fn digit(b: &u8) -> Option<u64>
    ensures { result ≡ digit b.now }
{
    match b {
        b'0'..=b'9' => Some(u64::from(*b - b'0')),
        _ => None,
    }
}
