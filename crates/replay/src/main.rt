// Replays the vectors, and prints how many there are of each kind and how many differ. Its input is the files of vectors/, one after the other: lines, rates, searches, refusals, parts.
#![tactic(auto)]

mod line_case;
mod part_case;
mod rate_case;
mod search_case;

use std::io::Read;
use std::{array, io};
use vectors::Vectors;

// The bytes of the longest list of which a part is asked.
const ROOM: usize = 65536;

// The bytes of the longest input; what is past them is not read.
const MOST_TEXT: u64 = 3145728;

fn main(rt: HostRuntime) -> io::Result<()> {
    let mut text = Vec::new(rt.alloc());
    rt.reader().take(MOST_TEXT).read_to_end(&mut text)?;
    replay(&rt, Vectors::new(&text))
}

// The five files. Searches and refusals have one form.
fn replay(rt: &impl Print, mut text: Vectors) -> io::Result<()> {
    // Bytes that differ by their place, so that a wrong part is seen.
    let list: [u8; ROOM] = array::from_fn(|i| (i % 251) as u8);
    all(rt, &mut text, "line", "lines", line_case::agrees)?;
    all(rt, &mut text, "rate", "rates", rate_case::agrees)?;
    all(rt, &mut text, "search", "searches", search_case::agrees)?;
    all(rt, &mut text, "refusal", "refusals", search_case::agrees)?;
    all(rt, &mut text, "part", "parts", |case| {
        part_case::agrees(case, &list)
    })
}

// All cases of a file, each by whether it agrees.
fn all<F: Fn(&mut Vectors) -> bool>(
    rt: &impl Print,
    text: &mut Vectors,
    one: &str,
    many: &str,
    agrees: F,
) -> io::Result<()>
    requires { F.IsAlwaysCallable agrees }
{
    let count = text.number();
    let mut differing: u64 = 0;
    for i in 0..count {
        if !agrees(&mut *text) {
            println!(rt; "{one} {i} differs")?;
            differing += 1;
        }
    }
    println!(rt; "{count} {many}, {differing} differ")
}
