// The root of a quotient of counts, worked out digit by digit in whole numbers.
ghost use Rattle.std.specs.Prelude.{◌≡◌, ◌^◌, ◌<◌, ◌≤◌};
ghost use Rattle.rules.specs.Floats as Floats;
ghost use Rattle.rules.specs.Roots.{Nearest};
ghost use Rattle.rates.specs.Digits.{Digits};

// 2^54 units make 1: in them a quotient of counts is a whole number.
const UNITS: f64 = 18014398509481984.0;

// 2^55 half units make 1: in them the doubled digits of its root are counted.
const HALF_UNITS: f64 = 36028797018963968.0;

// 2^60: the top two of 62 binary digits stand above it.
const TOP: u64 = 1 << 60;

// The f64 nearest the root of max/(min+1). Quotients of 0 and 1 are their own roots. Of all others the root's digits are worked out in whole numbers, and doubled, with 1 more where anything is left,
// so that the one rounding goes to the nearest; the multiplication before it and the division after it are exact.
pub fn root(max: u8, min: u8) -> f64
    requires { min ≤ max }
    ensures value { result ≡ Floats.root (Floats.quotient max min) }
    ensures nearest { Nearest (Floats.quotient max min) result }
{
    let quotient = f64::from(max) / f64::from(u16::from(min) + 1);
    if quotient == 0.0 || quotient == 1.0 {
        return quotient;
    }
    let units = std::num::truncating_f64_to_u64(quotient * UNITS);
    let found = digits(units);
    let doubled = found.root * 2 + sticky(found.rest);
    std::num::nearest_u64_to_f64(doubled) / HALF_UNITS
}

// A whole root, and what its square leaves.
#[derive(Clone, Copy)]
struct WholeRoot {
    root: u64,
    rest: u64,
}

// The whole root of units · 2^54, digit by digit from the top: a turn takes two more binary digits of the number and gives one more of the root. The number has at most 116, so that there are 58
// turns.
fn digits(units: u64) -> WholeRoot
    requires { units < 2 ^ 62 }
    ensures { Digits units result.root result.rest }
{
    let mut left = units;
    let mut root = 0u64;
    let mut rest = 0u64;
    for _turn in 0..58u8 {
        let more = rest * 4 + left / TOP;
        let odd = root * 4 + 1;
        left = left % TOP * 4;
        root *= 2;
        if odd <= more {
            root += 1;
            rest = more - odd;
        } else {
            rest = more;
        }
    }
    WholeRoot { root, rest }
}

// 1 where anything is left.
fn sticky(rest: u64) -> u64
    ensures { result ≡ Floats.sticky rest }
{
    u64::from(rest != 0)
}
