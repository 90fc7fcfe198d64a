// Which number goes first of those that wait: the one with the highest rank, and on a tie the lower number.
ghost use Rattle.std.specs.Prelude.{◌≡◌, Bool, ◌<◌, get_or, length};
ghost use Rattle.std.proofs.Math.Option.{none};
ghost use Rattle.rules.specs.Lists.{from};
ghost use Rattle.rules.specs.Options.{opt_of};
ghost use Rattle.rules.specs.Floats.{higher as higher_float};
ghost use Rattle.rules.specs.Queues as Queues;
ghost use Rattle.queues.specs.Leading.{WaitsAs};

// What a number waits with, and which of two goes first.
pub trait Rank: Copy {
    ghost higher: { Self → Self → Bool };

    // Whether this is the higher.
    fn is_higher(self, than: Self) -> bool
        ensures { result ≡ higher self than };
}

impl Rank for f64 {
    ghost higher = { higher_float };

    fn is_higher(self, than: f64) -> bool {
        than < self
    }
}

// One more number is passed, with its rank if it waits: it goes first only where it is higher, so that a tie goes to the lower number.
fn ahead<R: Rank>(best: Option<(usize, R)>, c: usize, rank: Option<R>) -> Option<(usize, R)>
    ensures { opt_of result ≡ Queues.ahead R.higher (opt_of best) c (opt_of rank) }
{
    match (best, rank) {
        (_, None) => best,
        (None, Some(r)) => Some((c, r)),
        (Some((_, highest)), Some(r)) => {
            if r.is_higher(highest) {
                Some((c, r))
            } else {
                best
            }
        }
    }
}

// The number that goes first of those below n, each of which waits with the rank that the test gives, if any.
pub fn leader<R: Rank, F: Fn(usize) -> Option<R>>(n: usize, rank: F) -> Option<(usize, R)>
    requires { (c : _) → c < n → F.pre rank c }
    ensures { (q : Queues.Queue R) → WaitsAs (F.post rank) n q → opt_of result ≡ Queues.leader R.higher q (from 0 n) none }
{
    let mut best = None;
    for c in 0..n {
        best = ahead(best, c, rank(c));
    }
    best
}
