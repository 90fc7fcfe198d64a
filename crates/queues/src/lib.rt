// The queue of cells: a cell is pushed with a priority, and the cell that goes first is popped.
#![tactic(auto)]

ghost use Rattle.std.specs.Prelude.{◌≡◌, ◌≤◌, replicate};
ghost use Rattle.std.proofs.Math.Option.{none};
ghost use Rattle.cells.specs.Numbers.{cell_numbers};
ghost use Rattle.rules.specs.Lists.{from};
ghost use Rattle.rules.specs.Options.{opt_of};
ghost use Rattle.rules.specs.Floats.{higher};
ghost use Rattle.rules.specs.Queues as Queues;
ghost use Rattle.rules.specs.Probing.{push_all};

mod ranks;

use cells::CellNo;
pub use ranks::{Rank, leader};

// For each of n cells, at most 256, whether it waits, and with which priority: so each cell is held once.
#[derive(Clone, Copy)]
pub struct Queue {
    pub n: usize,
    pub waits: [u8; 256],
    pub priority: [f64; 256],
    pub ghost within: { n ≤ 256 },
}

impl Queue {
    ghost use Rattle.queues.specs.Entries.{queue_of, Holds, TakenFrom, PoppedFrom};

    // A queue for n cells, of which none waits.
    pub fn empty(n: usize) -> Queue
        requires { n ≤ 256 }
        ensures { Holds n (replicate n none) result }
    {
        let waits = [0; 256];
        let priority = [0.0; 256];
        Queue { n, waits, priority }
    }

    // A cell comes to wait with a priority, in place; one already there gets the new priority. A cell past the last is not held.
    pub fn wait(&mut self, c: CellNo, p: f64)
        ensures { Holds self.old.n (Queues.push c.0 p (queue_of self.old)) self.new }
    {
        let i = c.0 as usize;
        if i < self.n {
            self.waits[i] = 1;
            self.priority[i] = p;
        }
    }

    // A cell waits with a priority, as if it came to wait in place.
    pub fn push(mut self, c: CellNo, p: f64) -> Queue
        ensures { Holds self.n (Queues.push c.0 p (queue_of self)) result }
    {
        self.wait(c, p);
        self
    }

    // Cells wait with a priority, each as if it were pushed alone; the queue is copied once for all of them.
    pub fn push_all(mut self, cells: &[CellNo], p: f64) -> Queue
        ensures { Holds self.n (push_all (cell_numbers cells.now) p (queue_of self)) result }
    {
        for c in cells {
            self.wait(*c, p);
        }
        self
    }

    // The cell that goes first of those that wait, and its priority.
    fn leader(&self) -> Option<(usize, f64)>
        ensures { opt_of result ≡ Queues.leader higher (queue_of self.now) (from 0 self.now.n) none }
    {
        leader(self.n, |c| {
            (self.waits[c] != 0).then_some(self.priority[c])
        })
    }

    // The cell that goes first is taken out, in place.
    pub fn take(&mut self) -> Option<CellNo>
        ensures { TakenFrom self.old result self.new }
    {
        let (c, _) = self.leader()?;
        self.waits[c] = 0;
        Some(CellNo(c as u16))
    }

    // The cell that goes first of all, and the queue without it.
    pub fn pop(mut self) -> Option<(CellNo, Queue)>
        ensures { PoppedFrom self result }
    {
        let c = self.take()?;
        Some((c, self))
    }
}
