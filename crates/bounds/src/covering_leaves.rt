ghost use Rattle.std.specs.Prelude.{◌≡◌, ◌≤◌, length, take};

use trees::MOST_NODES;

// The covering leaves of a tree: the numbers of its nodes, in rising order; slots behind them are never written.
// An array with a count, since the libraries have no heap and the leaves are copied.
#[derive(Clone, Copy, Debug)]
pub struct CoveringLeaves {
    numbers: [u16; MOST_NODES],
    count: usize,
    ghost few: { count ≤ 127 },
    ghost whole: { length (take count numbers) ≡ count },
}

impl CoveringLeaves {
    ghost use Rattle.std.specs.Prelude.{◌<◌, [], ◌∷◌, ◌++◌};
    ghost use Rattle.bounds.specs.Trees.{numbers_of, possible_at};

    // No leaves yet.
    pub(crate) fn new() -> CoveringLeaves
        ensures { numbers_of result ≡ [] }
    {
        CoveringLeaves {
            numbers: [0; MOST_NODES],
            count: 0,
        }
    }

    // One leaf more, behind the others.
    pub(crate) fn push(&mut self, number: u16)
        requires { length (numbers_of self.old) < 127 }
        ensures { numbers_of self.new ≡ numbers_of self.old ++ number ∷ [] }
    {
        self.numbers[self.count] = number;
        self.count += 1;
    }

    // How many there are.
    pub fn count(&self) -> u16
        ensures { result ≡ length (numbers_of self.now) }
    {
        self.count as u16
    }

    // The number of the covering leaf at an index, if there is one.
    pub fn get(&self, index: u16) -> Option<u16>
        ensures { result ≡ possible_at (numbers_of self.now) index 0 }
    {
        self.numbers[..self.count].get(index as usize).copied()
    }
}
