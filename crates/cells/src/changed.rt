// The cells that a firing changes.
ghost use Rattle.std.specs.Prelude.{◌≡◌, ◌<◌, ◌≤◌, [], ◌∷◌, ◌++◌, length};
ghost use Rattle.std.specs.List.{slice_get};

/// Up to four cell numbers, in the order in which the cells changed; a cell that changed twice comes twice.
// A count beside an array, and no vector: it is Copy, which no vector is, and takes no heap.
#[derive(Clone, Copy)]
pub struct Changed {
    pub(crate) count: usize,
    pub(crate) cells: [usize; 4],
    ghost few: { count ≤ 4 },
}

impl Changed {
    ghost use Rattle.cells.specs.Changes.{changed_cells};

    /// No cell.
    pub fn none() -> Changed
        ensures { changed_cells result ≡ [] }
    {
        Changed {
            count: 0,
            cells: [0; 4],
        }
    }

    // Adds a cell after these.
    pub(crate) fn push(&mut self, x: usize)
        requires { length (changed_cells self.old) < 4 }
        ensures { changed_cells self.new ≡ changed_cells self.old ++ x ∷ [] }
    {
        self.cells[self.count] = x;
        self.count += 1;
    }

    /// The cells, in the order in which they changed.
    pub fn as_slice(&self) -> &[usize]
        ensures { result.now ≡ changed_cells self.now }
    {
        &self.cells[..self.count]
    }

    /// The i-th of them, from 0; absent past the last.
    pub fn at(self, i: usize) -> Option<usize>
        ensures { result ≡ slice_get (changed_cells self) i }
    {
        self.as_slice().get(i).copied()
    }
}
