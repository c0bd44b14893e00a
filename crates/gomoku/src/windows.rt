// Five points in a line: the windows of the board that lines are looked for in.
ghost use Rattle.std.specs.Prelude.{◌≡◌, ◌<◌};
ghost use Rattle.std.specs.Option.{option_map};
ghost use Rattle.gomoku_theory.specs.Gomoku.{code_of};
ghost use Rattle.gomoku_theory.specs.Search.{columns_of, rows_of, cell_at, window, begin, begin_of};

use gomoku_theory::{BEGINS, Heading, SIZE};

// By the lowest column and row that they touch.
#[derive(Clone, Copy)]
pub(crate) struct Window {
    pub(crate) heading: Heading,
    pub(crate) column: usize,
    pub(crate) row: usize,
    ghost across: { column < columns_of heading },
    ghost up: { row < rows_of heading },
}

impl Window {
    // For closures, where a call's bounds are proved and those of a `Window { .. }` are not.
    pub(crate) fn new(heading: Heading, column: usize, row: usize) -> Self
        requires { (column < columns_of heading) × (row < rows_of heading) }
        ensures { window result.heading result.column result.row ≡ window heading column row }
    {
        Self {
            heading,
            column,
            row,
        }
    }

    // The place of the j-th point.
    pub(crate) fn place(self, j: usize) -> usize
        requires { j < 5 }
        ensures value { result ≡ code_of (cell_at self.heading self.column self.row j) }
        ensures inside { result < 225 }
    {
        let (column, row) = match self.heading {
            Heading::Upright => (self.column, self.row + j),
            Heading::Level => (self.column + j, self.row),
            Heading::Rising => (self.column + j, self.row + j),
            Heading::Falling => (self.column + j, self.row + 4 - j),
        };
        SIZE * row + column
    }

    // The window that has a point as its j-th, if it lies on the board.
    pub(crate) fn through(heading: Heading, column: usize, row: usize, j: usize) -> Option<Window>
        requires { (column < 15) × ((row < 15) × (j < 5)) }
        ensures { option_map (λ w. window w.heading w.column w.row) result ≡ option_map (λ x. window heading x.0 x.1) (begin_of heading column row j) }
    {
        let (column, row) = match heading {
            Heading::Upright => (column, begin_at(row, j)?),
            Heading::Level => (begin_at(column, j)?, row),
            Heading::Rising => (begin_at(column, j)?, begin_at(row, j)?),
            Heading::Falling => (begin_at(column, j)?, begin_at(row, 4 - j)?),
        };
        Some(Window {
            heading,
            column,
            row,
        })
    }
}

// Where five numbers in a row begin that have x as their j-th, if all are inside the board.
fn begin_at(x: usize, j: usize) -> Option<usize>
    ensures { result ≡ begin x j }
{
    x.checked_sub(j).filter(|begin| *begin < BEGINS)
}
