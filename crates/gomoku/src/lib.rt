// Gomoku on 15 by 15 points: five or more in a straight line win.
#![tactic(auto)]

ghost use Rattle.std.specs.Prelude.{◌≡◌, ◌<◌, false, [], length};
ghost use Rattle.std.specs.List.{list_all, list_any, range_with_len};
ghost use Rattle.side.specs.declared.Side.TheVariants.{First};
ghost use Rattle.rules.specs.Machine.{OnWay};
ghost use Rattle.rules.specs.Plans.{NoWin};
ghost use Rattle.board.specs.Windows.{in_line};
ghost use Rattle.gomoku_theory.specs.Gomoku.{gomoku, gomoku_from, at, start, empty, lines, stones_on, status_of, fits, shown, Counted, OneWinner, MadeBy, ShownBy};
ghost use Rattle.gomoku_theory.specs.Search.{headings, cell_at, columns_of, column_has, board_has, passes, won_at, judged_by};
ghost use Rattle.gomoku.specs.Sought.{admits, seen};
ghost use Rattle.gomoku.specs.declared.Sought.TheVariants.{Line};
ghost use Rattle.gomoku_theory.proofs.Moves.{laws};
ghost use Rattle.rules.proofs.Sound.{point_of};

mod windows;

use crate::windows::Window;
pub use gomoku_theory::Point;
use gomoku_theory::{Heading, SIZE};
use rules::{Rules, Status};
use side::Side;

const POINTS: usize = SIZE * SIZE;

const HEADINGS: [Heading; 4] = [
    Heading::Upright,
    Heading::Level,
    Heading::Rising,
    Heading::Falling,
];

#[derive(Clone, Copy)]
pub struct Gomoku {
    points: [Point; POINTS],
    turn: Side,
    stones: u8,
    status: Status,
    ghost counted: { stones ≡ stones_on points },
    ghost judged: { status ≡ status_of points },
    ghost way: { OnWay gomoku start (at points turn) },
}

// What is looked for in a window: five stones of a side, or no stone of the other side.
#[derive(Clone, Copy)]
enum Sought {
    Line(Side),
    Room(Side),
}

impl Sought {
    fn admits(self, point: Point) -> bool
        ensures { result ≡ admits self point }
    {
        match self {
            Sought::Line(side) => point == Point::Stone(side),
            Sought::Room(side) => point != Point::Stone(side.other()),
        }
    }

    // Whether each point of a window is admitted. Not inlined, it makes a search of the whole board take twice the time.
    #[inline(always)]
    fn fits(self, points: &[Point; POINTS], window: Window) -> bool
        ensures { result ≡ list_all (λ j. seen points.now self (cell_at window.heading window.column window.row j)) (range_with_len 0 5) }
    {
        (0..5).all(|j| self.admits(points[window.place(j)]))
    }

    // Whether some window of a heading fits that has this as its lowest column.
    fn fits_column(self, points: &[Point; POINTS], heading: Heading, column: usize) -> bool
        requires { column < columns_of heading }
        ensures { result ≡ column_has (seen points.now self) heading column }
    {
        (0..heading.rows()).any(|row| self.fits(points, Window::new(heading, column, row)))
    }

    // Whether some window of a heading fits.
    #[tactic(auto, unfolding(gomoku_theory::specs::Search::board_has))]
    fn fits_heading(self, points: &[Point; POINTS], heading: Heading) -> bool
        ensures { result ≡ board_has (seen points.now self) heading }
    {
        (0..heading.columns()).any(|column| self.fits_column(points, heading, column))
    }

    // Whether some window of the board fits.
    #[tactic(auto, using(gomoku_theory::proofs::Lines::line_by))]
    fn fits_board(self, points: &[Point; POINTS]) -> bool
        ensures { result ≡ in_line lines (seen points.now self) }
    {
        HEADINGS
            .iter()
            .any(|heading| self.fits_heading(points, *heading))
    }

    // Whether the window of a heading fits that has a point as its j-th, if it lies on the board.
    // Inlined, each heading has code of its own. Not inlined, or by `is_some_and`, a move takes twice the instructions and more.
    #[inline(always)]
    fn fits_as(
        self,
        points: &[Point; POINTS],
        heading: Heading,
        column: usize,
        row: usize,
        j: usize,
    ) -> bool
        requires { (column < 15) × ((row < 15) × (j < 5)) }
        ensures { result ≡ passes (seen points.now self) heading column row j }
    {
        match Window::through(heading, column, row, j) {
            Some(window) => self.fits(points, window),
            None => false,
        }
    }

    // Whether some window fits that has a point as its j-th.
    // By name: a loop over `HEADINGS` makes a move a fifth slower.
    fn fits_some(self, points: &[Point; POINTS], column: usize, row: usize, j: usize) -> bool
        requires { (column < 15) × ((row < 15) × (j < 5)) }
        ensures { result ≡ list_any (λ h. passes (seen points.now self) h column row j) headings }
    {
        self.fits_as(points, Heading::Upright, column, row, j)
            || self.fits_as(points, Heading::Level, column, row, j)
            || self.fits_as(points, Heading::Rising, column, row, j)
            || self.fits_as(points, Heading::Falling, column, row, j)
    }

    // Whether some window fits that has a point: 20 windows at most are looked at.
    fn fits_through(self, points: &[Point; POINTS], column: usize, row: usize) -> bool
        requires { (column < 15) × (row < 15) }
        ensures { result ≡ list_any (λ j. list_any (λ h. passes (seen points.now self) h column row j) headings) (range_with_len 0 5) }
    {
        (0..5).any(|j| self.fits_some(points, column, row, j))
    }

    // The same of the point of a place. Not inlined, so that `make` can be: it refuses most codes that a stepper tries.
    #[inline(never)]
    #[tactic(auto, using(crate::proofs::Near::won_by))]
    fn fits_at(self, points: &[Point; POINTS], place: usize) -> bool
        requires { place < 225 }
        ensures { result ≡ won_at (seen points.now self) place }
    {
        self.fits_through(points, place % SIZE, place / SIZE)
    }
}

// The status once a side has put a stone on a place of an open game: no other line can be new.
fn judge(points: &[Point; POINTS], side: Side, place: usize, stones: u8) -> Status
    requires { place < 225 }
    ensures { result ≡ judged_by (won_at (seen points.now (Line side)) place) stones side }
{
    if Sought::Line(side).fits_at(points, place) {
        Status::Won(side)
    } else if usize::from(stones) == POINTS {
        Status::Drawn
    } else {
        Status::Open
    }
}

impl Gomoku {
    pub fn new() -> Gomoku
        ensures begins { at result.points result.turn ≡ start }
        ensures windows { length lines ≡ 572 }
        ensures counted { Counted }
        ensures one_winner { OneWinner }
    {
        Gomoku {
            points: [Point::Free; POINTS],
            turn: Side::First,
            stones: 0,
            status: Status::Open,
        }
    }

    // What the board shows; nothing outside it.
    pub fn point(&self, column: u8, row: u8) -> Option<Point>
        ensures value { result ≡ shown self.now.points column row }
        ensures made { ShownBy (at self.now.points self.now.turn) column row result }
    {
        let (column, row) = (usize::from(column), usize::from(row));
        (column < SIZE && row < SIZE).then(|| self.points[SIZE * row + column])
    }

    // How many stones lie on the board: as many as codes were made.
    #[tactic(auto, using(gomoku_theory::proofs::Moves::made_by))]
    pub fn stones(&self) -> u32
        ensures value { result ≡ stones_on self.now.points }
        ensures made { MadeBy (at self.now.points self.now.turn) result }
    {
        u32::from(self.stones)
    }

    // Whether the game is open and the code is that of a free point.
    fn fitting(&self, code: u16) -> bool
        ensures { result ≡ fits self.now.points code }
    {
        self.status == Status::Open && self.points.get(usize::from(code)) == Some(&Point::Free)
    }
}

impl Rules for Gomoku {
    const CODES: u16 = 225;

    const LONGEST: u16 = 225;

    ghost CODES = { 225 };

    ghost LONGEST = { 225 };

    ghost plan = { λ _. gomoku_from empty First };

    ghost line = { λ x. gomoku_from x.points x.turn };

    ghost lawful = { λ x. laws };

    ghost point = { λ x. point_of gomoku start (at x.points x.turn) x.way };

    fn reset(&mut self) {
        *self = Gomoku::new();
    }

    fn make(&mut self, code: u16) -> bool {
        if !self.fitting(code) {
            return false;
        }
        let side = self.turn;
        let next = side.other();
        let place = usize::from(code);
        self.points[place] = Point::Stone(side);
        self.turn = next;
        self.stones += 1;
        self.status = judge(&self.points, side, place, self.stones);
        true
    }

    fn status(&self) -> Status {
        self.status // as the last stone left it
    }

    fn chance(&self, side: Side) -> bool
        ensures answer { result ≡ (gomoku_from self.now.points self.now.turn).chance [] side }
        ensures no_win { result ≡ false → NoWin (gomoku_from self.now.points self.now.turn) side }
    {
        Sought::Room(side).fits_board(&self.points)
    }

    fn copy(&self) -> Self {
        *self // plain data: the two share nothing
    }
}
