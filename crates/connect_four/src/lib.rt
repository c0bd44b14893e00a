// Connect Four: seven columns and six rows, a word of bits for each side, bit 7 * column + row for a stone.
#![tactic(auto)]

ghost use Rattle.std.specs.Prelude.{◌≡◌, ◌≤◌, Some, None, false, not, length, IsTrue, ◌↔◌, count_by, count_ones, [], ◌∷◌, find, if◌then◌else◌};
ghost use Rattle.side.specs.declared.Side.TheVariants.{First, Second};
ghost use Rattle.std.specs.Option.{option_map};
ghost use Rattle.side.specs.TwoSides.{of_side};
ghost use Rattle.rules.specs.Machine.{plan_of, OnWay};
ghost use Rattle.rules.specs.Plans.{NoWin};
ghost use Rattle.board.specs.Windows.{cell, windows};
ghost use Rattle.board.specs.Straight.{Inside, inside};
ghost use Rattle.connect_four_theory.specs.Stones.{place, has_stone, placed, board, four_in_line, Run};
ghost use Rattle.connect_four_theory.specs.Game.{position, start, held, lowest_free, holder, status_of, status_since, falls_to, chance_of, four, connect_four, Settled};
ghost use Rattle.connect_four_theory.specs.Facts.{Made, Judged, ColumnSample};
ghost use Rattle.connect_four_theory.proofs.Moves.{laws};
ghost use Rattle.rules.proofs.Sound.{point_of};

use rules::{Rules, Status};
use side::{PerSide, Side};
use std::marker::Model;

const COLUMNS: u32 = 7;

const ROWS: u32 = 6;

const CELLS: u32 = 42;
// the bits of a column: six cells, and one that is never set, so that no line goes on from a column's top to the next one
const PITCH: u32 = 7;
// the bits of the cells
const BOARD: u64 = 0x0000_fdfb_f7ef_dfbf;
// from a cell's bit to the next one's in a line: upright, falling, level and rising
const STEPS: [u32; 4] = [1, PITCH - 1, PITCH, PITCH + 1];

// Whether four bits, each a step past the one before, are set.
#[tactic(auto, using(connect_four_theory::proofs::Lines::quads_run, connect_four_theory::proofs::Lines::run_quads))]
fn has_run(word: u64, step: u32) -> bool
    requires { step ≤ 8 }
    ensures { IsTrue result ↔ Run word step }
{
    let pairs = word & (word >> step);
    pairs & (pairs >> (2 * step)) != 0
}

// A cell of the board.
#[derive(Clone, Copy)]
struct Cell {
    column: u32,
    row: u32,
}

impl Model for Cell {
    ghost use Rattle.std.specs.Prelude.{◌<◌};
    ghost use Rattle.board.specs.Windows.{Cell, cell};

    ghost Value = { Cell };

    ghost view = { λ c. cell c.column c.row };

    ghost invariant = { λ c. (c.column < 7) × (c.row < 6) };

    ghost inverse = { λ c. record { column = c.column; row = c.row } };
}

impl Cell {
    // The cell of a column and a row; none where the board has no such cell.
    fn new(column: u32, row: u32) -> Option<Cell>
        ensures { result ≡ (if inside 7 6 (cell column row) then Some (cell column row) else None) }
    {
        if column < COLUMNS && row < ROWS {
            Some(Cell { column, row })
        } else {
            None
        }
    }

    // The number of its bit.
    fn place(self) -> u32
        ensures place { result ≡ place self }
        ensures inside { Inside 7 6 self }
    {
        PITCH * self.column + self.row
    }
}

// The stones of one side: none lies outside the board.
#[derive(Clone, Copy)]
struct Stones {
    word: u64,
}

impl Model for Stones {
    ghost use Rattle.std.specs.Prelude.{ℕ};
    ghost use Rattle.connect_four_theory.specs.Stones.{OnBoard};

    ghost Value = { ℕ };

    ghost view = { λ s. s.word };

    ghost invariant = { λ s. OnBoard s.word };

    ghost inverse = { λ w. record { word = w } };
}

impl Stones {
    fn count(self) -> u32
        ensures { result ≡ count_ones self }
    {
        self.word.count_ones()
    }

    fn has(self, cell: Cell) -> bool
        ensures { result ≡ has_stone self cell }
    {
        (self.word >> cell.place()) & 1 == 1
    }

    fn with(self, cell: Cell) -> Stones
        ensures { result ≡ placed self cell }
    {
        Stones {
            word: self.word | (1 << cell.place()),
        }
    }

    // Whether four in a line are among them.
    fn has_line(self) -> bool
        ensures { result ≡ four_in_line (has_stone self) }
    {
        STEPS.iter().any(|step| has_run(self.word, *step))
    }

    // Whether four in a line are free of them.
    #[tactic(auto, using(connect_four_theory::proofs::Lines::gap_on, connect_four_theory::proofs::Lines::gap_is))]
    fn has_gap(self) -> bool
        ensures { result ≡ four_in_line (λ c. not (has_stone self c)) }
    {
        let gaps = Stones {
            word: BOARD ^ self.word,
        };
        gaps.has_line()
    }
}

// The status after a side's stone in a game that was open: only that side can have a line, so only its stones are looked at.
fn judge(mover: Side, own: Stones, other: Stones) -> Status
    ensures { result ≡ status_since mover own other }
{
    if own.has_line() {
        Status::Won(mover)
    } else if own.count() + other.count() == CELLS {
        Status::Drawn
    } else {
        Status::Open
    }
}

#[derive(Clone, Copy)]
pub struct ConnectFour {
    stones: PerSide<Stones>,
    turn: Side,
    status: Status,
    ghost settled: { Settled stones.first stones.second },
    ghost judged: { status ≡ status_of stones.first stones.second },
    ghost way: { OnWay four start (position stones turn) },
}

impl ConnectFour {
    // The empty board, with first to move.
    #[tactic(auto, using(rules::proofs::Sound::start_on_way, board::proofs::Straight::window_counts, connect_four_theory::proofs::Moves::settled_start, connect_four_theory::proofs::Moves::open_start, connect_four_theory::proofs::Facts::column_wins))]
    pub fn new() -> ConnectFour
        ensures start { position result.stones result.turn ≡ start }
        ensures line { plan_of four (position result.stones result.turn) ≡ connect_four }
        ensures windows { length (windows 7 6 4) ≡ 69 }
        ensures sample { ColumnSample }
    {
        let none = Stones { word: 0 };
        ConnectFour {
            stones: PerSide {
                first: none,
                second: none,
            },
            turn: Side::First,
            status: Status::Open,
        }
    }

    // How many stones a side has.
    #[tactic(auto, using(connect_four_theory::proofs::Falls::ones_are_stones, connect_four_theory::proofs::Facts::made_so, connect_four_theory::proofs::Facts::on_side))]
    pub fn stones(&self, side: Side) -> u32
        ensures ones { result ≡ count_ones (of_side side self.now.stones) }
        ensures cells { result ≡ count_by (has_stone (of_side side self.now.stones)) board }
        ensures made { Made (position self.now.stones self.now.turn) }
    {
        self.stones.of(side).count()
    }

    // Whose stone lies in a cell; none where it is free. By name: a `find` over the sides takes three times the instructions.
    fn holder(&self, cell: Cell) -> Option<Side>
        ensures { result ≡ find (λ side. has_stone (of_side side self.now.stones) cell) (First ∷ Second ∷ []) }
    {
        if self.stones.first.has(cell) {
            Some(Side::First)
        } else if self.stones.second.has(cell) {
            Some(Side::Second)
        } else {
            None
        }
    }

    // Whose stone lies in a cell; none where it is free or there is no such cell.
    pub fn stone_at(&self, column: u8, row: u8) -> Option<Side>
        ensures { result ≡ holder self.now.stones.first self.now.stones.second (cell column row) }
    {
        self.holder(Cell::new(column.into(), row.into())?)
    }

    fn is_free(&self, cell: Cell) -> bool
        ensures { result ≡ not (held self.now.stones.first self.now.stones.second cell) }
    {
        !(self.stones.first.has(cell) | self.stones.second.has(cell))
    }

    // The lowest free cell of a column: none where it is full or there is no such column.
    fn lowest_free(&self, column: u32) -> Option<Cell>
        ensures { result ≡ lowest_free (held self.now.stones.first self.now.stones.second) column }
    {
        (0..ROWS)
            .filter_map(|row| Cell::new(column, row))
            .find(|cell| self.is_free(*cell))
    }

    // The cell that the code's stone falls to: none where the game has ended, there is no such column or it is full.
    #[tactic(auto, using(connect_four_theory::proofs::Facts::open_target))]
    fn target(&self, code: u16) -> Option<Cell>
        ensures { result ≡ option_map (cell code) (falls_to self.now.stones.first self.now.stones.second code) }
    {
        if self.status == Status::Open {
            self.lowest_free(code.into())
        } else {
            None
        }
    }
}

impl Rules for ConnectFour {
    const CODES: u16 = 7;

    const LONGEST: u16 = 42;

    ghost CODES = { 7 };

    ghost LONGEST = { 42 };

    ghost plan = { λ _. connect_four };

    ghost line = { λ x. plan_of four (position x.stones x.turn) };

    ghost lawful = { λ x. laws };

    ghost point = { λ x. point_of four start (position x.stones x.turn) x.way };

    fn reset(&mut self) {
        *self = ConnectFour::new();
    }

    // Inlined, since most codes that a stepper tries are refused at once.
    #[inline]
    fn make(&mut self, code: u16) -> bool {
        let Some(cell) = self.target(code) else {
            return false;
        };
        let mover = self.turn;
        let next = mover.other();
        let own = self.stones.of(mover).with(cell);
        let other = *self.stones.of(next);
        *self = ConnectFour {
            stones: self.stones.with(mover, own),
            turn: next,
            status: judge(mover, own, other),
        };
        true
    }

    fn status(&self) -> Status
        ensures value { result ≡ status_of self.now.stones.first self.now.stones.second }
        ensures judged { Judged (position self.now.stones self.now.turn) result }
    {
        self.status
    }

    fn chance(&self, side: Side) -> bool
        ensures value { result ≡ chance_of self.now.stones.first self.now.stones.second side }
        ensures no_win { result ≡ false → NoWin (plan_of four (position self.now.stones self.now.turn)) side }
    {
        self.stones.of(side.other()).has_gap()
    }

    fn copy(&self) -> Self {
        *self
    }
}
