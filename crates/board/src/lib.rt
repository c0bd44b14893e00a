// Boards of columns and rows, and the windows of a length that lie on them.
#![tactic(auto)]

ghost use Rattle.std.specs.Prelude.{◌≡◌, length};
ghost use Rattle.board.specs.Windows.{windows};
ghost use Rattle.board.specs.Straight.{WindowsRight, LinesHoldWindows, InLineRight, WindowCounts};

// How many windows of n cells lie on a board.
#[tactic(auto, using(crate::proofs::Straight::window_number))]
pub fn window_count(columns: u8, rows: u8, n: u8) -> u32
    ensures { result ≡ length (windows columns rows n) }
{
    let columns = u32::from(columns);
    let rows = u32::from(rows);
    // the steps from a window's first cell to its last
    let span = u32::from(n).saturating_sub(1);
    // the columns and the rows that a window can begin in
    let across = columns.saturating_sub(span);
    let up = rows.saturating_sub(span);
    columns * up + across * rows + 2 * (across * up)
}

// The windows are just the straight lines of their length on the board, and every longer line holds one.
pub fn windows_are_right()
    ensures right { WindowsRight }
    ensures held { LinesHoldWindows }
    ensures in_line { InLineRight }
    ensures counts { WindowCounts }
{}
