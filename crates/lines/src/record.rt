// The lines of each record of a sheet, put on a page that has the room for them.
ghost use Rattle.std.specs.Prelude.{◌∷◌, ◌≤◌, length, take};
ghost use Rattle.board.specs.Limits.{max_joints};
ghost use Rattle.window.specs.Window.{ends, found, window_of, window_numbers};
ghost use Rattle.text.specs.Text.{text_of};
ghost use Rattle.text.specs.Page.{Puts};
ghost use Rattle.text.specs.Lines.{win_line, in_lines};
ghost use Rattle.lines.specs.Report.{Roomy, cells_in, shown_lines, WindowPuts};

use crate::lists::Lists;
use board::Board;
use refusal::Refusal;
use text::Page;
use window::window;

// The lines of so many cells, the first of two lists.
fn put_cells(count: u32, rows: &[u32], columns: &[u32], page: &mut Page)
    requires { (count ≤ length rows.now) × (count ≤ length columns.now) × (count ≤ max_joints) × Roomy page.old }
    ensures { Puts (text_of (win_line count ∷ in_lines (take count rows.now) (take count columns.now))) page.old page.new }
{
    page.put_win(count);
    let n = count as usize;
    page.put_ins(&rows[..n], &columns[..n]);
}

// The lines of a window that is answered, with what it left in its lists.
fn put_window(answer: Result<u32, Refusal>, lists: &Lists, page: &mut Page)
    requires { (cells_in answer ≤ length lists.now.rows.now) × (cells_in answer ≤ length lists.now.columns.now) × (cells_in answer ≤ max_joints) × Roomy page.old }
    ensures { Puts (text_of (shown_lines (window_numbers answer) lists.now.rows.now lists.now.columns.now)) page.old page.new }
{
    match answer {
        Ok(count) => put_cells(count, lists.rows, lists.columns, page),
        Err(refusal) => page.put_no(refusal.number()),
    }
}

// The lines of a window, whose four ends are given one by one, as document 01 names them.
pub(crate) fn window_lines(
    board: Board,
    lowest_row: u32,
    highest_row: u32,
    lowest_column: u32,
    highest_column: u32,
    lists: &mut Lists,
    page: &mut Page,
)
    requires { Roomy page.old }
    ensures { WindowPuts (window_of board.entry.height board.entry.bytes.now board.entry.directory.now (ends lowest_row highest_row lowest_column highest_column) (length lists.old.rows.now) (length lists.old.columns.now)) (found (ends lowest_row highest_row lowest_column highest_column) board.entry.height board.entry.bytes.now) page.old page.new lists.old lists.new }
{
    let answer = window(
        board,
        lowest_row,
        highest_row,
        lowest_column,
        highest_column,
        lists.rows,
        lists.columns,
    );
    put_window(answer, lists, page);
}
