// Windows: the stored cells inside one, listed box by box. Inside, spans are half-open; the entry turns the closed ends at its door.
#![tactic(auto)]

ghost use Rattle.std.specs.Prelude.{◌≡◌, ◌+◌, ◌*◌, ◌-◌, ◌/◌, ◌%◌, ◌^◌, ◌<◌, ◌≤◌, length, set, replicate};
ghost use Rattle.board.specs.Limits.{max_height};
ghost use Rattle.board.specs.Under.{if_one};
ghost use Rattle.order.specs.Order.{keep};
ghost use Rattle.board.specs.Levels.{joints};
ghost use Rattle.board.specs.Ready.{Ready};
ghost use Rattle.window.specs.Window.{ends_fit, window_fits, ends, found, roomed, window_of, Shown};
ghost use Rattle.window.specs.Span.{within, meets_span};
ghost use Rattle.window.specs.Listing.{Listed, StoodOn, under_spot};

use bitmap::{GroupNo, Ranked, bit_in, group_at};
use board::{Board, side};
use lent::clear;
use refusal::Refusal;

// Rows, or columns, from one up to another that is no longer among them.
#[derive(Clone, Copy)]
struct Span {
    from: u32,
    past: u32,
}

// The cells of a span of rows and a span of columns.
#[derive(Clone, Copy)]
struct Pane {
    rows: Span,
    columns: Span,
}

// A box by the levels left under it, its group, and its row and column among the boxes of its level; with no level left it is a cell.
#[derive(Clone, Copy)]
struct Spot {
    left: u32,
    group: GroupNo,
    row: u32,
    column: u32,
}

// Whether a box has a row, or a column, in a span. With so many levels left under it, it is number `at` in a row of such boxes.
#[tactic(auto, unfolding(crate::specs::Span::meets_span))]
fn meets(span: Span, left: u32, at: u32) -> bool
    requires { (left ≤ max_height) × (at * 2 ^ left + 2 ^ left < 2 ^ 32) }
    ensures { result ≡ meets_span span left at }
{
    let cells = side(left);
    let first = at * cells;
    span.from < first + cells && first < span.past
}

// A quarter of a box, with the group that it has where its bit is one.
fn quarter_spot(s: Spot, quarter: u32, group: GroupNo) -> Spot
    requires { (1 ≤ s.left) × (s.row < 2 ^ 30) × (s.column < 2 ^ 30) × (quarter < 4) }
    ensures { (result.left ≡ s.left - 1) × (result.group.0 ≡ group.0) × (result.row ≡ 2 * s.row + quarter / 2) × (result.column ≡ 2 * s.column + quarter % 2) }
{
    Spot {
        left: s.left - 1,
        group,
        row: 2 * s.row + quarter / 2,
        column: 2 * s.column + quarter % 2,
    }
}

// Writes a number at a place of a list, where there is room.
fn put_at(n: u32, number: u32, list: &mut [u32])
    ensures { list.new ≡ set list.old n number }
{
    let at = n as usize;
    // A slice's `get_mut` tells a proof nothing of the places afterwards.
    if at < list.len() {
        list[at] = number;
    }
}

// The two lists lent for a window's cells: their rows, and their columns.
#[derive(Drop)]
struct Cells<'a> {
    rows: &'a mut [u32],
    columns: &'a mut [u32],
}

impl Cells<'_> {
    // Writes a cell at a place, where there is room for its row, and for its column.
    fn put(&mut self, n: u32, row: u32, column: u32)
        ensures same_rows { self.new.rows.ghost_name ≡ self.old.rows.ghost_name }
        ensures same_columns { self.new.columns.ghost_name ≡ self.old.columns.ghost_name }
        ensures put { (self.new.rows.now ≡ set self.old.rows.now n row) × (self.new.columns.now ≡ set self.old.columns.now n column) }
    {
        put_at(n, row, self.rows);
        put_at(n, column, self.columns);
    }

    // Both lists, all zeros.
    fn clear(&mut self)
        ensures same_rows { self.new.rows.ghost_name ≡ self.old.rows.ghost_name }
        ensures same_columns { self.new.columns.ghost_name ≡ self.old.columns.ghost_name }
        ensures cleared { (self.new.rows.now ≡ replicate (length self.old.rows.now) 0) × (self.new.columns.now ≡ replicate (length self.old.columns.now) 0) }
    {
        clear(self.rows);
        clear(self.columns);
    }
}

// Lists a quarter, where its bit is one: as a cell where no level is left, and else as a box. One beside the pane is not gone into.
// What it takes travels together nowhere else. The bitmap is lent with its directory, so that a call copies neither.
#[cycle(list_box_list_quarter)]
#[tactic(auto, using(crate::proofs::Standing::stood_fits, crate::proofs::Standing::side_small, crate::proofs::Listing::if_one_some, crate::proofs::Listing::spot_cell))]
fn list_quarter(ranked: &Ranked, pane: Pane, s: Spot, one: u32, n: u32, cells: &mut Cells) -> u32
    requires { ((1 ≤ one) → StoodOn ranked.now.bytes.now s) × (n + length (if_one one (under_spot ranked.now.bytes.now s)) < 2 ^ 32) }
    ensures same_rows { cells.new.rows.ghost_name ≡ cells.old.rows.ghost_name }
    ensures same_columns { cells.new.columns.ghost_name ≡ cells.old.columns.ghost_name }
    ensures listed { Listed pane (if_one one (under_spot ranked.now.bytes.now s)) n result cells.old.rows.now cells.new.rows.now cells.old.columns.now cells.new.columns.now }
{
    if one == 0 || !meets(pane.rows, s.left, s.row) || !meets(pane.columns, s.left, s.column) {
        return n;
    }
    if s.left == 0 {
        cells.put(n, s.row, s.column);
        return n + 1;
    }
    list_box(ranked, pane, s, n, cells)
}

// Lists a box by its quarters in order. One rank gives the group of its first one, and the next ones have the groups after it.
#[cycle(list_box_list_quarter)]
fn list_box(ranked: &Ranked, pane: Pane, s: Spot, n: u32, cells: &mut Cells) -> u32
    requires { StoodOn ranked.now.bytes.now s × (1 ≤ s.left) × (n + length (under_spot ranked.now.bytes.now s) < 2 ^ 32) }
    ensures same_rows { cells.new.rows.ghost_name ≡ cells.old.rows.ghost_name }
    ensures same_columns { cells.new.columns.ghost_name ≡ cells.old.columns.ghost_name }
    ensures listed { Listed pane (under_spot ranked.now.bytes.now s) n result cells.old.rows.now cells.new.rows.now cells.old.columns.now cells.new.columns.now }
{
    let bits = group_at(ranked.bytes, s.group);
    let mut child = ranked.first_child(s.group);
    let mut count = n;
    for quarter in 0..4 {
        let one = bit_in(bits, quarter);
        let part = quarter_spot(s, quarter, child);
        count = list_quarter(ranked, pane, part, one, count, cells);
        child = child.after(one);
    }
    count
}

// The cells in a pane of a board that may be asked, into two lists of zeros; without the room for all of them both are zeros again.
fn list_pane(board: Board, pane: Pane, cells: &mut Cells) -> Result<u32, Refusal>
    requires { Ready board.height board.bytes.now board.directory.now × (cells.old.rows.now ≡ replicate (length cells.old.rows.now) 0) × (cells.old.columns.now ≡ replicate (length cells.old.columns.now) 0) }
    ensures same_rows { cells.new.rows.ghost_name ≡ cells.old.rows.ghost_name }
    ensures same_columns { cells.new.columns.ghost_name ≡ cells.old.columns.ghost_name }
    ensures shown { Shown (roomed (length (keep (within pane) (joints board.entry.height board.entry.bytes.now))) (length cells.old.rows.now) (length cells.old.columns.now)) (keep (within pane) (joints board.entry.height board.entry.bytes.now)) result cells.old.rows.now cells.new.rows.now cells.old.columns.now cells.new.columns.now }
{
    let whole = Spot {
        left: board.height,
        group: GroupNo::root(),
        row: 0,
        column: 0,
    };
    let ranked = Ranked {
        bytes: board.bytes,
        directory: board.directory,
    };
    let count = list_box(&ranked, pane, whole, 0, cells);
    let places = count as usize;
    if cells.rows.len() < places || cells.columns.len() < places {
        cells.clear();
        return Err(Refusal::AnswerRoom);
    }
    Ok(count)
}

// Whether both ends of a span are on the board, the lowest not above the highest.
#[tactic(auto, using(crate::proofs::Showing::ends_crossed, crate::proofs::Showing::ends_in_order))]
fn ends_fit(height: u32, lowest: u32, highest: u32) -> bool
    requires { height ≤ max_height }
    ensures { result ≡ ends_fit height lowest highest }
{
    lowest <= highest && highest < side(height)
}

// Whether all four ends of a window fit.
fn window_fits(
    height: u32,
    lowest_row: u32,
    highest_row: u32,
    lowest_column: u32,
    highest_column: u32,
) -> bool
    requires { height ≤ max_height }
    ensures { result ≡ window_fits height (ends lowest_row highest_row lowest_column highest_column) }
{
    ends_fit(height, lowest_row, highest_row) && ends_fit(height, lowest_column, highest_column)
}

// The stored cells in a window, of any bytes with any directory: their rows and columns in bitmap order, and zeros after them. The four
// ends are inside the window, so each highest is raised by one to make a span. Ends and lists are given one by one, as document 01 names them.
#[tactic(auto, using(board::proofs::Asking::asked_ready, crate::proofs::Showing::ends_small), unfolding(crate::specs::Window::ends_fit))]
pub fn window(
    board: Board,
    lowest_row: u32,
    highest_row: u32,
    lowest_column: u32,
    highest_column: u32,
    rows: &mut [u32],
    columns: &mut [u32],
) -> Result<u32, Refusal>
    ensures { Shown (window_of board.entry.height board.entry.bytes.now board.entry.directory.now (ends lowest_row highest_row lowest_column highest_column) (length rows.old) (length columns.old)) (found (ends lowest_row highest_row lowest_column highest_column) board.entry.height board.entry.bytes.now) result rows.old rows.new columns.old columns.new }
{
    let mut cells = Cells { rows, columns };
    cells.clear();
    board.ask()?;
    if !window_fits(
        board.height,
        lowest_row,
        highest_row,
        lowest_column,
        highest_column,
    ) {
        return Err(Refusal::Cell);
    }
    let pane = Pane {
        rows: Span {
            from: lowest_row,
            past: highest_row + 1,
        },
        columns: Span {
            from: lowest_column,
            past: highest_column + 1,
        },
    };
    list_pane(board, pane, &mut cells)
}
