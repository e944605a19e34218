// Cells as codes, the numbers in whose order a bitmap has them.
ghost use Rattle.std.specs.Prelude.{◌≡◌, ◌++◌, map, ◌≤◌, length, drop};
ghost use Rattle.board.specs.Limits.{max_height};
ghost use Rattle.board.specs.Code.{code as code_at, code_of};
ghost use Rattle.build.specs.Answers.{cells_of, all_on};

use board::member::on_board;

// The code of a cell: its quarters from the whole board down, as digits to base 4.
#[tactic(auto, using(crate::proofs::Coding::coding_start, crate::proofs::Coding::coding_step, crate::proofs::Coding::coding_small), unfolding(board::specs::Limits::max_height))]
pub fn code(height: u32, row: u32, column: u32) -> u32
    requires { height ≤ max_height }
    ensures { result ≡ code_at height row column }
{
    let mut found = 0;
    for left in (0..height).rev() {
        found = 4 * found + 2 * ((row >> left) % 2) + (column >> left) % 2;
    }
    found
}

// Whether every cell is on the board.
#[tactic(auto, unfolding(board::specs::Limits::max_height))]
pub(crate) fn all_on(height: u32, rows: &[u32], columns: &[u32]) -> bool
    requires { (height ≤ max_height) × (length rows.now ≡ length columns.now) }
    ensures { result ≡ all_on height (cells_of rows.now columns.now) }
{
    rows.iter()
        .zip(columns)
        .all(|(row, column)| on_board(height, *row, *column))
}

// The cells' codes, from the first place of the work list on.
#[tactic(auto, using(crate::proofs::Coding::filled_start))]
pub(crate) fn fill(height: u32, rows: &[u32], columns: &[u32], work: &mut [u32])
    requires { (height ≤ max_height) × (length rows.now ≡ length columns.now) × (length rows.now ≤ length work.old) }
    ensures { work.new ≡ map (code_of height) (cells_of rows.now columns.now) ++ drop (length rows.now) work.old }
{
    // By number: three lists are walked at once.
    for i in 0..rows.len() {
        work[i] = code(height, rows[i], columns[i]);
    }
}
