// Whether a cell is stored.
ghost use Rattle.std.specs.Prelude.{◌≡◌, ◌+◌, ◌*◌, ◌/◌, ◌%◌, ◌^◌, ◌<◌};
ghost use Rattle.refusal.specs.Results.{answer_of};
ghost use Rattle.board.specs.Ready.{Ready};
ghost use Rattle.board.specs.Member.{on_board, stored, member_of};

use crate::Board;
use bitmap::{GroupNo, Ranked, bit_at};
use refusal::Refusal;

// Whether a cell is on the board.
#[tactic(auto, using(crate::proofs::Down::on_by_quotients, crate::proofs::Down::off_by_row, crate::proofs::Down::off_by_column))]
pub fn on_board(height: u32, row: u32, column: u32) -> bool
    requires { height < 32 }
    ensures { result ≡ on_board height row column }
{
    row >> height == 0 && column >> height == 0
}

// Which quarter of the box that holds it a cell is in, where the quarters have so many levels left under them.
fn quarter_of(left: u32, row: u32, column: u32) -> u32
    requires { left < 32 }
    ensures { result ≡ 2 * (row / 2 ^ left % 2) + column / 2 ^ left % 2 }
{
    2 * ((row >> left) % 2) + (column >> left) % 2
}

// Down from the whole board, by the bit of the cell's quarter and the group that it leads to.
fn is_stored(board: Board, row: u32, column: u32) -> bool
    requires { Ready board.height board.bytes.now board.directory.now × (row < 2 ^ board.height) × (column < 2 ^ board.height) }
    ensures { result ≡ stored board.entry.height board.entry.bytes.now row column }
{
    let ranked = Ranked {
        bytes: board.bytes,
        directory: board.directory,
    };
    let mut group = GroupNo::root();
    for left in (0..board.height).rev() {
        let p = group.bit(quarter_of(left, row, column));
        if bit_at(board.bytes, p) == 0 {
            return false;
        }
        group = ranked.child_of(p);
    }
    true
}

impl Board<'_> {
    // Whether a cell is stored, of any bytes with any directory.
    #[tactic(auto, using(crate::proofs::Asking::asked_ready, crate::proofs::Asking::asked_refused, crate::proofs::Asking::asked_served, crate::proofs::Down::on_board_both), unfolding(crate::specs::Member::member_of))]
    pub fn member(self, row: u32, column: u32) -> Result<bool, Refusal>
        ensures { answer_of result ≡ member_of self.entry.height self.entry.bytes.now self.entry.directory.now row column }
    {
        self.ask()?;
        if !on_board(self.height, row, column) {
            return Err(Refusal::Cell);
        }
        Ok(is_stored(self, row, column))
    }
}
