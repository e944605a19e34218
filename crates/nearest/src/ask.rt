// A question is asked: tested, searched, and its number lists cleared but for the keys of the joints found, which are left for the answer list.
ghost use Rattle.std.specs.Prelude.{◌≡◌, Bool, true, length};
ghost use Rattle.refusal.specs.Answer.{Served, ◌then◌};
ghost use Rattle.seek.specs.Told.{searched_of, Told, Searchable};
ghost use Rattle.nearest.specs.Asked.{Asked};
ghost use Rattle.nearest.specs.Promise.{pass_of, joints_of, numbers_of};

use crate::gate::{Lengths, may_ask};
use board::Board;
use keys::distance::Place;
use refusal::Refusal;
pub use seek::answered::Found;
use seek::answered::answered;

// How many joints were found.
pub(crate) fn joints_of(r: Result<Found, Refusal>) -> usize
    ensures { result ≡ joints_of r }
{
    match r {
        Ok(found) => found.joints as usize,
        Err(_) => 0,
    }
}

// The search of a question that passed its tests; after a refusal the lists are cleared.
pub(crate) fn searched(
    passed: Result<(), Refusal>,
    board: Board,
    p: Place,
    k: u32,
    keys: &mut [u64],
    corners: &mut [u32],
    trail: &mut [u32],
) -> Result<Found, Refusal>
    requires { pass_of passed ≡ Served true → Searchable board.height board.bytes.now board.directory.now p k (length keys.old) (length corners.old) }
    ensures { Told (pass_of passed then searched_of board.entry.height board.entry.bytes.now p k (length trail.old)) board.entry.height board.entry.bytes.now p k keys.old corners.old trail.old (numbers_of result) keys.new corners.new trail.new }
{
    if let Err(refusal) = passed {
        lent::clear(keys);
        lent::clear(corners);
        lent::clear(trail);
        return Err(refusal);
    }
    answered(board, p, k, keys, corners, trail).ok_or(Refusal::TrailRoom)
}

// The question without its answer list, of which it takes the room alone. The other lists are lent one by one, as document 01 names them.
pub fn asked(
    board: Board,
    p: Place,
    k: u32,
    answers: usize,
    keys: &mut [u64],
    corners: &mut [u32],
    trail: &mut [u32],
) -> Result<Found, Refusal>
    ensures { Asked board.entry.height board.entry.bytes.now board.entry.directory.now p k answers keys.old corners.old trail.old result keys.new corners.new trail.new }
{
    let lengths = Lengths {
        answers,
        keys: keys.len(),
        corners: corners.len(),
    };
    let passed = may_ask(board, p, k, lengths);
    searched(passed, board, p, k, keys, corners, trail)
}
