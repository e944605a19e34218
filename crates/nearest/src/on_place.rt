// A place of a round: a question on a board that was checked before.
ghost use Rattle.std.specs.Prelude.{◌≡◌, max};
ghost use Rattle.seek.specs.Told.{Told};
ghost use Rattle.nearest.specs.Asked.{rooms_of};
ghost use Rattle.nearest.specs.OnPlace.{place_room, on_place, Checked};
ghost use Rattle.nearest.specs.Promise.{pass_of, numbers_of};

use crate::ask::{Found, searched};
use crate::gate::{Lengths, may_name, may_work};
use board::Board;
use keys::distance::Place;
use refusal::Refusal;

// Its tests, over a board of so many joints.
fn place_passes(p: Place, joints: u32, lengths: Lengths) -> Result<(), Refusal>
    ensures { pass_of result ≡ place_room p (max 1 joints) lengths.keys lengths.corners }
{
    may_name(p)?;
    may_work(joints, lengths)
}

// Its tests, and the search. The lists are lent one by one, as document 01 names them.
pub fn asked_on(
    board: Board,
    joints: u32,
    p: Place,
    k: u32,
    keys: &mut [u64],
    corners: &mut [u32],
    trail: &mut [u32],
) -> Result<Found, Refusal>
    requires { Checked board.height board.bytes.now board.directory.now joints k }
    ensures { Told (on_place board.entry.height board.entry.bytes.now p k (rooms_of 0 keys.old corners.old trail.old)) board.entry.height board.entry.bytes.now p k keys.old corners.old trail.old (numbers_of result) keys.new corners.new trail.new }
{
    let lengths = Lengths {
        answers: 0,
        keys: keys.len(),
        corners: corners.len(),
    };
    let passed = place_passes(p, joints, lengths);
    searched(passed, board, p, k, keys, corners, trail)
}
