// The tests that a question passes before the search, in the order of the numbers of refusal.
ghost use Rattle.std.specs.Prelude.{◌≡◌, List, ◌&&◌, max, leb};
ghost use Rattle.refusal.specs.Answer.{◌unless◌, ◌then◌};
ghost use Rattle.bitmap.specs.Directory.{directory_of, alike};
ghost use Rattle.board.specs.Check.{check_of};
ghost use Rattle.keys.specs.Places.{in_range};
ghost use Rattle.nearest.specs.Promise.{pass_of, room_of, work_for};

use board::Board;
use keys::distance::{Place, is_named};
use refusal::Refusal;

// How long the lists are that a question is lent, but for the trail's.
#[derive(Clone, Copy)]
pub(crate) struct Lengths {
    pub answers: usize,
    pub keys: usize,
    pub corners: usize,
}

// The most joints that a question may ask for.
const MAX_WANTED: u32 = 255;

// The places that each work list must have: as many as there are joints, at least 1.
fn work_for(joints: u32) -> usize
    ensures { result ≡ max 1 joints }
{
    joints.max(1) as usize
}

// The first test, of the place.
pub(crate) fn may_name(p: Place) -> Result<(), Refusal>
    ensures { pass_of result ≡ (7 unless in_range p) }
{
    if is_named(p) {
        Ok(())
    } else {
        Err(Refusal::Place)
    }
}

// The last test, of the work lists, over a board of so many joints.
pub(crate) fn may_work(joints: u32, lengths: Lengths) -> Result<(), Refusal>
    ensures { pass_of result ≡ (10 unless (leb (max 1 joints) lengths.keys && leb (max 1 joints) lengths.corners)) }
{
    let work = work_for(joints);
    if lengths.keys < work || lengths.corners < work {
        return Err(Refusal::WorkRoom);
    }
    Ok(())
}

// The tests of the question itself, over a board of so many joints.
fn question_passes(p: Place, k: u32, joints: u32, lengths: Lengths) -> Result<(), Refusal>
    ensures { pass_of result ≡ room_of p k (max 1 joints) (record { answers = lengths.answers; keys = lengths.keys; corners = lengths.corners; trail = 0 }) }
{
    may_name(p)?;
    if !(1..=MAX_WANTED).contains(&k) {
        return Err(Refusal::Count);
    }
    if lengths.answers < k as usize {
        return Err(Refusal::AnswerRoom);
    }
    may_work(joints, lengths)
}

// The tests of the board and of the question.
pub(crate) fn may_ask(board: Board, p: Place, k: u32, lengths: Lengths) -> Result<(), Refusal>
    ensures { pass_of result ≡ (check_of board.entry.height board.entry.bytes.now then 6 unless alike board.entry.directory.now (directory_of board.entry.bytes.now) then room_of p k (work_for board.entry.height board.entry.bytes.now) (record { answers = lengths.answers; keys = lengths.keys; corners = lengths.corners; trail = 0 })) }
{
    let counts = board.ask()?;
    question_passes(p, k, counts.joints, lengths)
}
