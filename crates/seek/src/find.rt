// The search of a question: from the whole board, step by step, to the last joint or the last entry.
ghost use Rattle.std.specs.Prelude.{◌≡◌, ◌<◌, ◌≤◌, max, length};
ghost use Rattle.board.specs.Levels.{joints};
ghost use Rattle.keys.specs.Places.{place_of};
ghost use Rattle.seek.specs.Works.{SameLists};
ghost use Rattle.seek.specs.Search.{GoesOn, Begins, Ends};

use crate::question::Question;
use crate::spot::Spot;
use crate::step::{Tally, step};
use crate::work::Work;

// Whether another step is to be taken. It stops as soon as more boxes are opened than the trail has room for.
fn goes_on(t: Tally, wanted: u32, room: usize) -> bool
    ensures { GoesOn t wanted room result }
{
    0 < t.pending && t.handed < wanted && t.opened as usize <= room
}

// Steps are taken from the whole board on, while a joint is wanted and something is pending.
fn seek(start: Tally, q: Question, work: &mut Work, trail: &mut [u32]) -> Tally
    requires { (Begins (place_of q.place) q.board.bytes.now q.board.directory.now q.wanted start work.old.keys.now work.old.corners.now trail.old) }
    ensures same_lists { SameLists work.old work.new }
    ensures ends { (b : Begins (place_of q.entry.place) q.entry.board.bytes.now q.entry.board.directory.now q.entry.wanted start work.old.keys.now work.old.corners.now trail.old) → Ends (place_of q.entry.place) b.height q.entry.board.bytes.now q.entry.wanted (length trail.old) result work.new.keys.now work.new.corners.now trail.new (length work.old.keys.now) (length work.old.corners.now) }
{
    let mut t = start;
    while goes_on(t, q.wanted, trail.len()) {
        step(&mut t, q, work, trail);
    }
    t
}

// All the steps of a question: in the beginning the whole board is pending.
fn from_whole(q: Question, work: &mut Work, trail: &mut [u32]) -> Tally
    requires { (max 1 (length (joints q.board.height q.board.bytes.now)) ≤ length work.old.keys.now) × (max 1 (length (joints q.board.height q.board.bytes.now)) ≤ length work.old.corners.now) }
    ensures same_lists { SameLists work.old work.new }
    ensures ends { Ends (place_of q.entry.place) q.entry.board.height q.entry.board.bytes.now q.entry.wanted (length trail.old) result work.new.keys.now work.new.corners.now trail.new (length work.old.keys.now) (length work.old.corners.now) }
{
    lent::clear(trail);
    work.add(0, Spot::whole(q.board.height).entry(q));
    let start = Tally {
        opened: 0,
        pending: 1,
        handed: 0,
    };
    seek(start, q, work, trail)
}

// The search of a board that may be asked: the keys of the joints found stand at the end of the keys, the trail in its list.
pub(crate) fn find(q: Question, keys: &mut [u64], corners: &mut [u32], trail: &mut [u32]) -> Tally
    requires { (max 1 (length (joints q.board.height q.board.bytes.now)) ≤ length keys.old) × (max 1 (length (joints q.board.height q.board.bytes.now)) ≤ length corners.old) }
    ensures { Ends (place_of q.entry.place) q.entry.board.height q.entry.board.bytes.now q.entry.wanted (length trail.old) result keys.new corners.new trail.new (length keys.old) (length corners.old) }
{
    let mut work = Work { keys, corners };
    from_whole(q, &mut work, trail)
}
