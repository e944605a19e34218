// A question that may be searched is answered: the keys of the joints found are left at the end of the keys and the trail in its list, and all else is cleared.
ghost use Rattle.std.specs.Prelude.{◌≡◌, ◌++◌, ◌-◌, ◌≤◌, length, drop, replicate};
ghost use Rattle.seek.specs.Told.{searched_of, sought_of, Told, Searchable};

use crate::find::find;
use crate::question::Question;
use board::Board;
use keys::distance::Place;

// What a search found: how many joints, and how many boxes were opened for them.
#[derive(Clone, Copy)]
pub struct Found {
    pub joints: u32,
    pub boxes: u32,
}

// All places but the last n are cleared.
fn clear_before(keys: &mut [u64], n: usize)
    requires { n ≤ length keys.old }
    ensures { keys.new ≡ replicate (length keys.old - n) 0 ++ drop (length keys.old - n) keys.old }
{
    let free = keys.len() - n;
    lent::clear(&mut keys[..free]);
}

// The search of a question: the tests of board, place, count and work lists are behind it. Nothing is found where the trail is longer than
// its list. The lists are lent one by one, as document 01 names them.
pub fn answered(
    board: Board,
    p: Place,
    k: u32,
    keys: &mut [u64],
    corners: &mut [u32],
    trail: &mut [u32],
) -> Option<Found>
    requires { Searchable board.height board.bytes.now board.directory.now p k (length keys.old) (length corners.old) }
    ensures { Told (searched_of board.entry.height board.entry.bytes.now p k (length trail.old)) board.entry.height board.entry.bytes.now p k keys.old corners.old trail.old (sought_of result) keys.new corners.new trail.new }
{
    let q = Question {
        board,
        place: p,
        wanted: k,
    };
    let t = find(q, keys, corners, trail);
    lent::clear(corners);
    if trail.len() < t.opened as usize {
        lent::clear(keys);
        lent::clear(trail);
        return None;
    }
    clear_before(keys, t.handed as usize);
    Some(Found {
        joints: t.handed,
        boxes: t.opened,
    })
}
