// Where a box of the board lies.
ghost use Rattle.std.specs.Prelude.{◌≡◌, ◌+◌, ◌*◌, ◌^◌, ◌<◌};
ghost use Rattle.keys.specs.Places.{Fits, Corner};
ghost use Rattle.seek.specs.Lying.{box_from};

use crate::pending::Entry;
use crate::question::Question;
use bitmap::GroupNo;
use keys::{distance, entry};

// A box by the levels under it, its group, and the first of its rows and of its columns; with no levels it is a joint, and its group is
// not read.
#[derive(Clone, Copy)]
pub(crate) struct Spot {
    pub level: u32,
    pub group: GroupNo,
    pub row: u32,
    pub column: u32,
    ghost fits: { Fits level row column },
    ghost begins: { Corner level row column (box_from level row column) },
}

// The first row of a box's quarters, or of the second two of them; the same for columns. Measured: with a product in place of the choice
// a question is slower.
fn shifted(first: u32, half: u32, second: u32) -> u32
    requires { (second < 2) × (first + half < 2 ^ 32) }
    ensures { result ≡ first + second * half }
{
    if second == 0 {
        return first;
    }
    first + half
}

impl Spot {
    ghost use Rattle.std.specs.Prelude.{◌-◌, ◌≤◌};
    ghost use Rattle.board.specs.Limits.{max_height};
    ghost use Rattle.board.specs.Levels.{root};
    ghost use Rattle.board.specs.Under.{quarter};
    ghost use Rattle.keys.specs.Places.{place_of, Packs};
    ghost use Rattle.seek.specs.Spots.{box_of};

    // The whole board, of so many levels.
    pub(crate) fn whole(height: u32) -> Spot
        requires { height ≤ max_height }
        ensures { (result.level ≡ height) × (result.group.0 ≡ 0) × (box_of result ≡ root) }
    {
        Spot {
            level: height,
            group: GroupNo::root(),
            row: 0,
            column: 0,
        }
    }

    // One of its quarters, with the group that the quarter has.
    pub(crate) fn quarter(self, number: u32, group: GroupNo) -> Spot
        requires { (1 ≤ self.level) × (number < 4) }
        ensures { (result.level ≡ self.level - 1) × (result.group.0 ≡ group.0) × (box_of result ≡ quarter number (box_of self)) }
    {
        let level = self.level - 1;
        let half = board::side(level);
        Spot {
            level,
            group,
            row: shifted(self.row, half, number / 2),
            column: shifted(self.column, half, number % 2),
        }
    }

    // Its entry in the search of a question.
    pub(crate) fn entry(self, q: Question) -> Entry
        ensures { Packs (place_of q.entry.place) self.level self.group.0 (box_of self) result.key result.corner }
    {
        let d = distance::near(
            q.place.row,
            q.place.column,
            self.row,
            self.column,
            board::side(self.level),
        );
        if self.level == 0 {
            return Entry {
                key: entry::joint_key(d, self.row, self.column),
                corner: 0,
            };
        }
        Entry {
            key: entry::box_key(d, self.group),
            corner: entry::corner_of(self.level, self.row, self.column),
        }
    }
}
