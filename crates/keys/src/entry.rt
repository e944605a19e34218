// Pending entries as one number each, by distance, a box before a joint, then group number, or row and column.
ghost use Rattle.std.specs.Prelude.{◌≡◌, ◌+◌, ◌*◌, ◌/◌, ◌%◌, ◌^◌, ◌<◌, eqb};
ghost use Rattle.search.specs.Keys.{key, cell_id, kind_of, id_of, row_of, col_of};

use crate::distance;
use crate::distance::SqDist;
use bitmap::GroupNo;

// The group numbers, or the rows and columns, that a key has room for; a key's kind is worth so much.
const IDS: u64 = 16777216;

// The columns that a key and a corner have room for.
const COLUMNS: u32 = 4096;

// A box's key: its near distance, kind 0, its group.
pub fn box_key(d: SqDist, g: GroupNo) -> u64
    ensures { result ≡ key d.0 0 g.0 }
{
    distance::in_key(d) + g.number() as u64
}

// A joint's key: its distance, kind 1, its row and column.
pub fn joint_key(d: SqDist, row: u32, col: u32) -> u64
    requires { (row < 2 ^ 12) × (col < 2 ^ 12) }
    ensures { result ≡ key d.0 1 (cell_id (record { row = row; col = col })) }
{
    distance::in_key(d) + IDS + (row * COLUMNS + col) as u64
}

// Whether a key is a joint's.
pub fn is_joint(key: u64) -> bool
    ensures { result ≡ eqb (kind_of key) 1 }
{
    key / IDS % 2 == 1
}

// The group of a box's key.
pub fn group_of(key: u64) -> GroupNo
    ensures { result.0 ≡ id_of key }
{
    GroupNo::numbered((key % IDS) as u32)
}

// The row of a joint's key.
pub fn row_of(key: u64) -> u32
    ensures { result ≡ row_of key }
{
    (key % IDS) as u32 / COLUMNS
}

// The column of a joint's key.
pub fn col_of(key: u64) -> u32
    ensures { result ≡ col_of key }
{
    (key % IDS) as u32 % COLUMNS
}

// A box's levels, its first row and its first column, as one number.
pub fn corner_of(levels: u32, row: u32, col: u32) -> u32
    requires { (levels * 2 ^ 12 + row) * 2 ^ 12 + col < 2 ^ 32 }
    ensures { result ≡ (levels * 2 ^ 12 + row) * 2 ^ 12 + col }
{
    (levels * COLUMNS + row) * COLUMNS + col
}

// The levels of a box, from its corner.
pub fn levels_of(corner: u32) -> u32
    ensures { result ≡ corner / 2 ^ 24 }
{
    corner / (COLUMNS * COLUMNS)
}

// The first row of a box, from its corner.
pub fn top_of(corner: u32) -> u32
    ensures { result ≡ corner / 2 ^ 12 % 2 ^ 12 }
{
    corner / COLUMNS % COLUMNS
}

// The first column of a box, from its corner.
pub fn left_of(corner: u32) -> u32
    ensures { result ≡ corner % 2 ^ 12 }
{
    corner % COLUMNS
}
