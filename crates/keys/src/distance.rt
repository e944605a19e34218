// Squared distances from a place, which may lie off the board, to boxes and cells.
ghost use Rattle.std.specs.Prelude.{◌≡◌, ◌+◌, ◌-◌, ◌*◌, ◌^◌, ◌≤◌, ◌<◌, nat_abs, leb};
ghost use Rattle.board.specs.Limits.{max_place, max_side};
ghost use Rattle.search.specs.Near.{max_gap, signed_gap, near_at};
ghost use Rattle.search.specs.Near as spec;
ghost use Rattle.search.specs.Keys.{distance_of};
ghost use Rattle.keys.specs.Places.{in_range};

// The farthest row or column of a place, either way.
const MAX_PLACE: i32 = 1999;

// The place that a question names; it may lie off the board.
#[derive(Clone, Copy)]
pub struct Place {
    pub row: i32,
    pub column: i32,
}

// A squared distance, which stands for no other count: outside this file it is made by `near` and `of_key`, and read by `squared` and `in_key`.
#[derive(Clone, Copy)]
pub struct SqDist(u32);

// The number that an answer's record shows.
pub fn squared(d: SqDist) -> u32
    ensures { result ≡ d.0 }
{
    d.0
}

// What a key's distance is worth in it.
const IN_KEY: u64 = 33554432;

// Its part of a key.
pub(crate) fn in_key(d: SqDist) -> u64
    ensures { result ≡ d.0 * 2 ^ 25 }
{
    d.0 as u64 * IN_KEY
}

// The distance of a key.
pub fn of_key(key: u64) -> SqDist
    requires { distance_of key < 2 ^ 32 }
    ensures { result.0 ≡ distance_of key }
{
    SqDist((key / IN_KEY) as u32)
}

// The signed gap from a place to the nearer end of a span, the end minus the place; 0 within the span.
pub(crate) fn gap(place: i32, lo: u32, hi: u32) -> i32
    requires { (nat_abs place ≤ max_place) × (lo ≤ hi) × (hi < max_side) }
    ensures { result ≡ signed_gap place lo hi }
{
    let first = lo as i32;
    let last = hi as i32;
    if place < first {
        first - place
    } else if last < place {
        last - place
    } else {
        0
    }
}

// The square of a gap.
pub(crate) fn square(d: i32) -> u32
    requires { nat_abs d ≤ max_gap }
    ensures { result ≡ spec.square (nat_abs d) }
{
    (d * d) as u32
}

// The last of side cells from first on.
fn last_of(first: u32, side: u32) -> u32
    requires { (0 < side) × (first + side ≤ max_side) }
    ensures { result ≡ first + side - 1 }
{
    first + side - 1
}

// The square of the gap along one axis, to the span of side cells from first on.
fn along(place: i32, first: u32, side: u32) -> u32
    requires { (nat_abs place ≤ max_place) × (0 < side) × (first + side ≤ max_side) }
    ensures { (result ≡ spec.square (spec.gap place first (first + side - 1))) × (result ≤ max_gap * max_gap) }
{
    square(gap(place, first, last_of(first, side)))
}

// The near distance of the side by side cells whose corner is given.
pub fn near(row: i32, col: i32, corner_row: u32, corner_col: u32, side: u32) -> SqDist
    requires { (nat_abs row ≤ max_place) × (nat_abs col ≤ max_place) × (0 < side) × (corner_row + side ≤ max_side) × (corner_col + side ≤ max_side) }
    ensures { result.0 ≡ near_at (record { row = row; col = col }) side corner_row corner_col }
{
    SqDist(along(row, corner_row, side) + along(col, corner_col, side))
}

// Whether a question may name this row or column.
fn in_range(z: i32) -> bool
    ensures { result ≡ leb (nat_abs z) max_place }
{
    (-MAX_PLACE..=MAX_PLACE).contains(&z)
}

// Whether a question may name this place.
pub fn is_named(p: Place) -> bool
    ensures { result ≡ in_range p }
{
    in_range(p.row) && in_range(p.column)
}
