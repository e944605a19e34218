// Groups written level by level into the room there is, and counted on past it.
ghost use Rattle.std.specs.Prelude.{◌≡◌, List, [], ◌∷◌, ◌++◌, ℕ, ◌+◌, ◌*◌, ◌/◌, ◌^◌, ◌<◌, ◌≤◌, length, get_or, replicate};
ghost use Rattle.order.proofs.Sets.{In, Rising};
ghost use Rattle.board.specs.Limits.{max_height, max_joints};
ghost use Rattle.build.specs.Build.{groups_from};
ghost use Rattle.build.specs.Writing.{in_byte, put_group, level_of, worth, Written};

use bitmap::GroupNo;

// The box of side 2^s that a cell is in, by the cell's code.
#[tactic(auto, using(crate::proofs::Digits::two_bits))]
fn box_of(code: u32, s: u32) -> u32
    requires { s < 16 }
    ensures { result ≡ code / 4 ^ s }
{
    code >> (2 * s)
}

// What a quarter's bit is worth in its group, by the quarter's code.
#[tactic(auto, using(crate::proofs::Digits::worth_shifted, crate::proofs::Digits::worth_small))]
fn worth_of(quarter: u32) -> u32
    ensures { (result ≡ worth quarter) × (result ≤ 8) }
{
    8 >> (quarter % 4)
}

// Four bits as a group has them in its byte.
fn in_byte(g: GroupNo, bits: u32) -> u8
    requires { bits < 16 }
    ensures { result ≡ in_byte g.0 bits }
{
    if g.number() % 2 == 0 {
        (bits * 16) as u8
    } else {
        bits as u8
    }
}

// Adds four bits at a group, where there is room for it.
#[tactic(auto, unfolding(crate::specs::Writing::put_group))]
fn put(bitmap: &mut [u8], g: GroupNo, bits: u32)
    requires { (bits < 16) × (g.0 / 2 < length bitmap.old → get_or bitmap.old (g.0 / 2) 0 + in_byte g.0 bits < 256) }
    ensures { bitmap.new ≡ put_group bitmap.old g.0 bits }
{
    let at = (g.number() / 2) as usize;
    // A slice's `get_mut` tells a proof nothing of the places afterwards.
    if at < bitmap.len() {
        bitmap[at] += in_byte(g, bits);
    }
}

// Writes the groups of the boxes of side 2^(s + 1) behind those that are written; the number of the next group.
fn write_level(codes: &[u32], s: u32, first: GroupNo, bitmap: &mut [u8]) -> GroupNo
    requires { ((gs : List ℕ) × Written gs first.0 bitmap.old) × (s < 16) × (1 ≤ length codes.now) × Rising codes.now × (first.0 + length codes.now < 2 ^ 32) }
    ensures { ((gs : List ℕ) → Written gs first.0 bitmap.old → Written (gs ++ level_of s codes.now) result.0 bitmap.new) × (result.0 ≤ first.0 + length codes.now) }
{
    let mut g = first;
    let mut child = box_of(codes[0], s);
    let mut bits = worth_of(child);
    for &code in &codes[1..] {
        let next = box_of(code, s);
        if next / 4 != child / 4 {
            put(bitmap, g, bits);
            g = g.after(1);
            bits = worth_of(next);
        } else if next != child {
            bits += worth_of(next);
        }
        child = next;
    }
    put(bitmap, g, bits);
    g.after(1)
}

// Writes the groups of all levels into an empty bitmap; how many they are, as the number of the next group.
#[tactic(auto, using(crate::proofs::Descent::descent_start, crate::proofs::Descent::descent_step), unfolding(board::specs::Limits::max_height, board::specs::Limits::max_joints))]
pub(crate) fn write_levels(height: u32, codes: &[u32], bitmap: &mut [u8]) -> GroupNo
    requires { (1 ≤ height) × (height ≤ max_height) × (length codes.now ≤ max_joints) × Rising codes.now × ((z : ℕ) → In z codes.now → z < 4 ^ height) × (bitmap.old ≡ replicate (length bitmap.old) 0) }
    ensures { Written (groups_from height (0 ∷ []) codes.now) result.0 bitmap.new × (result.0 ≤ max_height * max_joints + 1) }
{
    let mut g = GroupNo::root();
    if codes.is_empty() {
        return g.after(1);
    }
    for s in (0..height).rev() {
        g = write_level(codes, s, g, bitmap);
    }
    g
}
