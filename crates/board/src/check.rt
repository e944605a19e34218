// The check of a bitmap: the height, then level by level and group by group, then the size, then the number of joints.
ghost use Rattle.std.specs.Prelude.{◌≡◌, true, [], ◌∷◌, ◌≤◌, leb, IfSome};
ghost use Rattle.refusal.specs.Answer.{Served, ◌unless◌, ◌then◌};
ghost use Rattle.refusal.specs.Results.{answer_by};
ghost use Rattle.order.specs.Order.{keep};
ghost use Rattle.board.specs.Limits.{max_height, max_joints};
ghost use Rattle.board.specs.Check.{faulty, first_fault, enough, check_of};
ghost use Rattle.board.specs.Numbers.{numbers_of};
ghost use Rattle.board.specs.Run.{run, Sound16};

use crate::{Counts, MAX_HEIGHT, MAX_JOINTS};
use bitmap::{GroupNo, group_at, ones_of, word_at};
use refusal::Refusal;

// The fault of a group that must be there.
#[tactic(auto, using(crate::proofs::Reading::missing_fault, crate::proofs::Reading::empty_fault, crate::proofs::Reading::without_fault))]
fn fault_at(bytes: &[u8], group: GroupNo) -> Result<(), Refusal>
    ensures { answer_by (λ _. true) result ≡ first_fault bytes.now (keep (faulty bytes.now) (group.0 ∷ [])) }
{
    if bytes.len() <= (group.number() / 2) as usize {
        return Err(Refusal::CutShort);
    }
    if group.number() != 0 && group_at(bytes, group) == 0 {
        return Err(Refusal::EmptyGroup);
    }
    Ok(())
}

// The groups of a word.
const RUN: u32 = 16;

// The lowest bit of each group of a word.
const MARKS: u64 = 0x1111_1111_1111_1111;

// The ones of sixteen groups at once, from one on that begins a byte, where so many are left, all are there and none is zero.
fn ones_of_run(bytes: &[u8], group: GroupNo, left: u32) -> Option<u32>
    ensures { IfSome result (λ ones. (ones ≤ 64) × (run ≤ left) × Sound16 bytes.now group.0 ones) }
{
    let number = group.number();
    // First and alone, and whether the group begins a byte last: measured, in another order the check of a board of few joints takes twice the time.
    if left < RUN {
        return None;
    }
    let at = (number / 2) as usize;
    if bytes.len() < at + 8 || number % 2 != 0 {
        return None;
    }
    let word = word_at(bytes, at);
    let pairs = word | (word >> 1);
    let fours = pairs | (pairs >> 2);
    if fours & MARKS != MARKS {
        return None;
    }
    Some(word.count_ones())
}

// The end of the check, of a board whose groups are all there and of its joints.
#[tactic(auto, using(crate::proofs::Reading::size_off, crate::proofs::Reading::spare_off, crate::proofs::Reading::size_right), unfolding(crate::specs::Limits::max_joints))]
fn measured(bytes: &[u8], groups: GroupNo, joints: u32) -> Result<Counts, Refusal>
    ensures { numbers_of result ≡ (4 unless enough bytes.now groups.0 then 5 unless leb joints max_joints then Served (joints ∷ groups.0 ∷ [])) }
{
    if bytes.len() != groups.number().div_ceil(2) as usize || group_at(bytes, groups) != 0 {
        return Err(Refusal::LeftOver);
    }
    if MAX_JOINTS < joints {
        return Err(Refusal::TooManyJoints);
    }
    Ok(Counts {
        joints,
        boxes: groups.number(),
    })
}

// The check of a board of a height that is served. The ones of a level are the boxes of the next, and in the end the joints; the first
// fault ends all levels at once.
#[tactic(auto, using(bitmap::proofs::Ones::ones_small, crate::proofs::Reading::level_fits, crate::proofs::Reading::level_end))]
fn check_levels(height: u32, bytes: &[u8]) -> Result<Counts, Refusal>
    requires { (1 ≤ height) × (height ≤ max_height) }
    ensures { numbers_of result ≡ check_of height bytes.now }
{
    let mut fault = Ok(());
    let mut group = GroupNo::root();
    let mut boxes: u32 = 1;
    'levels: for _level in 0..height {
        let mut ones: u32 = 0;
        let mut n: u32 = 0;
        // A step is a word of groups or one group.
        while n < boxes {
            if let Some(many) = ones_of_run(bytes, group, boxes - n) {
                ones += many;
                group = group.after(RUN);
                n += RUN;
                continue;
            }
            fault = fault_at(bytes, group);
            if fault.is_err() {
                break 'levels;
            }
            ones += ones_of(group_at(bytes, group));
            group = group.after(1);
            n += 1;
        }
        boxes = ones;
    }
    fault?;
    measured(bytes, group, boxes)
}

// The check of any bytes as a board of any height.
#[tactic(auto, using(crate::proofs::Reading::check_low, crate::proofs::Reading::check_high), unfolding(crate::specs::Limits::max_height))]
pub fn check(height: u32, bytes: &[u8]) -> Result<Counts, Refusal>
    ensures { numbers_of result ≡ check_of height bytes.now }
{
    if height < 1 || MAX_HEIGHT < height {
        return Err(Refusal::Height);
    }
    check_levels(height, bytes)
}
