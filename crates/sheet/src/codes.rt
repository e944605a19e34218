// The codes of an accepted sheet's joints, read where each joint record stands.
ghost use Rattle.std.specs.Prelude.{◌≡◌, ◌++◌, ◌≤◌, ◌<◌, length, drop};
ghost use Rattle.board.specs.Limits.{max_height};
ghost use Rattle.sheet.specs.Sheet.{joint_offset};
ghost use Rattle.sheet.specs.Codes.{code_at, codes_at};

use records::kind::{JOINT_BODY, Stage};
use records::record::{Record, Recorded, record_at};

// The offset of the first joint record, and the bytes of each.
pub(crate) const FIRST_JOINT: usize = 2;

pub(crate) const JOINT_RECORD: usize = 1 + JOINT_BODY;

// The code of the cell of the joint at an offset; another record has none.
#[tactic(auto, using(crate::proofs::Filling::code_served, crate::proofs::Filling::code_refused))]
fn code_at(sheet: &[u8], at: usize, height: u32) -> u32
    requires { (at < length sheet.now) × (height ≤ max_height) }
    ensures { result ≡ code_at height sheet.now at }
{
    match record_at(sheet, at, Stage::Joints, height) {
        Ok(
            Recorded {
                record: Record::Joint { row, column },
                ..
            },
        ) => build::cells::code(height, row, column),
        _ => 0,
    }
}

// The codes of so many joints, from the first place of the work list on.
#[tactic(auto, using(crate::proofs::Filling::filled_start, crate::proofs::Filling::filled_step, crate::proofs::Filling::filled_end))]
pub(crate) fn fill(sheet: &[u8], height: u32, joints: usize, work: &mut [u32])
    requires { (height ≤ max_height) × (joints ≤ length work.old) × (joint_offset joints ≤ length sheet.now) }
    ensures { work.new ≡ codes_at height sheet.now joints ++ drop joints work.old }
{
    for (i, code) in work[..joints].iter_mut().enumerate() {
        *code = code_at(sheet, FIRST_JOINT + JOINT_RECORD * i, height);
    }
}
