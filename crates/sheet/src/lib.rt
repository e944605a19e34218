// Joint sheets: records one after the other, and the board that they give.
#![tactic(auto)]

ghost use Rattle.std.specs.Prelude.{◌≡◌, List, map, ◌≤◌, length};
ghost use Rattle.board.specs.Code.{code_of};
ghost use Rattle.build.specs.Build.{bitmap_of};
ghost use Rattle.build.specs.Answers.{codes_built_of};
ghost use Rattle.build.specs.Promise.{Kept};
ghost use Rattle.records.specs.declared.record.Record.{Record};
ghost use Rattle.sheet.specs.Sheet.{Accepted, sheet_of, height_in, cells_in};
ghost use Rattle.sheet.specs.Promise.{Promise};

use crate::codes::{FIRST_JOINT, JOINT_RECORD};
use crate::scan::Scanned;
use build::Built;
use lent::clear;
use refusal::Refusal;

mod codes;
mod scan;

// The most bytes of a sheet, and the most joint records that stand in so many.
pub const MAX_SHEET: usize = 65536;

pub const MAX_RECORDS: usize = 5957;

// The board of a sheet: its height, the distinct joints, the boxes, the bitmap's length in bytes, and the offset of the first record
// after the joints.
#[derive(Clone, Copy)]
pub struct Sheeted {
    pub height: u32,
    pub joints: u32,
    pub boxes: u32,
    pub length: u32,
    pub requests: usize,
}

// Why a sheet is refused, and where.
#[derive(Clone, Copy)]
pub struct RefusedAt {
    pub refusal: Refusal,
    pub offset: usize,
}

impl RefusedAt {
    // Refused as a whole, at offset 0.
    fn whole(refusal: Refusal) -> RefusedAt
        ensures { result ≡ record { refusal = refusal; offset = 0 } }
    {
        RefusedAt { refusal, offset: 0 }
    }
}

// Builds the board of an accepted sheet.
fn build_joints(
    sheet: &[u8],
    height: u32,
    joints: usize,
    work: &mut [u32],
    bitmap: &mut [u8],
) -> Result<Built, Refusal>
    requires { ((rs : List Record) × (sheet_of sheet.now ≡ Accepted rs) × (height_in 0 rs ≡ height) × (length (cells_in rs) ≡ joints)) × (joints ≤ length work.old) }
    ensures { (rs : List Record) → sheet_of sheet.now ≡ Accepted rs → Kept (codes_built_of height (map (code_of height) (cells_in rs)) (length bitmap.old)) (bitmap_of height (cells_in rs)) (length work.old) (length bitmap.old) result work.new bitmap.new }
{
    codes::fill(sheet, height, joints, work);
    build::build_codes(height, joints, work, bitmap)
}

// Reads a sheet and builds its board. The bitmap's room behind the board, and the work list, are left with zeros.
#[tactic(auto, using(crate::proofs::Reading::promise_room, crate::proofs::Reading::requests_within))]
pub fn read(sheet: &[u8], work: &mut [u32], bitmap: &mut [u8]) -> Result<Sheeted, RefusedAt>
    ensures { Promise sheet.now work.old bitmap.old result work.new bitmap.new }
{
    clear(work);
    clear(bitmap);
    let Scanned { height, joints } = scan::scan(sheet)?;
    if work.len() < joints {
        return Err(RefusedAt::whole(Refusal::WorkRoom));
    }
    let requests = FIRST_JOINT + JOINT_RECORD * joints;
    let built = build_joints(sheet, height, joints, work, bitmap).map_err(RefusedAt::whole)?;
    Ok(Sheeted {
        height,
        joints: built.joints,
        boxes: built.boxes,
        length: built.length,
        requests,
    })
}
