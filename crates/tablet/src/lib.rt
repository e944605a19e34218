// What the bench tablet calls, with numbers and byte strings only. Each call returns the number of refusal, 0 where it is served; the values go
// into numbers that the caller lends, one by one as C has them, and are zero after a refusal.
// The two that read a measure are alike but for the type, of which C has no parameter.
#![tactic(auto)]

ghost use Rattle.std.specs.Prelude.{◌≡◌, [], ◌∷◌, pos, length};
ghost use Rattle.refusal.specs.Answer.{left_in, number_in, value_in};
ghost use Rattle.measure.specs.Measure.{read_of, read_marked_of};
ghost use Rattle.board.specs.Check.{check_of};
ghost use Rattle.sheet.specs.Sheet.{max_records, sheet_of};
ghost use Rattle.sheet.specs.Promise.{answer_in, bitmap_in, read_of as sheetReadOf};
ghost use Rattle.tablet.specs.Sheets.{number_at, values_at};

use sheet::MAX_RECORDS;

// The number of a served call.
const SERVED: u32 = 0;

// A measure of five bytes, as 012,5, in half millimetres.
pub fn joint_board_read_measure(text: &[u8], value: &mut u32) -> u32
    ensures { (result ≡ number_in (read_of text.now)) × (value.new ≡ value_in 0 (read_of text.now)) }
{
    match measure::read(text) {
        Ok(n) => {
            *value = n;
            SERVED
        }
        Err(refusal) => {
            *value = 0;
            refusal.number()
        }
    }
}

// A marked measure of six bytes, as -000,5, in half millimetres.
pub fn joint_board_read_marked(text: &[u8], signed: &mut i32) -> u32
    ensures { (result ≡ number_in (read_marked_of text.now)) × (signed.new ≡ value_in (pos 0) (read_marked_of text.now)) }
{
    match measure::read_marked(text) {
        Ok(z) => {
            *signed = z;
            SERVED
        }
        Err(refusal) => {
            *signed = 0;
            refusal.number()
        }
    }
}

// The check of a bitmap: its joints and its boxes.
pub fn joint_board_check(height: u32, bytes: &[u8], joints: &mut u32, boxes: &mut u32) -> u32
    ensures { (result ≡ number_in (check_of height bytes.now)) × (joints.new ∷ boxes.new ∷ [] ≡ value_in (0 ∷ 0 ∷ []) (check_of height bytes.now)) }
{
    match board::check::check(height, bytes) {
        Ok(counts) => {
            *joints = counts.joints;
            *boxes = counts.boxes;
            SERVED
        }
        Err(refusal) => {
            *joints = 0;
            *boxes = 0;
            refusal.number()
        }
    }
}

// Builds the board of a joint sheet into the bitmap's room, with work room for the joints of the longest sheet. The offset is that of the first record after the joints, or after a refusal where
// the sheet is wrong.
pub fn joint_board_build(
    sheet: &[u8],
    bitmap: &mut [u8],
    height: &mut u32,
    joints: &mut u32,
    boxes: &mut u32,
    size: &mut u32,
    offset: &mut usize,
) -> u32
    ensures { (result ≡ number_at (sheetReadOf sheet.now max_records (length bitmap.old))) × (height.new ∷ joints.new ∷ boxes.new ∷ size.new ∷ offset.new ∷ [] ≡ values_at (sheetReadOf sheet.now max_records (length bitmap.old))) × (bitmap.new ≡ left_in (answer_in (sheetReadOf sheet.now max_records (length bitmap.old))) (bitmap_in (sheet_of sheet.now)) (length bitmap.old)) }
{
    let mut work = [0u32; MAX_RECORDS];
    match sheet::read(sheet, &mut work, bitmap) {
        Ok(read) => {
            *height = read.height;
            *joints = read.joints;
            *boxes = read.boxes;
            *size = read.length;
            *offset = read.requests;
            SERVED
        }
        Err(at) => {
            *height = 0;
            *joints = 0;
            *boxes = 0;
            *size = 0;
            *offset = at.offset;
            at.refusal.number()
        }
    }
}
