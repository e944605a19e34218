// What the bench tablet's host calls from C: the calls of `tablet` under their names in C, each with its promise.
// What is lent is lent one by one, as C has it.
#![tactic(auto)]

ghost use Rattle.std.specs.Prelude.{◌≡◌, [], ◌∷◌, pos, length};
ghost use Rattle.refusal.specs.Answer.{left_in, number_in, value_in};
ghost use Rattle.measure.specs.Measure.{read_of, read_marked_of};
ghost use Rattle.board.specs.Check.{check_of};
ghost use Rattle.sheet.specs.Sheet.{max_records, sheet_of};
ghost use Rattle.sheet.specs.Promise.{answer_in, bitmap_in, read_of as sheetReadOf};
ghost use Rattle.tablet.specs.Sheets.{number_at, values_at};

// A measure of five bytes, as 012,5, in half millimetres.
#[unsafe(no_mangle)]
pub extern "C" fn joint_board_read_measure(text: &[u8], value: &mut u32) -> u32
    ensures { (result ≡ number_in (read_of text.now)) × (value.new ≡ value_in 0 (read_of text.now)) }
{
    tablet::joint_board_read_measure(text, value)
}

// A marked measure of six bytes, as -000,5, in half millimetres.
#[unsafe(no_mangle)]
pub extern "C" fn joint_board_read_marked(text: &[u8], signed: &mut i32) -> u32
    ensures { (result ≡ number_in (read_marked_of text.now)) × (signed.new ≡ value_in (pos 0) (read_marked_of text.now)) }
{
    tablet::joint_board_read_marked(text, signed)
}

// The check of a bitmap: its joints and its boxes.
#[unsafe(no_mangle)]
pub extern "C" fn joint_board_check(
    height: u32,
    bytes: &[u8],
    joints: &mut u32,
    boxes: &mut u32,
) -> u32
    ensures { (result ≡ number_in (check_of height bytes.now)) × (joints.new ∷ boxes.new ∷ [] ≡ value_in (0 ∷ 0 ∷ []) (check_of height bytes.now)) }
{
    tablet::joint_board_check(height, bytes, joints, boxes)
}

// Builds the board of a joint sheet into the bitmap's room, with work room for the joints of the longest sheet. The offset is that of the first record after the joints, or after a refusal where
// the sheet is wrong.
#[unsafe(no_mangle)]
pub extern "C" fn joint_board_build(
    sheet: &[u8],
    bitmap: &mut [u8],
    height: &mut u32,
    joints: &mut u32,
    boxes: &mut u32,
    size: &mut u32,
    offset: &mut usize,
) -> u32
    ensures { (result ≡ number_at (sheetReadOf sheet.now max_records (length bitmap.old))) × (height.new ∷ joints.new ∷ boxes.new ∷ size.new ∷ offset.new ∷ [] ≡ values_at (sheetReadOf sheet.now max_records (length bitmap.old))) × (bitmap.new ≡ left_in (answer_in (sheetReadOf sheet.now max_records (length bitmap.old))) (bitmap_in (sheet_of sheet.now)) (length bitmap.old)) }
{
    tablet::joint_board_build(sheet, bitmap, height, joints, boxes, size, offset)
}
