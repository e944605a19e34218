// What the benchmark calls beside the tablet's entries: sorting, building from cells, the directory, and a report line by line, each passed on to the
// library. Where an entry has a `requires`, its caller, bench/, keeps it. Lists and numbers are lent one by one, as C has them.
#![tactic(auto)]

ghost use Rattle.std.specs.Prelude.{◌≡◌, [], ◌∷◌, ◌<◌, ◌≤◌, length, replicate};
ghost use Rattle.refusal.specs.Answer.{left_in, number_in, value_in};
ghost use Rattle.order.specs.Order.{sort as inOrder};
ghost use Rattle.bitmap.specs.Directory.{directory_of};
ghost use Rattle.board.specs.Ready.{made_of};
ghost use Rattle.build.specs.Build.{bitmap_of};
ghost use Rattle.build.specs.Answers.{built_of, cells_of};
ghost use Rattle.sheet.specs.Sheet.{max_records, max_bytes};
ghost use Rattle.lines.specs.Limits.{room};
ghost use Rattle.lines.specs.Requests.{Chunked};
ghost use Rattle.lines.specs.Whole.{OnDesk, report_desk};
ghost use Rattle.bench_entries.specs.Entries.{Begun as FirstPut};

use board::Board;
use lines::Lists;

// A list in rising order, in place.
pub fn bench_sort(list: &mut [u32])
    ensures { list.new ≡ inOrder list.old }
{
    order::sort(list);
}

// Builds the bitmap of cells; the number of refusal, and 0 where it is served.
pub fn bench_build(
    height: u32,
    rows: &[u32],
    columns: &[u32],
    work: &mut [u32],
    bitmap: &mut [u8],
    joints: &mut u32,
    boxes: &mut u32,
    size: &mut u32,
) -> u32
    ensures { (result ≡ number_in (built_of height rows.now columns.now (length work.old) (length bitmap.old))) × (joints.new ∷ boxes.new ∷ size.new ∷ [] ≡ value_in (0 ∷ 0 ∷ 0 ∷ []) (built_of height rows.now columns.now (length work.old) (length bitmap.old))) × (work.new ≡ replicate (length work.old) 0) × (bitmap.new ≡ left_in (built_of height rows.now columns.now (length work.old) (length bitmap.old)) (bitmap_of height (cells_of rows.now columns.now)) (length bitmap.old)) }
{
    match build::build(height, rows, columns, work, bitmap) {
        Ok(built) => {
            *joints = built.joints;
            *boxes = built.boxes;
            *size = built.length;
            0
        }
        Err(refusal) => {
            *joints = 0;
            *boxes = 0;
            *size = 0;
            refusal.number()
        }
    }
}

// Writes the directory of a board; the number of refusal, and 0 where it is served.
pub fn bench_make_directory(height: u32, bytes: &[u8], directory: &mut [u16]) -> u32
    ensures { (result ≡ number_in (made_of height bytes.now (length directory.old))) × (directory.new ≡ left_in (made_of height bytes.now (length directory.old)) (directory_of bytes.now) (length directory.old)) }
{
    match board::directory::make_directory(height, bytes, directory) {
        Ok(_) => 0,
        Err(refusal) => refusal.number(),
    }
}

// Reads a sheet, leaves its bitmap, and puts the first line of its report; how many bytes that line has.
pub fn bench_first_line(
    sheet: &[u8],
    work: &mut [u32],
    bitmap: &mut [u8],
    out: &mut [u8],
    height: &mut u32,
    size: &mut u32,
    requests: &mut usize,
) -> usize
    requires { (length work.old ≡ max_records) × (length bitmap.old ≡ max_bytes) × (room ≤ length out.old) }
    ensures { FirstPut sheet.now work.old bitmap.old out.old result (height.new ∷ size.new ∷ requests.new ∷ []) work.new bitmap.new out.new }
{
    let begun = lines::start::first_line(sheet, work, bitmap, out);
    match begun.board {
        Some(board) => {
            *height = board.height;
            *size = board.length;
            *requests = board.requests;
        }
        None => {
            *height = 0;
            *size = 0;
            *requests = 0;
        }
    }
    begun.end
}

// Puts the lines of the record at an offset of a sheet, and tells the offset of the next; how many bytes the lines have.
pub fn bench_next_lines(
    height: u32,
    bytes: &[u8],
    directory: &[u16],
    sheet: &[u8],
    at: usize,
    rows: &mut [u32],
    columns: &mut [u32],
    keys: &mut [u64],
    corners: &mut [u32],
    trail: &mut [u32],
    out: &mut [u8],
    next: &mut usize,
) -> usize
    requires { OnDesk sheet.now height bytes.now directory.now rows.old columns.old keys.old corners.old trail.old × (at < length sheet.now) × (room ≤ length out.old) }
    ensures { (Chunked (report_desk bytes.now) height bytes.now sheet.now at out.old (record { length = result; next = next.new }) out.new) × (rows.new ≡ replicate (length rows.old) 0) × (columns.new ≡ replicate (length columns.old) 0) × (keys.new ≡ replicate (length keys.old) 0) × (corners.new ≡ replicate (length corners.old) 0) × (trail.new ≡ replicate (length trail.old) 0) }
{
    let board = Board {
        height,
        bytes,
        directory,
    };
    let mut lists = Lists {
        rows,
        columns,
        keys,
        corners,
        trail,
    };
    let chunk = lines::request::next_lines(board, sheet, at, &mut lists, out);
    *next = chunk.next;
    chunk.length
}
