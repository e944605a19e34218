// The first line of a report: the board of the sheet, or why and where the sheet is refused.
ghost use Rattle.std.specs.Prelude.{◌≡◌, ◌≤◌, length};
ghost use Rattle.lines.specs.Limits.{room};
ghost use Rattle.lines.specs.Start.{Started};
ghost use Rattle.sheet.specs.Sheet.{max_records, max_bytes};

use text::Page;

// Of a board the height, the bitmap's length, and the offset of the first record after the joints.
#[derive(Clone, Copy)]
pub struct BoardSize {
    pub height: u32,
    pub length: u32,
    pub requests: usize,
}

// How many bytes the first line has; and the board, where the sheet is not refused.
#[derive(Clone, Copy)]
pub struct Begun {
    pub board: Option<BoardSize>,
    pub end: usize,
}

// Reads a sheet with the program's room, leaves its bitmap, and puts the first line.
pub fn first_line(sheet: &[u8], work: &mut [u32], bitmap: &mut [u8], out: &mut [u8]) -> Begun
    requires { (length work.old ≡ max_records) × (length bitmap.old ≡ max_bytes) × (room ≤ length out.old) }
    ensures { Started sheet.now work.old bitmap.old out.old result work.new bitmap.new out.new }
{
    let mut page = Page { out, at: 0 };
    let board = match sheet::read(sheet, work, bitmap) {
        Ok(read) => {
            page.put_board(read.height, read.joints, read.boxes);
            Some(BoardSize {
                height: read.height,
                length: read.length,
                requests: read.requests,
            })
        }
        Err(at) => {
            page.put_refused(at.refusal.number(), at.offset as u32);
            None
        }
    };
    Begun {
        board,
        end: page.at,
    }
}
