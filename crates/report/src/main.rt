// The report of the joint sheet on standard input, on standard output.
#![tactic(auto)]

ghost use Rattle.std.specs.Prelude.{◌≡◌, ◌≤◌, length};
ghost use Rattle.lines.specs.Limits.{room};
ghost use Rattle.lines.specs.Whole.{BoardIn, Laid, RoomyLists, first_request, max_blocks};
ghost use Rattle.sheet.specs.Sheet.{max_records, max_bytes};

use board::Board;
use lines::request::next_lines;
use lines::start::first_line;
use lines::{Lists, ROOM};
use sheet::{MAX_RECORDS, MAX_SHEET};

// One byte more than the longest sheet has, so that a longer one is told from it.
const INPUT: usize = MAX_SHEET + 1;

// The bytes of the largest bitmap, and its blocks of 64 bytes.
const BITMAP: usize = 8875;

const BLOCKS: usize = 139;

// The most joints of a board.
const JOINTS: usize = 4096;

// The most boxes of a trail that is printed.
const TRAIL: usize = 4096;

// Prints the lines of the records from the first after the joints on, each record's in one write, with the board on the program's desk. What cannot
// be written is left out, and the report goes on.
fn print_from(board: Board, sheet: &[u8], requests: usize, lists: &mut Lists, out: &mut [u8])
    requires { Laid sheet.now board lists.old × (requests ≡ first_request sheet.now) × (room ≤ length out.old) }
{
    let mut at = requests;
    while at < sheet.len() {
        let chunk = next_lines(board, sheet, at, lists, out);
        io::write_all(1, &out[..chunk.length]);
        at = chunk.next;
    }
}

// Prints the lines of the questions and windows of a sheet, and the end, with the directory of its board.
fn print_requests(
    height: u32,
    bytes: &[u8],
    blocks: &mut [u16],
    sheet: &[u8],
    requests: usize,
    lists: &mut Lists,
    out: &mut [u8],
)
    requires { BoardIn sheet.now height bytes.now × (requests ≡ first_request sheet.now) × (max_blocks ≤ length blocks.old) × RoomyLists lists.old × (room ≤ length out.old) }
{
    let count = bitmap::blocks_of(bytes.len());
    // A board that a sheet gives is served, so this is not refused.
    let _ = board::directory::make_directory(height, bytes, &mut blocks[..count]);
    let board = Board {
        height,
        bytes,
        directory: &blocks[..count],
    };
    print_from(board, sheet, requests, lists, out);
}

// Prints the report of a sheet. What these three functions take is of different kinds, each lent for something else.
fn print_report(
    sheet: &[u8],
    work: &mut [u32],
    bitmap: &mut [u8],
    blocks: &mut [u16],
    lists: &mut Lists,
    out: &mut [u8],
)
    requires { (length work.old ≡ max_records) × (length bitmap.old ≡ max_bytes) × (max_blocks ≤ length blocks.old) × RoomyLists lists.old × (room ≤ length out.old) }
{
    let begun = first_line(sheet, work, bitmap, out);
    io::write_all(1, &out[..begun.end]);
    if let Some(size) = begun.board {
        let bytes = &bitmap[..size.length as usize];
        print_requests(size.height, bytes, blocks, sheet, size.requests, lists, out);
    }
}

// There is room for the longest sheet and its joints, for the largest bitmap and its directory, and for every answer but the longest trails.
fn main() {
    let mut input = [0u8; INPUT];
    let n = io::read_full(0, &mut input);
    let mut work = [0u32; MAX_RECORDS];
    let mut bitmap = [0u8; BITMAP];
    let mut blocks = [0u16; BLOCKS];
    let mut rows = [0u32; JOINTS];
    let mut columns = [0u32; JOINTS];
    let mut keys = [0u64; JOINTS];
    let mut corners = [0u32; JOINTS];
    let mut trail = [0u32; TRAIL];
    let mut lists = Lists {
        rows: &mut rows,
        columns: &mut columns,
        keys: &mut keys,
        corners: &mut corners,
        trail: &mut trail,
    };
    let mut out = [0u8; ROOM];
    print_report(
        &input[..n],
        &mut work,
        &mut bitmap,
        &mut blocks,
        &mut lists,
        &mut out,
    );
}
