// The lines of the record at a place of a sheet, one record after the other.
ghost use Rattle.std.specs.Prelude.{◌≡◌, ◌<◌, ◌≤◌, length};
ghost use Rattle.board.specs.Limits.{max_height, max_joints};
ghost use Rattle.text.specs.Text.{text_of};
ghost use Rattle.text.specs.Page.{Puts};
ghost use Rattle.lines.specs.Limits.{room, max_trail};
ghost use Rattle.lines.specs.Report.{Roomy};
ghost use Rattle.lines.specs.Lists.{Kept, Cleared};
ghost use Rattle.lines.specs.Requests.{desk_with, request_lines, PageChunked, Chunked};
ghost use Rattle.lines.specs.Whole.{Laid, report_desk};

use crate::lists::Lists;
use crate::question::ask_lines;
use crate::record::window_lines;
use board::Board;
use keys::distance::Place;
use records::kind::Stage;
use records::record::{Record, record_at};
use text::Page;

// How many bytes of lines there are, and the offset of the next record.
#[derive(Clone, Copy)]
pub struct Chunk {
    pub length: usize,
    pub next: usize,
}

// The lines of a record.
fn request_lines(board: Board, request: Record, lists: &mut Lists, page: &mut Page)
    requires { Roomy page.old }
    ensures { Puts (text_of (request_lines (desk_with board.entry.directory.now lists.old) board.entry.height board.entry.bytes.now request)) page.old page.new × Kept lists.old lists.new }
{
    match request {
        Record::Board { .. } | Record::Joint { .. } => {}
        Record::Question { k, row, column } => {
            ask_lines(board, Place { row, column }, k, lists, page);
        }
        Record::Window {
            lowest_row,
            highest_row,
            lowest_column,
            highest_column,
        } => window_lines(
            board,
            lowest_row,
            highest_row,
            lowest_column,
            highest_column,
            lists,
            page,
        ),
        Record::End => page.put_end(),
    }
}

// The lines of the record at a place of a sheet; the place of the next.
fn chunk_at(board: Board, sheet: &[u8], at: usize, lists: &mut Lists, page: &mut Page) -> usize
    requires { (at < length sheet.now) × (board.height ≤ max_height) × Roomy page.old }
    ensures { PageChunked (desk_with board.entry.directory.now lists.old) board.entry.height board.entry.bytes.now sheet.now at page.old page.new result × Kept lists.old lists.new }
{
    match record_at(sheet, at, Stage::Requests, board.height) {
        Ok(found) => {
            request_lines(board, found.record, lists, page);
            found.next
        }
        Err(_) => sheet.len(),
    }
}

// The lines of the record at a place of a sheet, for the board of the sheet on the program's desk. The lists lent for the asking are left with zeros.
pub fn next_lines(board: Board, sheet: &[u8], at: usize, lists: &mut Lists, out: &mut [u8]) -> Chunk
    requires { Laid sheet.now board lists.old × (at < length sheet.now) × (room ≤ length out.old) }
    ensures { Chunked (report_desk board.entry.bytes.now) board.entry.height board.entry.bytes.now sheet.now at out.old result out.new × Cleared lists.old lists.new }
{
    let mut page = Page { out, at: 0 };
    let next = chunk_at(board, sheet, at, lists, &mut page);
    lists.clear();
    Chunk {
        length: page.at,
        next,
    }
}
