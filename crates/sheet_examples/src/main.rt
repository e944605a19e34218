// Sheets from a stream of cases on standard input, each with the rooms lent for it, and what reading them answers: one line for
// each case, in the form of the second program (tests/second), so that the two can be compared.
#![tactic(auto)]

use say::{In, Out, nonzero, read_number};
use std::io::Read;
use std::{fmt, io};

// The most cases that are taken, and the room for a sheet, for codes and for bytes of a bitmap.
const CASES: u32 = 4000;

const SHEET_ROOM: usize = 80000;

const WORK_ROOM: usize = 6000;

const BITMAP_ROOM: usize = 9000;

// The bytes of a bitmap in hexadecimal.
#[derive(Clone, Copy)]
struct Packed<'a>(&'a [u8]);

impl fmt::Display for Packed<'_> {
    fn fmt<W: fmt::Write>(&self, f: &mut fmt::Formatter<W>) -> fmt::Result {
        for byte in self.0 {
            write!(f, "{byte:02x}")?;
        }
        Ok(())
    }
}

// What stands before a sheet: the work room, the bitmap's room and the sheet's length.
#[derive(Clone, Copy)]
struct Head {
    work: usize,
    bitmap: usize,
    length: usize,
}

fn read_head(input: &mut impl Read) -> io::Result<Head> {
    Ok(Head {
        work: read_number(input)? as usize,
        bitmap: read_number(input)? as usize,
        length: read_number(input)? as usize,
    })
}

// One sheet, with what is lent for it: other numbers than zero at first, and zeros behind what is left.
fn show_case(
    rt: &impl Print,
    records: &[u8],
    work: &mut [u32],
    bitmap: &mut [u8],
) -> io::Result<()> {
    work.fill(7);
    bitmap.fill(7);
    let length = match sheet::read(records, work, bitmap) {
        Ok(board) => {
            print!(rt;
                "0 0 {} {} {} {} {} ",
                board.height, board.joints, board.boxes, board.length, board.requests
            )?;
            board.length as usize
        }
        Err(refused) => {
            print!(rt;
                "{} {} 0 0 0 0 0 -",
                refused.refusal.number(),
                refused.offset
            )?;
            0
        }
    };
    let (bytes, behind) = bitmap.split_at(length.min(bitmap.len()));
    print!(rt; "{}", Packed(bytes))?;
    if nonzero(behind) > 0 {
        print!(rt; " bitmap left dirty")?;
    }
    if nonzero(work) > 0 {
        print!(rt; " work list left dirty")?;
    }
    println!(rt; "")
}

// A case that is cut off ends the stream.
fn show_cases(rt: &impl Print, input: &mut impl Read) -> io::Result<()> {
    let mut space = [0; SHEET_ROOM];
    let mut work = [0; WORK_ROOM];
    let mut bitmap = [0; BITMAP_ROOM];
    for _ in 0..CASES {
        let Ok(head) = read_head(input) else {
            break;
        };
        let sheet = &mut space[..head.length.min(SHEET_ROOM)];
        if input.read_exact(sheet).is_err() {
            break;
        }
        let work = &mut work[..head.work.min(WORK_ROOM)];
        let bitmap = &mut bitmap[..head.bitmap.min(BITMAP_ROOM)];
        show_case(rt, sheet, work, bitmap)?;
    }
    Ok(())
}

// What cannot be printed is left out.
fn main() {
    let _ = show_cases(&Out, &mut In);
}
