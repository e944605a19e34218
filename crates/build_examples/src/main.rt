// Boards built from lists of cells: one line for each call, with the call, what it answers, what the check, the window of the whole board and
// membership say of the bitmap, and what is left where zeros must be.
#![tactic(auto)]

ghost use Rattle.std.specs.Prelude.{◌≤◌, ◌<◌};

use board::check::check;
use board::directory::make_directory;
use board::{Board, Counts};
use build::{Built, build};
use refusal::Refusal;
use say::{Answer, Hex, Out, nonzero};
use std::{fmt, io};
use window::window;

mod lists;

// What the check counts.
#[derive(Clone, Copy)]
struct Counted(Counts);

impl fmt::Display for Counted {
    fn fmt<W: fmt::Write>(&self, f: &mut fmt::Formatter<W>) -> fmt::Result {
        let Counts { joints, boxes } = self.0;
        write!(f, "{joints} {boxes}")
    }
}

// A sum that every number and its place change.
fn sum<T: Copy + Into<u32>>(list: &[T]) -> u32 {
    let mut total: u32 = 0;
    for n in list {
        let n: u32 = (*n).into();
        total = (total * 31 + n % 65521 + 1) % 65521;
    }
    total
}

// Whether a cell is stored; one off the board is refused.
fn mark(answer: Result<bool, Refusal>) -> char {
    match answer {
        Ok(true) => '1',
        Ok(false) => '0',
        Err(_) => '-',
    }
}

// The cells of the whole board in bitmap order with zeros behind them, and whether cells of the diagonal and of column 1 are stored.
fn show_read(rt: &impl Print, board: Board) -> io::Result<()>
    requires { board.height < 32 }
{
    let mut rows = [7; 4096];
    let mut columns = [7; 4096];
    let last = (1 << board.height) - 1;
    let answer = Answer(window(board, 0, last, 0, last, &mut rows, &mut columns));
    print!(rt;
        ", window {answer} {} {}, members ",
        sum(&rows),
        sum(&columns)
    )?;
    for i in 0..6 {
        print!(rt; "{}{}", mark(board.member(i, i)), mark(board.member(i, 1)))?;
    }
    Ok(())
}

// What is read back by the directory: one number for each started block of 64 bytes.
fn show_asked(rt: &impl Print, height: u32, bytes: &[u8]) -> io::Result<()>
    requires { height < 32 }
{
    let mut space = [7; 140];
    let Some(directory) = space.get_mut(..bytes.len().div_ceil(64)) else {
        return Ok(());
    };
    let _ = make_directory(height, bytes, directory);
    let board = Board {
        height,
        bytes,
        directory,
    };
    show_read(rt, board)
}

// The bytes in full where they are few, what is read of them, and what is left behind them.
fn show_bitmap(rt: &impl Print, height: u32, bitmap: &[u8], length: usize) -> io::Result<()> {
    let Some((bytes, behind)) = bitmap.split_at_checked(length) else {
        return Ok(());
    };
    print!(rt; " sum {}", sum(bytes))?;
    if length < 9 {
        print!(rt; " ={}", Hex(bytes))?;
    }
    print!(rt; ", check {}", Answer(check(height, bytes).map(Counted)))?;
    if height < 11 {
        show_asked(rt, height, bytes)?;
    }
    print!(rt; ", behind {}", nonzero(behind))
}

fn show_built(
    rt: &impl Print,
    height: u32,
    bitmap: &[u8],
    answer: Result<Built, Refusal>,
) -> io::Result<()> {
    match answer {
        Ok(board) => {
            print!(rt;
                "{} joints {} boxes {} bytes",
                board.joints, board.boxes, board.length
            )?;
            show_bitmap(rt, height, bitmap, board.length as usize)
        }
        Err(refusal) => { print!(rt; "refused {}, left {}", refusal.number(), nonzero(bitmap)) }
    }
}

// What it takes travels together nowhere else.
fn show(
    rt: &impl Print,
    height: u32,
    rows: &[u32],
    columns: &[u32],
    work: &mut [u32],
    bitmap: &mut [u8],
) -> io::Result<()> {
    print!(rt;
        "build {height} from {} in {} {}: ",
        rows.len(),
        work.len(),
        bitmap.len()
    )?;
    let answer = build(height, rows, columns, work, bitmap);
    show_built(rt, height, bitmap, answer)?;
    println!(rt; ", work {}", nonzero(work))
}

// Room for what is small. What is lent for writing begins with other numbers than zero, here and below.
fn show_small(rt: &impl Print, height: u32, rows: &[u32], columns: &[u32]) -> io::Result<()> {
    show(rt, height, rows, columns, &mut [7; 9], &mut [7; 12])
}

// Board A in several orders.
fn show_orders(rt: &impl Print) -> io::Result<()> {
    show_small(rt, 2, &[0, 1, 2, 3], &[1, 0, 3, 3])?;
    show_small(rt, 2, &[3, 2, 1, 0], &[3, 3, 0, 1])?;
    show_small(rt, 2, &[2, 0, 3, 1], &[3, 1, 3, 0])
}

// The same with doubles, four joints, one, and two far apart.
fn show_sets(rt: &impl Print) -> io::Result<()> {
    show_small(rt, 2, &[2, 0, 3, 1, 2, 2, 0], &[3, 1, 3, 0, 3, 3, 1])?;
    show_small(rt, 1, &[0, 0, 1, 1], &[0, 1, 0, 1])?;
    show_small(rt, 1, &[1, 1, 1], &[0, 0, 0])?;
    show_small(rt, 10, &[1023, 0], &[1023, 0])
}

// No cells at all.
fn show_nothing(rt: &impl Print) -> io::Result<()> {
    for height in 1..11 {
        show(rt, height, &[], &[], &mut [], &mut [7; 2])?;
    }
    Ok(())
}

// The height comes before the lists' lengths, and those before the cells.
fn show_lengths(rt: &impl Print) -> io::Result<()> {
    show_small(rt, 0, &[0], &[])?;
    show_small(rt, 11, &[], &[])?;
    show_small(rt, 2, &[9], &[])?;
    show_small(rt, 2, &[0, 1], &[0])
}

// The cells come before the room; doubles count for the work room.
fn show_cells(rt: &impl Print) -> io::Result<()> {
    show_small(rt, 2, &[0, 4], &[0, 0])?;
    show_small(rt, 2, &[0, 0], &[0, 4])?;
    show(rt, 2, &[0, 0], &[4, 0], &mut [7; 1], &mut [])?;
    show(rt, 2, &[1, 1], &[1, 1], &mut [7; 1], &mut [7; 2])
}

// The edges of the room.
fn show_rooms(rt: &impl Print) -> io::Result<()> {
    show(rt, 2, &[1, 1], &[1, 1], &mut [7; 2], &mut [7; 2])?;
    show_a(rt, &mut [7; 1])?;
    show_a(rt, &mut [7; 2])?;
    show_a(rt, &mut [7; 3])?;
    show(rt, 1, &[], &[], &mut [], &mut [])
}

fn show_a(rt: &impl Print, bitmap: &mut [u8]) -> io::Result<()> {
    show(rt, 2, &[0, 1, 2, 3], &[1, 0, 3, 3], &mut [7; 4], bitmap)
}

// All the cells of a board of a width.
fn show_full<const CELLS: usize>(rt: &impl Print, height: u32, width: u32) -> io::Result<()>
    requires { (1 ≤ width) × (CELLS < 65536) }
{
    let mut rows = [0; CELLS];
    let mut columns = [0; CELLS];
    lists::grid(&mut rows, &mut columns, 65536, width, 0);
    show(rt, height, &rows, &columns, &mut [7; 1024], &mut [7; 200])
}

// Full boards.
fn show_fulls(rt: &impl Print) -> io::Result<()> {
    show_full::<4>(rt, 1, 2)?;
    show_full::<16>(rt, 2, 4)?;
    show_full::<64>(rt, 3, 8)?;
    show_full::<256>(rt, 4, 16)?;
    show_full::<1024>(rt, 5, 32)
}

// So many cells, 2^step apart and again from the first after a period, with so much room.
fn show_sixteenths<const CELLS: usize, const WORK: usize, const BITMAP: usize>(
    rt: &impl Print,
    period: usize,
    step: u32,
) -> io::Result<()>
    requires lines { (1 ≤ period) × (period ≤ 65536) × (step < 32) }
    requires small { (CELLS < 65536) × (WORK < 65536) × (BITMAP < 65536) }
{
    let mut rows = [0; CELLS];
    let mut columns = [0; CELLS];
    lists::grid(&mut rows, &mut columns, period, 64, step);
    show(rt, 10, &rows, &columns, &mut [7; WORK], &mut [7; BITMAP])
}

// The limits: 4,096 joints far apart need 8,875 bytes.
fn show_limits(rt: &impl Print) -> io::Result<()> {
    show_sixteenths::<4096, 4096, 8875>(rt, 4096, 4)?;
    show_sixteenths::<4096, 4096, 8874>(rt, 4096, 4)?;
    show_sixteenths::<4096, 4095, 8875>(rt, 4096, 4)
}

// Given twice they are no more; one more is too many, which comes after the work room.
fn show_more(rt: &impl Print) -> io::Result<()> {
    show_sixteenths::<8192, 8192, 9000>(rt, 4096, 4)?;
    show_sixteenths::<4097, 4097, 9000>(rt, 4097, 3)?;
    show_sixteenths::<4097, 4096, 9000>(rt, 4097, 3)
}

// So many cells at random.
fn show_scattered<const CELLS: usize>(rt: &impl Print, height: u32, seed: u32) -> io::Result<()>
    requires { (height ≤ 31) × (seed < 1000) × (CELLS < 65536) }
{
    let mut rows = [0; CELLS];
    let mut columns = [0; CELLS];
    lists::scatter(&mut rows, height, seed);
    lists::scatter(&mut columns, height, seed + 5000);
    show(rt, height, &rows, &columns, &mut [7; 1500], &mut [7; 5000])
}

// Cells at random, some of them more than once.
fn show_random(rt: &impl Print) -> io::Result<()> {
    for height in 1..11 {
        show_scattered::<3>(rt, height, height)?;
        show_scattered::<40>(rt, height, height + 20)?;
        show_scattered::<1500>(rt, height, height + 40)?;
    }
    Ok(())
}

fn examples(rt: &impl Print) -> io::Result<()> {
    show_orders(rt)?;
    show_sets(rt)?;
    show_nothing(rt)?;
    show_lengths(rt)?;
    show_cells(rt)?;
    show_rooms(rt)?;
    show_fulls(rt)?;
    show_limits(rt)?;
    show_more(rt)?;
    show_random(rt)
}

// What cannot be printed is left out.
fn main() {
    let _ = examples(&Out);
}
