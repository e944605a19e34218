// Windows on small boards: one line for each, the ends, what is answered, and what is left in the two lists.
#![tactic(auto)]

use board::Board;
use say::{Answer, Out, Spaced};
use std::io;
use window::window;

// Board A: joints (0,1), (1,0), (2,3), (3,3).
const A: Board = Board {
    height: 2,
    bytes: b"\x96\x50",
    directory: &[0],
};

// Board A with an entry of its directory wrong.
const WRONG: Board = Board {
    height: 2,
    bytes: b"\x96\x50",
    directory: &[1],
};

// Board A with a bit more than its groups have.
const LONG: Board = Board {
    height: 2,
    bytes: b"\x96\x51",
    directory: &[0],
};

// A full board of height 2.
const FULL: Board = Board {
    height: 2,
    bytes: b"\xFF\xFF\xF0",
    directory: &[0],
};

// `window`, the lowest and highest row and column, the answer, then both lists.
fn show(
    rt: &impl Print,
    board: Board,
    ends: [u32; 4],
    rows: &mut [u32],
    columns: &mut [u32],
) -> io::Result<()> {
    let [top, bottom, left, right] = ends;
    let answer = Answer(window(board, top, bottom, left, right, rows, columns));
    println!(rt;
        "window{}: {answer}, rows{}, columns{}",
        Spaced(&ends),
        Spaced(rows),
        Spaced(columns)
    )
}

// The lists hold something else before each call.
fn show_a(rt: &impl Print, ends: [u32; 4]) -> io::Result<()> {
    show(rt, A, ends, &mut [7; 5], &mut [8; 4])
}

// The whole board, sheet R's window, one cell, a window without a joint, one row.
fn served(rt: &impl Print) -> io::Result<()> {
    show_a(rt, [0, 3, 0, 3])?;
    show_a(rt, [1, 3, 0, 3])?;
    show_a(rt, [0, 0, 1, 1])?;
    show_a(rt, [0, 1, 2, 3])?;
    show_a(rt, [3, 3, 0, 3])
}

// Ends off the board, and each lowest above its highest.
fn off_the_board(rt: &impl Print) -> io::Result<()> {
    show_a(rt, [0, 4, 0, 3])?;
    show_a(rt, [0, 3, 0, 4])?;
    show_a(rt, [1, 0, 0, 3])?;
    show_a(rt, [0, 3, 2, 1])?;
    show_a(rt, [0, u32::MAX, 0, 3])
}

// All four cells of board A in lists of other lengths, and a directory that is wrong.
fn rooms(rt: &impl Print) -> io::Result<()> {
    let mut three = [7; 3];
    let mut four = [8; 4];
    show(rt, A, [0, 3, 0, 3], &mut three, &mut four)?;
    show(rt, A, [0, 3, 0, 3], &mut four, &mut three)?;
    show(rt, A, [0, 1, 0, 1], &mut four, &mut three)?;
    show(rt, WRONG, [9, 0, 9, 0], &mut four, &mut three)?;
    show(rt, LONG, [9, 0, 9, 0], &mut four, &mut three)?;
    show(rt, A, [0, 1, 2, 3], &mut [], &mut [])
}

// Bitmap order is quarter by quarter, and not row by row.
fn full(rt: &impl Print) -> io::Result<()> {
    let mut rows = [7; 16];
    let mut columns = [8; 16];
    show(rt, FULL, [0, 3, 0, 3], &mut rows, &mut columns)?;
    show(rt, FULL, [1, 2, 1, 2], &mut rows, &mut columns)
}

fn examples(rt: &impl Print) -> io::Result<()> {
    served(rt)?;
    off_the_board(rt)?;
    rooms(rt)?;
    full(rt)
}

// What cannot be printed is left out.
fn main() {
    let _ = examples(&Out);
}
