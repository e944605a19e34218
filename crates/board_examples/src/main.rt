// Document 01's examples for boards, and the edges of the check: one line for each, the call and then what it answers.
#![tactic(auto)]

use board::check::check;
use board::directory::make_directory;
use board::{Board, Counts};
use say::{Answer, Hex, Out, Spaced};
use std::{fmt, io};

// Board A.
const A: Board = Board {
    height: 2,
    bytes: b"\x96\x50",
    directory: &[0],
};

// What the check counts.
#[derive(Clone, Copy)]
struct Counted(Counts);

impl fmt::Display for Counted {
    fn fmt<W: fmt::Write>(&self, f: &mut fmt::Formatter<W>) -> fmt::Result {
        let Counts { joints, boxes } = self.0;
        write!(f, "{joints} joints {boxes} boxes")
    }
}

// `check`, the height, the bytes, and what the check says.
fn show_check(rt: &impl Print, height: u32, bytes: &[u8]) -> io::Result<()> {
    let answer = Answer(check(height, bytes).map(Counted));
    println!(rt; "check {height}{}: {answer}", Hex(bytes))
}

// `large`, a name, and what the check says of a board of height 10.
fn show_large(rt: &impl Print, name: &str, bytes: &[u8]) -> io::Result<()> {
    println!(rt; "large {name}: {}", Answer(check(10, bytes).map(Counted)))
}

// `directory`, the answer, and what is left in the list.
fn show_directory(rt: &impl Print, bytes: &[u8], list: &mut [u16]) -> io::Result<()> {
    let answer = Answer(make_directory(2, bytes, list).map(Counted));
    println!(rt; "directory{}: {answer},{}", Hex(bytes), Spaced(list))
}

// `member`, the cell, and whether it is stored.
fn show_member(rt: &impl Print, board: Board, row: u32, column: u32) -> io::Result<()> {
    let answer = board
        .member(row, column)
        .map(|stored| if stored { "stored" } else { "absent" });
    println!(rt; "member {row} {column}: {}", Answer(answer))
}

// The checks that document 01 lists, and where two readings of it would differ.
fn check_examples(rt: &impl Print) -> io::Result<()> {
    show_check(rt, 2, b"\x96\x50")?;
    show_check(rt, 1, b"\x00")?;
    show_check(rt, 1, b"\xF0")?;
    show_check(rt, 2, b"\x98\x00")?;
    show_check(rt, 2, b"\x96")?;
    show_check(rt, 2, b"\x96\x51")?;
    show_check(rt, 2, b"\x96\x50\x00")?;
    show_check(rt, 0, b"\x96\x50")?;
    show_check(rt, 11, b"\x96\x50")?;
    show_check(rt, 10, b"\x00")?;
    show_check(rt, 2, b"")?;
    show_check(rt, 2, b"\xF0")?;
    show_check(rt, 2, b"\x08")?;
    show_check(rt, 2, b"\xC1")
}

// A list too short and one too long are refused and left with zeros.
fn directory_examples(rt: &impl Print) -> io::Result<()> {
    show_directory(rt, b"\x96\x50", &mut [])?;
    show_directory(rt, b"\x96\x50", &mut [7])?;
    show_directory(rt, b"\x96\x50", &mut [7; 2])?;
    show_directory(rt, b"\x96\x51", &mut [7])
}

// Board A's cells, cells off it, and a wrong directory.
fn member_examples(rt: &impl Print) -> io::Result<()> {
    for row in 0..4 {
        for column in 0..4 {
            show_member(rt, A, row, column)?;
        }
    }
    show_member(rt, A, 4, 0)?;
    show_member(rt, A, 0, 4)?;
    let wrong = Board {
        directory: &[1],
        ..A
    };
    show_member(rt, wrong, 9, 9)?;
    let long = Board {
        directory: &[0, 0],
        ..A
    };
    show_member(rt, long, 0, 1)?;
    let cut = Board {
        bytes: b"\x96",
        ..wrong
    };
    show_member(rt, cut, 9, 9)
}

// The board with most groups, joints (16i, 16j): six levels of full groups, then four of groups with their first quarter alone. The last
// byte is given: 128 belongs to it.
fn sixteenths(last: u8) -> [u8; 8875] {
    let mut bytes = [136; 8875];
    bytes[..682].fill(255);
    bytes[682] = 248;
    bytes[8874] = last;
    bytes
}

fn large_examples(rt: &impl Print) -> io::Result<()> {
    let bytes = sixteenths(128);
    show_large(rt, "16i 16j", &bytes)?;
    let mut directory = [0; 139];
    let answer = Answer(make_directory(10, &bytes, &mut directory).map(Counted));
    println!(rt; "{answer} and a directory")?;
    let board = Board {
        height: 10,
        bytes: &bytes,
        directory: &directory,
    };
    show_member(rt, board, 1008, 1008)?;
    show_member(rt, board, 16, 17)?;
    show_member(rt, board, 1024, 0)?;
    directory[1] = 511;
    let wrong = Board {
        height: 10,
        bytes: &bytes,
        directory: &directory,
    };
    show_member(rt, wrong, 0, 0)?;
    show_large(rt, "and one joint more", &sixteenths(192))?;
    show_large(rt, "and none in the last group", &sixteenths(0))
}

fn full_example(rt: &impl Print) -> io::Result<()> {
    let mut bytes = [255; 174763];
    bytes[174762] = 240;
    show_large(rt, "full", &bytes)?;
    bytes[174762] = 241;
    show_large(rt, "full and one bit more", &bytes)
}

fn examples(rt: &impl Print) -> io::Result<()> {
    check_examples(rt)?;
    directory_examples(rt)?;
    member_examples(rt)?;
    large_examples(rt)?;
    full_example(rt)
}

// What cannot be printed is left out.
fn main() {
    let _ = examples(&Out);
}
