// Questions about boards: those of the rooms of each list by hand, then the cases of the stream on standard input. One line for each:
// number found opened, then row, column and squared distance of each joint found, then the trail; `left` and a count only where something
// that must be zero is not.
#![tactic(auto)]

use crate::stream::{Case, Question, Rooms, read_case};
use board::Board;
use board::directory::make_directory;
use nearest::answer::Answer;
use nearest::nearest;
use say::{In, Out, Spaced, nonzero};
use std::io::Read;
use std::{fmt, io};

mod stream;

// The places of the lists in the frame.
const ANSWERS: usize = 300;

const WORK: usize = 4200;

const TRAIL: usize = 18000;

const BLOCKS: usize = 139;

// The most bytes that are taken of the stream.
const STREAM: usize = 300000;

// Row, column and squared distance of each joint, after spaces.
#[derive(Clone, Copy)]
struct Joints<'a>(&'a [Answer]);

impl fmt::Display for Joints<'_> {
    fn fmt<W: fmt::Write>(&self, f: &mut fmt::Formatter<W>) -> fmt::Result {
        for joint in self.0 {
            write!(f, " {} {} {}", joint.row, joint.column, joint.distance)?;
        }
        Ok(())
    }
}

// How many numbers are not zero, said only where zeros are missing.
#[derive(Clone, Copy)]
struct Left(usize);

impl fmt::Display for Left {
    fn fmt<W: fmt::Write>(&self, f: &mut fmt::Formatter<W>) -> fmt::Result {
        match self.0 {
            0 => Ok(()),
            count => write!(f, " left{count}"),
        }
    }
}

fn nonzero_in(answers: &[Answer]) -> usize {
    answers.iter().fold(0, |count: usize, a| {
        count.saturating_add(nonzero(&[a.row, a.column, a.distance]))
    })
}

// One question and its line. What it takes travels together nowhere else.
fn show_with(
    rt: &impl Print,
    board: Board,
    question: Question,
    answers: &mut [Answer],
    keys: &mut [u64],
    corners: &mut [u32],
    trail: &mut [u32],
) -> io::Result<()> {
    let Question { row, column, k } = question;
    let (number, joints, boxes) = match nearest(
        board, row, column, k, answers, keys, corners, trail,
    ) {
        Ok(found) => (0, found.joints, found.boxes),
        Err(refusal) => (refusal.number(), 0, 0),
    };
    let (near, behind) = answers.split_at((joints as usize).min(answers.len()));
    print!(rt;
        "{number} {joints} {boxes}{}{}",
        Joints(near),
        Left(nonzero_in(behind))
    )?;
    let (opened, behind) = trail.split_at((boxes as usize).min(trail.len()));
    print!(rt; "{}{}", Spaced(opened), Left(nonzero(behind)))?;
    println!(rt; "{}{}", Left(nonzero(keys)), Left(nonzero(corners)))
}

// All lists begin with other numbers than zero.
fn show(rt: &impl Print, board: Board, question: Question, rooms: Rooms) -> io::Result<()> {
    let mut answers = [Answer {
        row: 7,
        column: 7,
        distance: 7,
    }; ANSWERS];
    let mut keys = [7; WORK];
    let mut corners = [7; WORK];
    let mut trail = [7; TRAIL];
    show_with(
        rt,
        board,
        question,
        &mut answers[..rooms.answers.min(ANSWERS)],
        &mut keys[..rooms.keys.min(WORK)],
        &mut corners[..rooms.corners.min(WORK)],
        &mut trail[..rooms.trail.min(TRAIL)],
    )
}

// With the board's own directory.
fn show_case(rt: &impl Print, bytes: &[u8], case: Case) -> io::Result<()> {
    let Case {
        height,
        length: _,
        question,
        rooms,
    } = case;
    let mut space = [0; BLOCKS];
    let directory = &mut space[..bytes.len().div_ceil(64).min(BLOCKS)];
    let _ = make_directory(height, bytes, directory);
    let board = Board {
        height,
        bytes,
        directory,
    };
    show(rt, board, question, rooms)
}

// Board A, place (1,1), K 1: it needs one answer, four places of work each, and a trail of two boxes.
fn show_a(
    rt: &impl Print,
    directory: &[u16],
    answers: usize,
    keys: usize,
    corners: usize,
    trail: usize,
) -> io::Result<()> {
    let board = Board {
        height: 2,
        bytes: b"\x96\x50",
        directory,
    };
    let question = Question {
        row: 1,
        column: 1,
        k: 1,
    };
    let rooms = Rooms {
        answers,
        keys,
        corners,
        trail,
    };
    show(rt, board, question, rooms)
}

// Every list on its own one place too short, and the directory wrong in its length and in its entry.
fn show_rooms(rt: &impl Print) -> io::Result<()> {
    show_a(rt, &[0], 1, 4, 4, 2)?;
    show_a(rt, &[0], 0, 4, 4, 2)?;
    show_a(rt, &[0], 1, 3, 4, 2)?;
    show_a(rt, &[0], 1, 4, 3, 2)?;
    show_a(rt, &[0], 1, 4, 4, 1)?;
    show_a(rt, &[], 1, 4, 4, 2)?;
    show_a(rt, &[0, 0], 1, 4, 4, 2)?;
    show_a(rt, &[1], 1, 4, 4, 2)
}

fn show_cases(rt: &impl Print, input: &mut impl Read) -> io::Result<()> {
    let mut space = [0; STREAM];
    for _ in 0..STREAM {
        let Ok(case) = read_case(input, &mut space) else {
            break;
        };
        show_case(rt, &space[..case.length], case)?;
    }
    Ok(())
}

// What cannot be printed is left out.
fn main() {
    let _ = show_rooms(&Out);
    let _ = show_cases(&Out, &mut In.take(STREAM as u64));
}
