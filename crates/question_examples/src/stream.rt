// The cases of a stream: numbers of four bytes, least significant first.
ghost use Rattle.std.specs.Prelude.{◌≤◌, length, IfOk};

use say::read_number;
use std::io;
use std::io::{ErrorKind, Read};

// A question about a board: a place, and how many joints are asked for.
#[derive(Clone, Copy)]
pub(crate) struct Question {
    pub row: i32,
    pub column: i32,
    pub k: u32,
}

// The lengths of the lists that are lent for a question.
#[derive(Clone, Copy)]
pub(crate) struct Rooms {
    pub answers: usize,
    pub keys: usize,
    pub corners: usize,
    pub trail: usize,
}

// A board's height and the length of its bitmap, a question, and what is lent for it.
#[derive(Clone, Copy)]
pub(crate) struct Case {
    pub height: u32,
    pub length: usize,
    pub question: Question,
    pub rooms: Rooms,
}

fn read_count(input: &mut impl Read) -> io::Result<usize> {
    Ok(read_number(input)? as usize)
}

// Two's complement.
fn read_signed(input: &mut impl Read) -> io::Result<i32> {
    Ok(read_number(input)?.cast_signed())
}

// The next case, with its bitmap at the start of the space; an error where the stream ends before it does.
pub(crate) fn read_case(input: &mut impl Read, space: &mut [u8]) -> io::Result<Case>
    ensures { IfOk result (λ case. case.length ≤ length space.new) }
{
    let height = read_number(input)?;
    let length = read_count(input)?;
    let bitmap = space.get_mut(..length).ok_or(ErrorKind::UnexpectedEof)?;
    input.read_exact(bitmap)?;
    let question = Question {
        row: read_signed(input)?,
        column: read_signed(input)?,
        k: read_number(input)?,
    };
    let answers = read_count(input)?;
    let work = read_count(input)?;
    let rooms = Rooms {
        answers,
        keys: work,
        corners: work,
        trail: read_count(input)?,
    };
    Ok(Case {
        height,
        length,
        question,
        rooms,
    })
}
