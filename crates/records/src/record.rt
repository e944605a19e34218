// One record of a joint sheet: its kind, and what its body says.
ghost use Rattle.std.specs.Prelude.{◌≡◌, ◌+◌, ◌≤◌, ◌<◌, length};
ghost use Rattle.refusal.specs.Results.{answer_of, answer_by};
ghost use Rattle.board.specs.Limits.{max_height};
ghost use Rattle.records.specs.Kinds.{body_length};
ghost use Rattle.records.specs.Records.{measure_at, marked_at, pair_at, body_of, record_at, with_next};
ghost use Rattle.records.specs.Answers.{recorded_of};

use crate::kind::{Kind, Stage, in_place};
use refusal::Refusal;

#[derive(Clone, Copy)]
pub enum Record {
    Board {
        height: u32,
    },
    Joint {
        row: u32,
        column: u32,
    },
    Question {
        k: u32,
        row: i32,
        column: i32,
    },
    Window {
        lowest_row: u32,
        highest_row: u32,
        lowest_column: u32,
        highest_column: u32,
    },
    End,
}

// A record and the offset of the next.
#[derive(Clone, Copy)]
pub struct Recorded {
    pub record: Record,
    pub next: usize,
}

// The measure at a place of a body.
fn measure_at(body: &[u8], at: usize) -> Result<u32, Refusal>
    requires { at + 5 ≤ length body.now }
    ensures { answer_of result ≡ measure_at body.now at }
{
    measure::read(&body[at..at + measure::MEASURE_LENGTH])
}

// The marked measure at a place of a body.
fn marked_at(body: &[u8], at: usize) -> Result<i32, Refusal>
    requires { at + 6 ≤ length body.now }
    ensures { answer_of result ≡ marked_at body.now at }
{
    measure::read_marked(&body[at..at + measure::MARKED_LENGTH])
}

// The two measures from a place of a body on; the first that is none is the answer.
fn pair_at(body: &[u8], at: usize) -> Result<(u32, u32), Refusal>
    requires { at + 10 ≤ length body.now }
    ensures { answer_by (λ pair. (pair.0, pair.1)) result ≡ pair_at body.now at }
{
    let first = measure_at(body, at)?;
    let second = measure_at(body, at + measure::MEASURE_LENGTH)?;
    Ok((first, second))
}

// What the body of a board record says.
#[tactic(auto, unfolding(crate::specs::Records::body_of, board::specs::Limits::max_height))]
fn board_body(body: &[u8]) -> Result<Record, Refusal>
    requires { 1 ≤ length body.now }
    ensures { answer_of result ≡ body_of 0 Kind.Board body.now }
{
    let height = body[0] as u32;
    if height < 1 || board::MAX_HEIGHT < height {
        return Err(Refusal::Height);
    }
    Ok(Record::Board { height })
}

// What the body of a joint record says, on a board of a height.
#[tactic(auto, unfolding(crate::specs::Records::body_of))]
fn joint_body(height: u32, body: &[u8]) -> Result<Record, Refusal>
    requires { (height < 32) × (10 ≤ length body.now) }
    ensures { answer_of result ≡ body_of height Kind.Joint body.now }
{
    let (row, column) = pair_at(body, 0)?;
    if !board::member::on_board(height, row, column) {
        return Err(Refusal::Cell);
    }
    Ok(Record::Joint { row, column })
}

// What the body of a question says.
#[tactic(auto, unfolding(crate::specs::Records::body_of))]
fn question_body(body: &[u8]) -> Result<Record, Refusal>
    requires { 13 ≤ length body.now }
    ensures { answer_of result ≡ body_of 0 Kind.Question body.now }
{
    let k = body[0] as u32;
    let row = marked_at(body, 1)?;
    let column = marked_at(body, 7)?;
    Ok(Record::Question { k, row, column })
}

// What the body of a window says.
#[tactic(auto, unfolding(crate::specs::Records::body_of))]
fn window_body(body: &[u8]) -> Result<Record, Refusal>
    requires { 20 ≤ length body.now }
    ensures { answer_of result ≡ body_of 0 Kind.Window body.now }
{
    let (lowest_row, highest_row) = pair_at(body, 0)?;
    let (lowest_column, highest_column) = pair_at(body, 10)?;
    Ok(Record::Window {
        lowest_row,
        highest_row,
        lowest_column,
        highest_column,
    })
}

// What a body of a kind says, on a board of a height.
#[tactic(auto, unfolding(crate::specs::Records::body_of, board::specs::Limits::max_height))]
fn body_of(kind: Kind, height: u32, body: &[u8]) -> Result<Record, Refusal>
    requires { (height ≤ max_height) × (body_length kind ≤ length body.now) }
    ensures { answer_of result ≡ body_of height kind body.now }
{
    match kind {
        Kind::Board => board_body(body),
        Kind::Joint => joint_body(height, body),
        Kind::Question => question_body(body),
        Kind::Window => window_body(body),
        Kind::End => Ok(Record::End),
    }
}

// The record at an offset of a sheet that has come so far, on a board of a height, and the offset of the next: 14, 15, 16, then
// what its body says.
#[tactic(auto, using(crate::proofs::Recording::rest_of, crate::proofs::Recording::kind_of_body), unfolding(crate::specs::Records::record_at))]
pub fn record_at(sheet: &[u8], at: usize, stage: Stage, height: u32) -> Result<Recorded, Refusal>
    requires { (at < length sheet.now) × (height ≤ max_height) }
    ensures { recorded_of result ≡ with_next at (record_at stage height sheet.now at) }
{
    let kind = Kind::try_from(sheet[at])?;
    if !in_place(stage, kind) {
        return Err(Refusal::OutOfPlace);
    }
    let body = at + 1;
    let next = body + kind.body_length();
    if sheet.len() < next {
        return Err(Refusal::RecordCut);
    }
    let record = body_of(kind, height, &sheet[body..])?;
    Ok(Recorded { record, next })
}
