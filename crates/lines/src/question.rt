// The lines of a question.
ghost use Rattle.std.specs.Prelude.{map, ◌^◌, ◌<◌, ◌≤◌, length, take};
ghost use Rattle.search.specs.Keys.{distance_of};
ghost use Rattle.seek.specs.Step.{handed_in};
ghost use Rattle.search.specs.Question.{answer_keys};
ghost use Rattle.search.specs.Question.{trail as way_of};
ghost use Rattle.keys.specs.Places.{place_of};
ghost use Rattle.nearest.specs.Promise.{nearest_of, numbers_of, joints_of};
ghost use Rattle.nearest.specs.Asked.{rooms_of};
ghost use Rattle.nearest.specs.Answers.{Handed};
ghost use Rattle.text.specs.Text.{bytes_of, text_of};
ghost use Rattle.text.specs.Page.{Room, Puts};
ghost use Rattle.lines.specs.Limits.{max_answers, max_trail};
ghost use Rattle.lines.specs.Report.{Roomy, key_line, boxes_in, found_lines, ask_lines, AskPuts};

use crate::lists::Lists;
use board::Board;
use keys::distance::Place;
use nearest::answer::answer_of;
use nearest::ask::{Found, asked};
use refusal::Refusal;
use text::Page;

// The most joints that are found for a question.
pub(crate) const MAX_ANSWERS: usize = 255;

// A joint found, by its key.
fn put_key(key: u64, page: &mut Page)
    requires { (distance_of key < 2 ^ 32) × Room (bytes_of (key_line key)) page.old }
    ensures { Puts (bytes_of (key_line key)) page.old page.new }
{
    let a = answer_of(key);
    page.put_at(a.row, a.column, a.distance);
}

// The joints found, whose keys stand at the end of the keys, the first in the last place.
fn put_keys(keys: &[u64], n: usize, page: &mut Page)
    requires { (Handed n keys.now) × Room (text_of (map key_line (handed_in n keys.now))) page.old }
    ensures { Puts (text_of (map key_line (handed_in n keys.now))) page.old page.new }
{
    // By number: what a proof would have to know of the places of a list that is walked from its end, no lemma says.
    for i in 0..n {
        put_key(keys[keys.len() - 1 - i], page);
    }
}

// The lines of a question that is served: so many joints found, so many boxes opened.
fn put_found(k: u32, found: Found, keys: &[u64], trail: &[u32], page: &mut Page)
    requires { (Handed found.joints keys.now) × (found.joints ≤ max_answers) × (found.boxes ≤ length trail.now) × (found.boxes ≤ max_trail) × Roomy page.old }
    ensures { Puts (text_of (found_lines k (handed_in found.joints keys.now) (take found.boxes trail.now))) page.old page.new }
{
    page.put_ask(k, found.joints, found.boxes);
    put_keys(keys, found.joints as usize, page);
    let n = found.boxes as usize;
    page.put_opened(&trail[..n]);
}

// The lines of a question that is answered, with what the search left in its lists.
fn put_answer(answer: Result<Found, Refusal>, k: u32, lists: &Lists, page: &mut Page)
    requires { (Handed (joints_of answer) lists.now.keys.now) × (joints_of answer ≤ max_answers) × (boxes_in answer ≤ length lists.now.trail.now) × (boxes_in answer ≤ max_trail) × Roomy page.old }
    ensures { Puts (text_of (ask_lines (numbers_of answer) k (handed_in (joints_of answer) lists.now.keys.now) (take (boxes_in answer) lists.now.trail.now))) page.old page.new }
{
    match answer {
        Ok(found) => put_found(k, found, lists.keys, lists.trail, page),
        Err(refusal) => page.put_no(refusal.number()),
    }
}

// The lines of a question.
pub(crate) fn ask_lines(board: Board, p: Place, k: u32, lists: &mut Lists, page: &mut Page)
    requires { Roomy page.old }
    ensures { AskPuts (nearest_of board.entry.height board.entry.bytes.now board.entry.directory.now p k (rooms_of max_answers lists.old.keys.now lists.old.corners.now lists.old.trail.now)) k (answer_keys (place_of p) board.entry.height board.entry.bytes.now k) (way_of (place_of p) board.entry.height board.entry.bytes.now k) page.old page.new lists.old lists.new }
{
    let answer = asked(
        board,
        p,
        k,
        MAX_ANSWERS,
        lists.keys,
        lists.corners,
        lists.trail,
    );
    put_answer(answer, k, lists, page);
    lent::clear(lists.keys);
}
