// The answer list: each place is one record of row, column and squared distance.
ghost use Rattle.std.specs.Prelude.{◌≡◌, map, ◌^◌, ◌<◌, ◌≤◌, length, set, get_or};
ghost use Rattle.search.specs.Keys.{distance_of};
ghost use Rattle.seek.specs.Step.{handed_in};
ghost use Rattle.nearest.specs.Answers.{zero_answer, answer_of, filled, Handed};

use keys::{distance, entry};

// A joint of an answer.
#[derive(Clone, Copy, Default)]
pub struct Answer {
    pub row: u32,
    pub column: u32,
    pub distance: u32,
}

// The record of a joint's key.
pub fn answer_of(key: u64) -> Answer
    requires { distance_of key < 2 ^ 32 }
    ensures { result ≡ answer_of key }
{
    Answer {
        row: entry::row_of(key),
        column: entry::col_of(key),
        distance: distance::squared(distance::of_key(key)),
    }
}

// What goes to a place of the answer list: a joint's record, and zeros after the n handed out.
pub(crate) fn pick(keys: &[u64], n: usize, at: usize) -> Answer
    requires { Handed n keys.now }
    ensures { result ≡ get_or (map answer_of (handed_in n keys.now)) at zero_answer }
{
    if at < n {
        return answer_of(keys[keys.len() - 1 - at]);
    }
    Answer::default()
}

// One record is stored: a thin function, as document 01 has it, and so is the next.
pub(crate) fn put(list: &mut [Answer], at: usize, a: Answer)
    requires { at < length list.old }
    ensures { list.new ≡ set list.old at a }
{
    list[at] = a;
}

// The n joints handed out are put into the answer list, and the rest of it is cleared.
pub(crate) fn deliver(keys: &[u64], n: usize, list: &mut [Answer])
    requires { (Handed n keys.now) × (n ≤ length list.old) }
    ensures { list.new ≡ filled (handed_in n keys.now) (length list.old) }
{
    for at in 0..list.len() {
        put(list, at, pick(keys, n, at));
    }
}
