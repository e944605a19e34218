// A step of a question, and the tally that it keeps.
ghost use Rattle.std.specs.Prelude.{◌≡◌, ◌+◌, ◌-◌, ◌*◌, ◌/◌, ◌%◌, ◌^◌, ◌<◌, ◌≤◌, length, set};
ghost use Rattle.bitmap.specs.Bits.{group_at};
ghost use Rattle.board.specs.Levels.{Box};
ghost use Rattle.board.specs.Kids.{kids};
ghost use Rattle.search.specs.Keys.{id_of};
ghost use Rattle.search.specs.Entries.{entry_of};
ghost use Rattle.keys.specs.Places.{place_of};
ghost use Rattle.seek.specs.Works.{SameLists};
ghost use Rattle.seek.specs.Opening.{BoxMayOpen, OnesFit, Opened};
ghost use Rattle.seek.specs.Step.{Goes, Stepped};

use crate::pending::Entry;
use crate::question::Question;
use crate::spot::Spot;
use crate::work::Work;
use bitmap::GroupNo;
use keys::entry;

// Kept through a question and changed as it goes: the boxes opened, the entries pending, the joints handed out.
#[derive(Clone, Copy)]
pub(crate) struct Tally {
    pub opened: u32,
    pub pending: u32,
    pub handed: u32,
}

// A group joins the trail, if the trail has room for it. The check finds the proof alone for an index that is tested first, and not for `get_mut`.
fn join(trail: &mut [u32], opened: usize, g: GroupNo)
    ensures { trail.new ≡ set trail.old opened g.0 }
{
    if opened < trail.len() {
        trail[opened] = g.number();
    }
}

impl Work<'_> {
    // A joint's key is kept at the end of the keys, the first in the last place: what is pending leaves that much room.
    fn hand_out(&mut self, handed: usize, key: u64)
        requires { handed < length self.old.keys.now }
        ensures same_lists { SameLists self.old self.new }
        ensures kept { self.new.keys.now ≡ set self.old.keys.now (length self.old.keys.now - 1 - handed) key }
        ensures corners { self.new.corners.now ≡ self.old.corners.now }
    {
        let at = self.keys.len() - 1 - handed;
        self.keys[at] = key;
    }

    // The box of an entry that left is opened.
    fn open_entry(&mut self, q: Question, e: Entry, pending: usize) -> usize
        requires { (BoxMayOpen q.board.bytes.now e.key e.corner) × (OnesFit (group_at q.board.bytes.now (id_of e.key)) pending (length self.old.keys.now) (length self.old.corners.now)) }
        ensures same_lists { SameLists self.old self.new }
        ensures opened { Opened (place_of q.entry.place) (kids q.entry.board.bytes.now (entry_of e.key e.corner)) pending self.old.keys.now self.old.corners.now result self.new.keys.now self.new.corners.now }
    {
        let s = Spot {
            level: entry::levels_of(e.corner),
            group: entry::group_of(e.key),
            row: entry::top_of(e.corner),
            column: entry::left_of(e.corner),
        };
        self.open_box(q, s, pending)
    }
}

// The work of a step, with the tally by value.
pub(crate) fn step_core(t: Tally, q: Question, work: &mut Work, trail: &mut [u32]) -> Tally
    requires { (Goes (place_of q.place) q.board.bytes.now q.board.directory.now t work.old.keys.now work.old.corners.now) }
    ensures same_lists { SameLists work.old work.new }
    ensures stepped { Stepped (place_of q.entry.place) q.entry.board.bytes.now t work.old.keys.now work.old.corners.now trail.old result work.new.keys.now work.new.corners.now trail.new }
{
    let e = work.take(t.pending as usize);
    let rest = t.pending - 1;
    if entry::is_joint(e.key) {
        work.hand_out(t.handed as usize, e.key);
        return Tally {
            opened: t.opened,
            pending: rest,
            handed: t.handed + 1,
        };
    }
    join(trail, t.opened as usize, entry::group_of(e.key));
    let pending = work.open_entry(q, e, rest as usize);
    Tally {
        opened: t.opened + 1,
        pending: pending as u32,
        handed: t.handed,
    }
}

// The step, as document 01 has it: the tally is lent, and changed by the work above.
pub(crate) fn step(t: &mut Tally, q: Question, work: &mut Work, trail: &mut [u32])
    requires { (Goes (place_of q.place) q.board.bytes.now q.board.directory.now t.old work.old.keys.now work.old.corners.now) }
    ensures same_lists { SameLists work.old work.new }
    ensures stepped { Stepped (place_of q.entry.place) q.entry.board.bytes.now t.old work.old.keys.now work.old.corners.now trail.old t.new work.new.keys.now work.new.corners.now trail.new }
{
    *t = step_core(*t, q, work, trail);
}
