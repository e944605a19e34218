// A box is opened: each of its ones becomes pending.
ghost use Rattle.std.specs.Prelude.{◌≡◌, map, ◌+◌, ◌-◌, ◌^◌, ◌<◌, ◌≤◌, length};
ghost use Rattle.bitmap.specs.Bits.{group_at};
ghost use Rattle.board.specs.Levels.{quarters};
ghost use Rattle.board.specs.Under.{along, if_one};
ghost use Rattle.board.specs.Kids.{entry, kids_at};
ghost use Rattle.search.specs.Entries.{pack_of};
ghost use Rattle.keys.specs.Places.{place_of};
ghost use Rattle.seek.specs.Spots.{box_of};
ghost use Rattle.seek.specs.Works.{SameLists};
ghost use Rattle.seek.specs.Pending.{Added};
ghost use Rattle.seek.specs.Opening.{MayOpen, OnesFit, Opened};

use crate::question::Question;
use crate::spot::Spot;
use crate::work::Work;
use bitmap::{GroupNo, Ranked};

impl Work<'_> {
    // The entry of a quarter becomes pending where its bit is one.
    fn add_where_one(&mut self, q: Question, bit: u32, s: Spot, pending: usize) -> usize
        requires { (bit < 2) × (pending + bit ≤ length self.old.keys.now) × (pending + bit ≤ length self.old.corners.now) }
        ensures same_lists { SameLists self.old self.new }
        ensures counted { result ≡ pending + bit }
        ensures added { Added pending (map (pack_of (place_of q.entry.place)) (if_one bit (entry s.level s.group.0 (box_of s)))) self.old.keys.now self.old.corners.now self.new.keys.now self.new.corners.now }
    {
        if bit == 0 {
            return pending;
        }
        self.add(pending, s.entry(q));
        pending + 1
    }

    // The quarters of a box whose bits are one become pending; their groups follow one another from the first on.
    fn add_ones(&mut self, q: Question, bits: u32, first: GroupNo, s: Spot, pending: usize) -> usize
        requires { (1 ≤ s.level) × (first.0 ≤ 2 ^ 17) × (OnesFit bits pending (length self.old.keys.now) (length self.old.corners.now)) }
        ensures same_lists { SameLists self.old self.new }
        ensures opened { Opened (place_of q.entry.place) (along (entry (s.level - 1)) first.0 (quarters bits (box_of s))) pending self.old.keys.now self.old.corners.now result self.new.keys.now self.new.corners.now }
    {
        let mut next = first;
        let mut n = pending;
        for quarter in 0..4 {
            let bit = bitmap::bit_in(bits, quarter);
            n = self.add_where_one(q, bit, s.quarter(quarter, next), n);
            next = next.after(bit);
        }
        n
    }

    // A box is opened: its ones become pending.
    #[tactic(auto, using(crate::proofs::Quarter::kids_by_bits))]
    pub(crate) fn open_box(&mut self, q: Question, s: Spot, pending: usize) -> usize
        requires { (MayOpen q.board.bytes.now s) × (OnesFit (group_at q.board.bytes.now s.group.0) pending (length self.old.keys.now) (length self.old.corners.now)) }
        ensures same_lists { SameLists self.old self.new }
        ensures opened { Opened (place_of q.entry.place) (kids_at q.entry.board.bytes.now s.level s.group.0 (box_of s)) pending self.old.keys.now self.old.corners.now result self.new.keys.now self.new.corners.now }
    {
        let bits = bitmap::group_at(q.board.bytes, s.group);
        let ranked = Ranked {
            bytes: q.board.bytes,
            directory: q.board.directory,
        };
        let first = ranked.first_child(s.group);
        self.add_ones(q, bits, first, s, pending)
    }
}
