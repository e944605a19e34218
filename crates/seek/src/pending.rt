// The pending entries, a heap in the first places of the two work lists.
ghost use Rattle.std.specs.Prelude.{◌≡◌, ◌^◌, ◌<◌, ◌≤◌, ◌∷◌, [], length, get_or, set};
ghost use Rattle.search.specs.Entries.{pack};
ghost use Rattle.seek.specs.Works.{SameLists};
ghost use Rattle.seek.specs.Pending.{Taken, Added};

use crate::work::Work;

// An entry as the work lists hold it: its key, and of a box its levels and its corner.
#[derive(Clone, Copy)]
pub(crate) struct Entry {
    pub key: u64,
    pub corner: u32,
}

impl Work<'_> {
    // The entry at a place.
    pub(crate) fn at(&self, i: usize) -> Entry
        requires { (i < length self.now.keys.now) × (i < length self.now.corners.now) }
        ensures { (result.key ≡ get_or self.now.keys.now i 0) × (result.corner ≡ get_or self.now.corners.now i 0) }
    {
        Entry {
            key: self.keys[i],
            corner: self.corners[i],
        }
    }

    // An entry is stored at a place.
    pub(crate) fn put(&mut self, i: usize, e: Entry)
        requires { (i < length self.old.keys.now) × (i < length self.old.corners.now) }
        ensures same_lists { SameLists self.old self.new }
        ensures stored { (self.new.keys.now ≡ set self.old.keys.now i e.key) × (self.new.corners.now ≡ set self.old.corners.now i e.corner) }
    {
        self.keys[i] = e.key;
        self.corners[i] = e.corner;
    }

    // The smallest of the pending entries leaves.
    pub(crate) fn take(&mut self, pending: usize) -> Entry
        requires { (0 < pending) × (pending ≤ length self.old.keys.now) × (pending ≤ length self.old.corners.now) }
        ensures same_lists { SameLists self.old self.new }
        ensures taken { Taken pending self.old.keys.now self.old.corners.now result.key result.corner self.new.keys.now self.new.corners.now }
    {
        let last = pending - 1;
        let first = self.at(0);
        self.put(0, self.at(last));
        self.sift_down(last);
        first
    }

    // One more entry is pending.
    pub(crate) fn add(&mut self, pending: usize, e: Entry)
        requires { (pending < length self.old.keys.now) × (pending < length self.old.corners.now) }
        ensures same_lists { SameLists self.old self.new }
        ensures added { Added pending (pack e.key e.corner ∷ []) self.old.keys.now self.old.corners.now self.new.keys.now self.new.corners.now }
    {
        self.put(pending, e);
        self.sift_up(pending);
    }
}
