// The lists that are lent for asking a board.
ghost use Rattle.std.specs.Prelude.{◌≤◌, length};
ghost use Rattle.board.specs.Limits.{max_joints};
ghost use Rattle.lines.specs.Limits.{max_trail};

// Rows and columns of a window's cells, and for a question the keys and the corners of what is pending, and the trail. What is listed in
// them has room on a page.
#[derive(Drop)]
pub struct Lists<'a> {
    pub rows: &'a mut [u32],
    pub columns: &'a mut [u32],
    pub keys: &'a mut [u64],
    pub corners: &'a mut [u32],
    pub trail: &'a mut [u32],
    ghost few: { length rows.now ≤ max_joints },
    ghost short: { length trail.now ≤ max_trail },
}

impl Lists<'_> {
    ghost use Rattle.lines.specs.Lists.{Cleared};

    // All of them, all zeros.
    pub(crate) fn clear(&mut self)
        ensures { Cleared self.old self.new }
    {
        lent::clear(self.rows);
        lent::clear(self.columns);
        lent::clear(self.keys);
        lent::clear(self.corners);
        lent::clear(self.trail);
    }
}
