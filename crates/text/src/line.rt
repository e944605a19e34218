// The kinds of line of a report, each put on a page.
ghost use Rattle.std.specs.Prelude.{◌≡◌, length};
ghost use Rattle.text.specs.Text.{bytes_of, text_of};
ghost use Rattle.text.specs.Page.{Room, Puts};
ghost use Rattle.text.specs.Lines.{refused_line, board_line, ask_line, at_line, opened_line, win_line, in_line, in_lines, no_line, end_line};

use crate::page::Page;

impl Page<'_> {
    // A refused sheet: the number and the offset.
    pub fn put_refused(&mut self, number: u32, offset: u32)
        requires { Room (bytes_of (refused_line number offset)) self.old }
        ensures { Puts (bytes_of (refused_line number offset)) self.old self.new }
    {
        self.put_line(b"refused", &[number, offset]);
    }

    // The board: height, joints, boxes.
    pub fn put_board(&mut self, height: u32, joints: u32, boxes: u32)
        requires { Room (bytes_of (board_line height joints boxes)) self.old }
        ensures { Puts (bytes_of (board_line height joints boxes)) self.old self.new }
    {
        self.put_line(b"board", &[height, joints, boxes]);
    }

    // A question: K, joints found, boxes opened.
    pub fn put_ask(&mut self, k: u32, found: u32, opened: u32)
        requires { Room (bytes_of (ask_line k found opened)) self.old }
        ensures { Puts (bytes_of (ask_line k found opened)) self.old self.new }
    {
        self.put_line(b"ask", &[k, found, opened]);
    }

    // A joint found: row, column, squared distance.
    pub fn put_at(&mut self, row: u32, column: u32, distance: u32)
        requires { Room (bytes_of (at_line row column distance)) self.old }
        ensures { Puts (bytes_of (at_line row column distance)) self.old self.new }
    {
        self.put_line(b"at", &[row, column, distance]);
    }

    // The trail.
    pub fn put_opened(&mut self, trail: &[u32])
        requires { Room (bytes_of (opened_line trail.now)) self.old }
        ensures { Puts (bytes_of (opened_line trail.now)) self.old self.new }
    {
        self.put_line(b"opened", trail);
    }

    // A window: how many joints are inside it.
    pub fn put_win(&mut self, count: u32)
        requires { Room (bytes_of (win_line count)) self.old }
        ensures { Puts (bytes_of (win_line count)) self.old self.new }
    {
        self.put_line(b"win", &[count]);
    }

    // A joint inside it: row and column.
    pub fn put_in(&mut self, row: u32, column: u32)
        requires { Room (bytes_of (in_line row column)) self.old }
        ensures { Puts (bytes_of (in_line row column)) self.old self.new }
    {
        self.put_line(b"in", &[row, column]);
    }

    // A line for each joint inside a window, by their rows and columns.
    pub fn put_ins(&mut self, rows: &[u32], columns: &[u32])
        requires { (length rows.now ≡ length columns.now) × Room (text_of (in_lines rows.now columns.now)) self.old }
        ensures { Puts (text_of (in_lines rows.now columns.now)) self.old self.new }
    {
        for (row, column) in rows.iter().zip(columns) {
            self.put_in(*row, *column);
        }
    }

    // A refused question or window: the number.
    pub fn put_no(&mut self, number: u32)
        requires { Room (bytes_of (no_line number)) self.old }
        ensures { Puts (bytes_of (no_line number)) self.old self.new }
    {
        self.put_line(b"no", &[number]);
    }

    // The last line.
    pub fn put_end(&mut self)
        requires { Room (bytes_of end_line) self.old }
        ensures { Puts (bytes_of end_line) self.old self.new }
    {
        self.put_line(b"end", &[]);
    }
}
