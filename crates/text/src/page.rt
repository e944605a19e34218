// A page: a list lent for writing, and the place up to which it is written. Each line is put behind those before it.
ghost use mathlib.Core.List.{flat_map};
ghost use Rattle.text.specs.Text.{in_decimal, field, bytes_of, Fits, Put};
ghost use Rattle.text.specs.Page.{Room, Puts};

#[derive(Drop)]
pub struct Page<'a> {
    pub out: &'a mut [u8],
    pub at: usize,
}

// A number in decimal, from a place of a list on; the place behind it. So is each part of a line put: a place kept on the page would be
// read from memory and stored again at every byte. The digits before the last one are those of a tenth. By hand: the bytes that `Display`
// writes are known to a proof only in a `String`, and the library has no heap.
fn put_decimal(n: u32, out: &mut [u8], at: usize) -> usize
    requires { Fits (in_decimal n) at out.old }
    ensures { Put (in_decimal n) at out.old result out.new }
{
    if n < 10 {
        out[at] = b'0' + n as u8;
        return at + 1;
    }
    let last = put_decimal(n / 10, out, at);
    out[last] = b'0' + (n % 10) as u8;
    last + 1
}

// A space and a number.
fn put_field(n: u32, out: &mut [u8], at: usize) -> usize
    requires { Fits (field n) at out.old }
    ensures { Put (field n) at out.old result out.new }
{
    out[at] = b' ';
    put_decimal(n, out, at + 1)
}

// Numbers, each after a space.
fn put_fields(numbers: &[u32], out: &mut [u8], at: usize) -> usize
    requires { Fits (flat_map field numbers.now) at out.old }
    ensures { Put (flat_map field numbers.now) at out.old result out.new }
{
    let mut end = at;
    for n in numbers {
        end = put_field(*n, out, end);
    }
    end
}

fn put_word(word: &[u8], out: &mut [u8], at: usize) -> usize
    requires { Fits word.now at out.old }
    ensures { Put word.now at out.old result out.new }
{
    let mut end = at;
    for letter in word {
        out[end] = *letter;
        end += 1;
    }
    end
}

// A line: a word, numbers, and a line feed.
fn put_line(word: &[u8], numbers: &[u32], out: &mut [u8], at: usize) -> usize
    requires { Fits (bytes_of (record { word = word.now; numbers = numbers.now })) at out.old }
    ensures { Put (bytes_of (record { word = word.now; numbers = numbers.now })) at out.old result out.new }
{
    let named = put_word(word, out, at);
    let last = put_fields(numbers, out, named);
    out[last] = b'\n';
    last + 1
}

impl Page<'_> {
    // A line behind what is written.
    pub(crate) fn put_line(&mut self, word: &[u8], numbers: &[u32])
        requires { Room (bytes_of (record { word = word.now; numbers = numbers.now })) self.old }
        ensures { Puts (bytes_of (record { word = word.now; numbers = numbers.now })) self.old self.new }
    {
        self.at = put_line(word, numbers, self.out, self.at);
    }
}
