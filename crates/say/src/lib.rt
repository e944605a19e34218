// What the example programs print and read: lists, answers and refusals on standard output, numbers from standard input.
#![tactic(auto)]

ghost use Rattle.std.specs.Prelude.{ℕ, ◌≡◌, IfOk, List, length, not};
ghost use Rattle.std.specs.Int.{w32, from_le_bytes};
ghost use Rattle.std.specs.Io.KnownBytes.{Consumes};
ghost use Rattle.std.specs.List.{count_by};

use refusal::Refusal;
use std::fmt;
use std::io::{Print, Read};

// The bytes of a piece.
const PIECE: usize = 512;

// What one call prints, written piece by piece.
#[derive(Drop)]
struct Pieces {
    bytes: [u8; PIECE],
    length: usize,
}

impl Pieces {
    fn new() -> Pieces {
        Pieces {
            bytes: [0; PIECE],
            length: 0,
        }
    }

    fn write_out(&mut self) {
        io::write_all(1, &self.bytes[..self.length.min(PIECE)]);
        self.length = 0;
    }
}

impl fmt::Write for Pieces {
    fn write_str(&mut self, s: &str) -> fmt::Result {
        for byte in s.as_bytes() {
            if self.length >= PIECE {
                self.write_out();
            }
            if self.length < PIECE {
                self.bytes[self.length] = *byte;
                self.length += 1;
            }
        }
        Ok(())
    }
}

// Standard output, by the C library's `write` alone. What cannot be written is left out, and the program goes on.
#[derive(Clone, Copy)]
pub struct Out;

impl Print for Out {
    fn print<D: fmt::Display + Drop>(&self, value: D) -> std::io::Result<()> {
        let mut pieces = Pieces::new();
        let _ = fmt::Write::write(&mut pieces, value);
        pieces.write_out();
        Ok(())
    }

    fn println<D: fmt::Display + Drop>(&self, value: D) -> std::io::Result<()> {
        let mut pieces = Pieces::new();
        let _ = fmt::Write::writeln(&mut pieces, value);
        pieces.write_out();
        Ok(())
    }

    fn write_all(&self, bytes: &[u8]) -> std::io::Result<()> {
        io::write_all(1, bytes);
        Ok(())
    }
}

// Standard input, by the C library's `read` alone. A read that fails is the end.
#[derive(Clone, Copy)]
pub struct In;

impl Read for In {
    fn read(&mut self, buf: &mut [u8]) -> std::io::Result<usize> {
        Ok(io::read_full(0, buf))
    }
}

// Each element of a list after a space.
#[derive(Clone, Copy)]
pub struct Spaced<'a, T>(pub &'a [T]);

impl<T: fmt::Display> fmt::Display for Spaced<'_, T> {
    fn fmt<W: fmt::Write>(&self, f: &mut fmt::Formatter<W>) -> fmt::Result {
        for x in self.0 {
            write!(f, " {x}")?;
        }
        Ok(())
    }
}

// Each byte in hexadecimal, after a space.
#[derive(Clone, Copy)]
pub struct Hex<'a>(pub &'a [u8]);

impl fmt::Display for Hex<'_> {
    fn fmt<W: fmt::Write>(&self, f: &mut fmt::Formatter<W>) -> fmt::Result {
        for byte in self.0 {
            write!(f, " {byte:02x}")?;
        }
        Ok(())
    }
}

// What a call answers, or by what number it is refused.
#[derive(Drop)]
pub struct Answer<T>(pub Result<T, Refusal>);

impl<T: fmt::Display> fmt::Display for Answer<T> {
    fn fmt<W: fmt::Write>(&self, f: &mut fmt::Formatter<W>) -> fmt::Result {
        match &self.0 {
            Ok(answer) => write!(f, "{answer}"),
            Err(refusal) => write!(f, "refused {}", refusal.number()),
        }
    }
}

// How many numbers of a list are not zero.
pub fn nonzero<T: PartialEq + Default + Drop>(list: &[T]) -> usize
    ensures { (zero : T) × T.is_default zero × (result ≡ count_by (λ n. not (T.eq n zero)) list.now) }
{
    let zero = T::default();
    list.iter().filter(|n| **n != zero).count()
}

// The next number of a stream: four bytes, least significant first.
pub fn read_number<R: Read>(input: &mut R) -> std::io::Result<u32>
    ensures { IfOk result (λ n. (bytes : List ℕ) × (length bytes ≡ 4) × Consumes (R.remaining input.old) (R.remaining input.new) bytes × (n ≡ from_le_bytes w32 bytes)) }
{
    let mut bytes = [0; 4];
    input.read_exact(&mut bytes)?;
    Ok(u32::from_le_bytes(bytes))
}
