// The directory maker.
ghost use Rattle.std.specs.Prelude.{◌≡◌, length};
ghost use Rattle.refusal.specs.Answer.{left_in};
ghost use Rattle.bitmap.specs.Directory.{directory_of};
ghost use Rattle.board.specs.Numbers.{numbers_of};
ghost use Rattle.board.specs.Ready.{made_of};

use crate::Counts;
use crate::check::check;
use bitmap::{blocks_of, fill_directory};
use lent::clear;
use refusal::Refusal;

// The check of a board, and of the room for its directory.
#[tactic(auto, unfolding(crate::specs::Ready::made_of))]
fn may_make(height: u32, bytes: &[u8], directory: &[u16]) -> Result<Counts, Refusal>
    ensures { numbers_of result ≡ made_of height bytes.now (length directory.now) }
{
    let counts = check(height, bytes)?;
    if directory.len() != blocks_of(bytes.len()) {
        return Err(Refusal::Directory);
    }
    Ok(counts)
}

// Writes the directory of a board into a list that must have just the room; zeros where it is refused.
#[tactic(auto, using(crate::proofs::Asking::made_served, refusal::proofs::Answers::left_refused, refusal::proofs::Answers::left_served, bitmap::proofs::Directory::length_directory))]
pub fn make_directory(height: u32, bytes: &[u8], directory: &mut [u16]) -> Result<Counts, Refusal>
    ensures { (numbers_of result ≡ made_of height bytes.now (length directory.old))
        × (directory.new ≡ left_in (made_of height bytes.now (length directory.old)) (directory_of bytes.now) (length directory.old)) }
{
    let made = may_make(height, bytes, directory);
    match made {
        Ok(_) => fill_directory(bytes, directory),
        Err(_) => clear(directory),
    }
    made
}
