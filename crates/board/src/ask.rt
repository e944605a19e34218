// What every question asks first: the check of the board, and of the directory that is given with it.
ghost use Rattle.std.specs.Prelude.{◌≡◌};
ghost use Rattle.board.specs.Numbers.{numbers_of};
ghost use Rattle.board.specs.Ready.{asked_of};

use crate::check::check;
use crate::{Board, Counts};
use bitmap::is_directory;
use refusal::Refusal;

impl Board<'_> {
    // The check of a board and of its directory.
    #[tactic(auto, using(crate::proofs::Asking::served_few), unfolding(crate::specs::Ready::asked_of))]
    pub fn ask(self) -> Result<Counts, Refusal>
        ensures { numbers_of result ≡ asked_of self.entry.height self.entry.bytes.now self.entry.directory.now }
    {
        let counts = check(self.height, self.bytes)?;
        if !is_directory(self.bytes, self.directory) {
            return Err(Refusal::Directory);
        }
        Ok(counts)
    }
}
