// A question as the search has it.
ghost use Rattle.std.specs.Prelude.{◌<◌};
ghost use Rattle.board.specs.Ready.{Ready};
ghost use Rattle.keys.specs.Places.{Named};

use board::Board;
use keys::distance::Place;

// A board that may be asked, a place that a question may name, and how many joints are wanted.
#[derive(Clone, Copy)]
pub(crate) struct Question<'a> {
    pub board: Board<'a>,
    pub place: Place,
    pub wanted: u32,
    ghost ready: { Ready board.height board.bytes.now board.directory.now },
    ghost named: { Named place },
    ghost some: { 0 < wanted },
}
