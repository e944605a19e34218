// The twenty refusals of document 01, each by what it means, and its number.
#![tactic(auto)]

ghost use Rattle.std.specs.Prelude.{◌≡◌};
ghost use Rattle.refusal.specs.Numbers.{number_of};

// In the order of the table, from 1 on.
#[derive(Clone, Copy, PartialEq, Eq)]
pub enum Refusal {
    Height = 1,
    CutShort,
    EmptyGroup,
    LeftOver,
    TooManyJoints,
    Directory,
    Place,
    Count,
    AnswerRoom,
    WorkRoom,
    TrailRoom,
    Cell,
    Measure,
    Kind,
    OutOfPlace,
    RecordCut,
    End,
    BitmapRoom,
    SheetLength,
    UnequalLists,
}

impl Refusal {
    // The number of a refusal; a served call's number is 0.
    pub fn number(self) -> u32
        ensures { result ≡ number_of self }
    {
        self as u32
    }
}
