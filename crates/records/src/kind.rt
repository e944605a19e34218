// The kinds of record of a joint sheet: the length of each one's body, and where it may stand.
ghost use Rattle.std.specs.Prelude.{◌≡◌};
ghost use Rattle.refusal.specs.Results.{answer_of};
ghost use Rattle.records.specs.Kinds.{kind_of, body_length, in_place};

use refusal::Refusal;

// The bytes of a joint record's body.
pub const JOINT_BODY: usize = 10;

#[derive(Clone, Copy, PartialEq, Eq)]
pub enum Kind {
    Board,
    Joint,
    Question,
    Window,
    End,
}

// How far a sheet has come: nothing yet; the board and joints; a question or a window.
#[derive(Clone, Copy, PartialEq, Eq)]
pub enum Stage {
    Start,
    Joints,
    Requests,
}

// What a byte of kind says, by a match as document 01 has it; any other byte is refused by number 14.
impl TryFrom<u8> for Kind {
    type Error = Refusal;

    ghost try_from_gives = { λ byte found. answer_of found ≡ kind_of byte };

    #[tactic(auto, unfolding(crate::specs::Kinds::kind_of))]
    fn try_from(byte: u8) -> Result<Kind, Refusal> {
        match byte {
            1 => Ok(Kind::Board),
            2 => Ok(Kind::Joint),
            3 => Ok(Kind::Question),
            4 => Ok(Kind::Window),
            5 => Ok(Kind::End),
            _ => Err(Refusal::Kind),
        }
    }
}

impl Kind {
    // The bytes of a record's body.
    pub fn body_length(self) -> usize
        ensures { result ≡ body_length self }
    {
        match self {
            Kind::Board => 1,
            Kind::Joint => JOINT_BODY,
            Kind::Question => 13,
            Kind::Window => 20,
            Kind::End => 0,
        }
    }
}

// Whether a record of a kind may stand where a sheet has come so far.
pub(crate) fn in_place(stage: Stage, kind: Kind) -> bool
    ensures { result ≡ in_place stage kind }
{
    match stage {
        Stage::Start => kind == Kind::Board,
        Stage::Joints => kind != Kind::Board,
        Stage::Requests => !matches!(kind, Kind::Board | Kind::Joint),
    }
}
