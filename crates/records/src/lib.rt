// One record of a joint sheet: one byte of kind, then a body whose length the kind fixes; and what it says.
#![tactic(auto)]

pub mod kind;
pub mod record;
