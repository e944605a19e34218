// What is lent for writing, cleared: a call that is refused, or that finds less than there is room for, leaves zeros.
#![tactic(auto)]

ghost use Rattle.std.specs.Prelude.{◌≡◌, length, replicate};

// A type of numbers, and its zero.
pub trait Zero: Copy {
    ghost zero: { Self };

    fn zero() -> Self
        ensures { result ≡ zero };
}

impl Zero for u8 {
    ghost zero = { 0 };

    fn zero() -> u8 {
        0
    }
}

impl Zero for u16 {
    ghost zero = { 0 };

    fn zero() -> u16 {
        0
    }
}

impl Zero for u32 {
    ghost zero = { 0 };

    fn zero() -> u32 {
        0
    }
}

impl Zero for u64 {
    ghost zero = { 0 };

    fn zero() -> u64 {
        0
    }
}

// A list of numbers, all zeros.
pub fn clear<T: Zero>(list: &mut [T])
    ensures { list.new ≡ replicate (length list.old) T.zero }
{
    for place in list {
        *place = T::zero();
    }
}
