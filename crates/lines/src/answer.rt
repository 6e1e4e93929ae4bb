// A call's answer as a line has it: up to five values, or the refusal.
ghost use Rattle.std.specs.Prelude.{◌≡◌, ℕ, [], ◌∷◌, Ok, true, false};
ghost use Rattle.base.specs.Answer.{bit};

use base::RingError;

// Up to five values, zeros after them: a call's answer is kept with no heap, so they are counted.
#[derive(Clone, Copy, PartialEq, Eq)]
pub struct Values {
    pub list: [u64; 5],
    pub count: usize,
}

pub type Answer = Result<Values, RingError>;

// What a line has as a number; a yes is 1 and a no is 0.
pub trait Number: Copy + Into<u64> {
    ghost value: { Self → ℕ };

    ghost same: { (x : Self) (y : ℕ) → Self.converts x y → y ≡ value x };
}

impl Number for u8 {
    ghost value = { λ x. x };

    ghost same = { λ x y e. e };
}

impl Number for u16 {
    ghost value = { λ x. x };

    ghost same = { λ x y e. e };
}

impl Number for u32 {
    ghost value = { λ x. x };

    ghost same = { λ x y e. e };
}

impl Number for u64 {
    ghost value = { λ x. x };

    ghost same = { λ x y e. e };
}

impl Number for bool {
    ghost value = { bit };

    ghost same = { elim [ true ↦ λ y e. e | false ↦ λ y e. e ] };
}

impl Values {
    ghost use Rattle.lines.specs.Line.{held, first_of};

    // At most the first five.
    pub fn of<const N: usize>(values: [u64; N]) -> Values
        ensures { result ≡ held values.entry }
    {
        let mut list = [0; 5];
        let count = N.min(5);
        list[..count].copy_from_slice(&values[..count]);
        Values { list, count }
    }

    fn first(self) -> u64
        ensures { result ≡ first_of self }
    {
        self.list[0]
    }
}

ghost use Rattle.lines.specs.Line.{held, four_of};

pub fn done() -> Answer
    ensures { result ≡ Ok (held []) }
{
    Ok(Values::of([]))
}

// Four answers of one value as one, or the first refusal among them.
#[tactic(auto, unfolding(crate::specs::Line::four_of))]
pub fn four(a: Answer, b: Answer, c: Answer, d: Answer) -> Answer
    ensures { result ≡ four_of a b c d }
{
    let a = a?;
    let b = b?;
    let c = c?;
    let d = d?;
    Ok(Values::of([a.first(), b.first(), c.first(), d.first()]))
}
