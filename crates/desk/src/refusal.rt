// Why a call is refused: the rows of document 01's table, from 1 on.
ghost use Rattle.std.specs.Prelude.{◌≡◌};
ghost use Rattle.desk.specs.Refusing.{refusal_number, answered};

#[derive(Clone, Copy, Debug, PartialEq, Eq)]
pub enum Refusal {
    // A lent buffer has over 16,777,216 elements.
    TooLong = 1,
    BadState,
    // A width over 32, or a value that needs more bits than its width.
    BadWidth,
    BitsRunOut,
    // More than 31 zeros before a code's one.
    ExpGolombTooLarge,
    RemainingData,
    ForbiddenByte,
    EmptyNal,
    // A value that no code has.
    NoCode,
    NoRoom,
    BadGeometry,
    BadMapType,
    BadRunLength,
    InvalidTopLeft,
    InvalidBottomRight,
    BadChangeRate,
    BadPicSize,
    BadNumRefIdx,
}

impl Refusal {
    // By a name, and no `From`: a u8 alone would not say that it is the table's number.
    pub fn number(self) -> u8
        ensures { result ≡ refusal_number self }
    {
        self as u8
    }
}

// The number of an answer: 0, or that of its refusal. By a name, as `Refusal::number`.
pub fn number<T>(answer: &Result<T, Refusal>) -> u8
    ensures { result ≡ answered answer.now }
{
    match answer {
        Ok(_) => 0,
        Err(why) => why.number(),
    }
}
