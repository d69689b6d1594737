// What every layer names: words over lists and stretches of places, numbered rules and the first broken one, and texts as bytes, in specs/.
#![tactic(auto)]

ghost use Rattle.std.specs.Prelude.{◌≡◌};
ghost use Rattle.base.specs.Refusals.{number_of, code_of, length_code, number_code};

// The largest number of eight digits.
pub const EIGHT_DIGITS: u32 = 99_999_999;

// Where an eight-digit dial begins again at 0.
pub const DIAL_MODULUS: u32 = 100_000_000;

// Why a call is refused, by 01's and 02's number.
#[derive(Clone, Copy, PartialEq, Eq)]
pub enum Refusal {
    // a head, an interval or a kind
    OutsideBounds = 1,
    // of a lent list
    WrongLength = 2,
    // no slot, day or boundary of the book
    NoPlace = 3,
    VersionZero = 4,
    StatusOver = 5,
    ReadingOver = 6,
    ShortBuffer = 7,
    // of a file: its length, distance or layout, or a head field of its trailer
    WrongFrame = 8,
    // anything else in a file
    WrongContent = 9,
    // equal version, other content
    Conflict = 10,
    // a cell that no calls could leave
    ImpossibleCell = 11,
    AgreedOver = 12,
    // a table of demand limits
    WrongLimits = 13,
    WrongIdentifier = 14,
    // a header text, a creation time or a method code
    WrongText = 15,
    HalfByteOver = 16,
    WidthOver = 17,
    WrongPairs = 18,
    WrongStay = 19,
    SeedZero = 20,
    LossOver = 21,
    // a slot table or its strips
    WrongTable = 22,
}

impl Refusal {
    // the papers' number
    pub fn number(self) -> u8
        ensures { result ≡ number_of self }
    {
        self as u8
    }
}

// 0, or the refusal's number.
pub fn code_of<T: Drop>(answer: Result<T, Refusal>) -> u32
    ensures { result ≡ code_of answer }
{
    match answer {
        Ok(_) => 0,
        Err(refusal) => refusal.number() as u32,
    }
}

// A length, which is above every refusal's number, or the refusal's number.
pub fn length_code(answer: Result<usize, Refusal>) -> u64
    ensures { result ≡ length_code answer }
{
    match answer {
        Ok(length) => length as u64,
        Err(refusal) => refusal.number() as u64,
    }
}

// A number of eight digits at most, or 100,000,000 plus the refusal's number.
pub fn number_code(answer: Result<u32, Refusal>) -> u32
    ensures { result ≡ number_code answer }
{
    match answer {
        Ok(number) => number,
        Err(refusal) => DIAL_MODULUS + refusal.number() as u32,
    }
}
