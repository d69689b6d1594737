// The rules of document 01: opening bounds, tests of a slot, filling, spans.
#![tactic(auto)]

pub mod direct;
pub mod filling;
pub mod limits;
pub mod linear;
pub mod opening;
pub mod outage;
pub mod pass;
pub mod range;
pub mod readings;
pub mod spans;
pub mod stretch;
pub mod tests;
pub mod walk;
pub mod weeks;

// The bounds of a book.
pub const MOST_DAYS: u32 = 400;

pub const DAY_MINUTES: u32 = 1440;

pub const MOST_TOLERANCE: u32 = 1_000_000;

pub const MOST_LIMIT: u32 = 1_000_000;

pub const MOST_MINUTES: u32 = 120;

pub const MOST_WIDTH: u32 = 9999;

// The five figures of a book's opening, which every later call is given; the first day is three of these fields, and the demand
// limit stands in the kind's stead.
#[derive(Clone, Copy)]
pub struct Head {
    pub year: u32,
    pub month: u32,
    pub day: u32,
    pub days: u32,
    pub interval: u32,
    pub limit: u32,
    pub tolerance: u32,
}

// The three lent lists of slots.
#[derive(Clone, Copy)]
pub struct Slots<'a> {
    pub values: &'a [u32],
    pub versions: &'a [u32],
    pub statuses: &'a [u8],
}

// The two lent lists of agreed values (02, W1).
#[derive(Clone, Copy)]
pub struct Agreed<'a> {
    pub values: &'a [u32],
    pub versions: &'a [u32],
}

// The nine lent lists.
#[derive(Clone, Copy)]
pub struct Cells<'a> {
    pub slots: Slots<'a>,
    pub holidays: &'a [u8],
    pub readings: &'a [u32],
    pub read_versions: &'a [u32],
    pub agreed: Agreed<'a>,
    // of the readings (02, W10)
    pub widths: &'a [u16],
}

// Actual, substituted, agreed, none.
#[derive(Clone, Copy)]
pub enum Quality {
    A,
    S,
    F,
    N,
}

// What is published of a slot.
#[derive(Clone, Copy)]
pub struct Outcome {
    pub value: u32,
    pub quality: Quality,
    pub method: u8,
}

// What is published of a span: its two boundaries, its lowest and highest advance, and its state.
#[derive(Clone, Copy)]
pub struct Span {
    pub first: u32,
    pub last: u32,
    pub lowest: u32,
    pub highest: u32,
    pub state: u8,
}
