// The lent lists of a book that calls write.
ghost use Rattle.std.specs.Prelude.{◌≡◌};
ghost use Rattle.book.specs.Lent.{book_in};
ghost use Rattle.book.specs.Written.{written_book};

use crate::Book;

// The three lists of slots.
#[derive(Drop)]
pub struct SlotsMut<'a> {
    pub values: &'a mut [u32],
    pub versions: &'a mut [u32],
    pub statuses: &'a mut [u8],
}

// The three lists of boundaries (02, W10).
#[derive(Drop)]
pub struct ReadsMut<'a> {
    pub readings: &'a mut [u32],
    pub read_versions: &'a mut [u32],
    pub widths: &'a mut [u16],
}

// The two lists of agreed values (02, W1).
#[derive(Drop)]
pub struct AgreedMut<'a> {
    pub values: &'a mut [u32],
    pub versions: &'a mut [u32],
}

// All ten, side by side: of structs within a struct, whoever makes it of its own lists would know nothing of them afterwards.
#[derive(Drop)]
pub struct BookMut<'a> {
    pub values: &'a mut [u32],
    pub versions: &'a mut [u32],
    pub statuses: &'a mut [u8],
    pub holidays: &'a mut [u8],
    pub readings: &'a mut [u32],
    pub read_versions: &'a mut [u32],
    pub agreed: &'a mut [u32],
    pub agreed_versions: &'a mut [u32],
    pub counts: &'a mut [u16],
    pub widths: &'a mut [u16],
}

impl BookMut<'_> {
    // The same lists, lent to be read.
    pub fn as_book(&self) -> Book<'_>
        ensures { book_in result ≡ written_book self.now }
    {
        Book::of(
            self.values,
            self.versions,
            self.statuses,
            self.holidays,
            self.readings,
            self.read_versions,
            self.agreed,
            self.agreed_versions,
            self.counts,
            self.widths,
        )
    }
}
