// A whole log in one call: what its bytes are, and the lists that its calls fill.
#![tactic(auto)]

mod filling;
mod reading;

ghost use Rattle.std.specs.Prelude.{◌≡◌};
ghost use Rattle.book.specs.Written.{written_book, SameBook};
ghost use Rattle.play.specs.declared.Unplayed.TheVariants.{NotALog as not_a_log};
ghost use Rattle.play.specs.Playing.{checked, play_answer, play_after, answers_after};

use base::Refusal;
use book::lent::BookMut;
use rules::Head;

// What the bytes of a log are: its head, how many lines it has, and how many filling calls.
#[derive(Clone, Copy)]
pub struct Log {
    pub head: Head,
    pub lines: usize,
    pub calls: usize,
}

// Why bytes are no log, with the number of the line, from 1.
#[derive(Clone, Copy)]
pub enum NotALog {
    NoOpening,
    NotACall(usize),
    Refused(usize, Refusal),
}

// Why a log is not played.
#[derive(Clone, Copy)]
pub enum Unplayed {
    NotALog(NotALog),
    // 2: a list of the wrong length, or not a byte for each line
    Lengths,
}

impl From<NotALog> for Unplayed {
    ghost from_gives = { λ why unplayed. unplayed ≡ not_a_log why };

    fn from(why: NotALog) -> Unplayed {
        Unplayed::NotALog(why)
    }
}

#[tactic(auto, unfolding(crate::specs::Playing::checked))]
pub fn check(log: &[u8]) -> Result<Log, NotALog>
    ensures { result ≡ checked log.now }
{
    let opening = reading::find_opening(log)?;
    reading::following(log, opening)
}

pub fn play(log: &[u8], book: &mut BookMut<'_>, answers: &mut [u8]) -> Result<Log, Unplayed>
    ensures told { let bytes = log.now in
        let before = written_book book.old in
        (result ≡ play_answer bytes before answers.old)
        × (written_book book.new ≡ play_after bytes before answers.old)
        × (answers.new ≡ answers_after bytes before answers.old) }
    ensures same { SameBook book.old book.new }
{
    let found = check(log)?;
    if answers.len() != found.lines {
        return Err(Unplayed::Lengths);
    }
    let head = found.head;
    book::open(head, book).map_err(|_| Unplayed::Lengths)?;
    filling::fill_all(log, head, book, answers);
    Ok(found)
}
