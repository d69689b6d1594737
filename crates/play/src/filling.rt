// The lines of a log made on the ten lists, each given them as the line before left them.
ghost use Rattle.std.specs.Prelude.{◌≡◌, length};
ghost use Rattle.book.specs.Filling.{after_all};
ghost use Rattle.book.specs.Written.{written_book, SameBook};
ghost use Rattle.text_log.specs.declared.limits.Limits.{Limits as limits_type};
ghost use Rattle.text_log.specs.Log.{item_in, items, lines as lines_of};
ghost use Rattle.play.specs.Playing.{item_code, after_item, codes, log_calls};

use book::lent::BookMut;
use book::{calls, codes};
use rules::Head;
use text_log::line::LogLine;
use text_log::lines;

// One line, whatever table it has.
#[tactic(auto, unfolding(crate::specs::Playing::item_code, crate::specs::Playing::after_item, text_log::specs::Log::item_in))]
fn play_line(head: Head, book: &mut BookMut<'_>, line: LogLine) -> u8
    ensures told { let before = written_book book.old in
        (limits : limits_type) → (result ≡ item_code head before (item_in line limits))
        × (written_book book.new ≡ after_item head before (item_in line limits)) }
    ensures same { SameBook book.old book.new }
{
    match line {
        LogLine::Passed | LogLine::Table | LogLine::NoCall => 103,
        LogLine::Open(_) => 102,
        LogLine::Fill(call) => codes::code_of(calls::make(head, book, call)),
    }
}

// Every line in order, a byte of `answers` for each.
pub fn fill_all(log: &[u8], head: Head, book: &mut BookMut<'_>, answers: &mut [u8])
    requires { length answers.old ≡ length (lines_of log.now) }
    ensures told { let before = written_book book.old in
        (answers.new ≡ codes head before (items log.now))
        × (written_book book.new ≡ after_all head before (log_calls log.now)) }
    ensures same { SameBook book.old book.new }
{
    let mut at = 0;
    // by place: the edit `answer_of_the_first` writes each answer to the first
    for i in 0..answers.len() {
        let found = lines::line_from(log, at);
        let line = found.line;
        let code = play_line(head, book, line);
        answers[i] = code;
        at = found.next;
    }
}
