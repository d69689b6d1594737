// A whole log, and one line of it.
ghost use Rattle.std.specs.Prelude.{◌≡◌};
ghost use Rattle.book.specs.Lent.{lent_book};
ghost use Rattle.play.specs.Playing.{checked, play_answer, play_after, answers_after};
ghost use Rattle.questions.specs.Logs.{check_line, log_code, log_after, played_code};
ghost use Rattle.questions.specs.Logs.{one_code, one_fields};

#[unsafe(no_mangle)]
pub extern "C" fn sawmauve_log(log: &[u8], figures: &mut [u64]) -> u32
    ensures { (result ≡ log_code log.now figures.old)
        × (figures.new ≡ log_after log.now figures.old) }
{
    questions::logs::sawmauve_log(log, figures)
}

#[unsafe(no_mangle)]
pub extern "C" fn sawmauve_log_line(log: &[u8]) -> u64
    ensures { result ≡ check_line (checked log.now) }
{
    questions::logs::sawmauve_log_line(log)
}

#[unsafe(no_mangle)]
pub extern "C" fn sawmauve_play(
    log: &[u8],
    values: &mut [u32],
    versions: &mut [u32],
    statuses: &mut [u8],
    holidays: &mut [u8],
    readings: &mut [u32],
    read_versions: &mut [u32],
    agreed: &mut [u32],
    agreed_versions: &mut [u32],
    counts: &mut [u16],
    widths: &mut [u16],
    answers: &mut [u8],
) -> u32
    ensures { let bytes = log.now in
        let book =
        lent_book values.old versions.old statuses.old holidays.old readings.old read_versions.old
        agreed.old agreed_versions.old counts.old widths.old in
        (result ≡ played_code (play_answer bytes book answers.old))
        × (lent_book values.new versions.new statuses.new holidays.new readings.new read_versions.new
        agreed.new agreed_versions.new counts.new widths.new
        ≡ play_after bytes book answers.old)
        × (answers.new ≡ answers_after bytes book answers.old) }
{
    questions::logs::sawmauve_play(
        log,
        values,
        versions,
        statuses,
        holidays,
        readings,
        read_versions,
        agreed,
        agreed_versions,
        counts,
        widths,
        answers,
    )
}

#[unsafe(no_mangle)]
pub extern "C" fn sawmauve_call(line: &[u8], fields: &mut [u32]) -> u32
    ensures { (result ≡ one_code line.now fields.old)
        × (fields.new ≡ one_fields line.now fields.old) }
{
    questions::logs::sawmauve_call(line, fields)
}
