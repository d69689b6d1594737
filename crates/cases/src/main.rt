// 01's section Cases and those of 02 as run code: each case is a book, filled and published by the public calls, and a line of output.
#![tactic(auto)]

mod answers;
mod books;
mod draws;
mod exports;
mod files;
mod late;
mod outcomes;
mod say;

use std::io;

fn main(rt: HostRuntime) -> io::Result<()> {
    files::whole(&rt)?;
    outcomes::demands(&rt)?;
    outcomes::linear(&rt)?;
    outcomes::lines(&rt)?;
    outcomes::references(&rt)?;
    files::dial(&rt)?;
    files::fogged(&rt)?;
    outcomes::scaled(&rt)?;
    outcomes::fitted(&rt)?;
    files::dates(&rt)?;
    outcomes::slips(&rt)?;
    files::slot_alone(&rt)?;
    answers::late(&rt)?;
    answers::lowest(&rt)?;
    answers::counted(&rt)?;
    outcomes::agreed(&rt)?;
    files::agreed(&rt)?;
    answers::agreed(&rt)?;
    answers::limits(&rt)?;
    exports::days(&rt)?;
    draws::first_ten(&rt)?;
    late::reaches(&rt)
}
