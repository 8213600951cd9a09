// uplift: settles a day's text and tells each answer, a party's statement or the journal of the day.
#![tactic(auto)]

mod console;
mod help;
mod order;
mod sample;

use crate::console::Console;
use crate::help::{HELP, USAGE};
use crate::order::{Command, Order};
use crate::sample::SAMPLE;
use dayrun::report::{Report, Run};
use dayrun::run::run;
use dayrun::teller::{Manner, Tally};
use statement::journal::Journal;
use statement::statement::Statement;
use std::fs::File;
use std::io::{Read, Write};
use std::process::ExitCode;
use std::{env, io};

// The status where the words of the call ask for nothing that there is.
const UNCLEAR: u8 = 2;

// The status of a day: 1 where a record was malformed.
fn status_of(tally: Tally) -> ExitCode {
    if tally.malformed == 0 {
        ExitCode::SUCCESS
    } else {
        ExitCode::FAILURE
    }
}

// Does a text and makes the report of it.
fn make<I: Read, R: Report>(
    rt: &HostRuntime,
    progress: bool,
    input: &mut I,
    report: &mut R,
) -> io::Result<Tally> {
    run(rt.alloc(), input, report, &mut Console { rt, progress })
}

// The same with the text of the file of that name, or of the standard input.
fn make_of<R: Report>(
    rt: &HostRuntime,
    progress: bool,
    file: Option<&str>,
    report: &mut R,
) -> io::Result<Tally> {
    match file {
        Some("-") | None => make(rt, progress, &mut rt.stdin(), report),
        Some(path) => make(rt, progress, &mut File::open(rt, path)?, report),
    }
}

// What is told of the records that are not answered.
fn tell_left_out(rt: &HostRuntime, tally: Tally) -> io::Result<()> {
    if tally.refused > 0 || tally.malformed > 0 {
        eprintln!(rt; "uplift: {tally}; `uplift run` tells which, and why")?;
    }
    Ok(())
}

// Does what is asked for.
fn work(rt: &HostRuntime, order: Order<'_>) -> io::Result<ExitCode> {
    let Order {
        command,
        file,
        progress,
    } = order;
    match command {
        Command::Help => {
            rt.stdout().write_all(HELP.as_bytes())?;
            Ok(ExitCode::SUCCESS)
        }
        Command::Demo => {
            let mut shown = Run {
                manner: Manner::SHOWN,
            };
            let mut sample = SAMPLE.as_bytes();
            Ok(status_of(make(rt, progress, &mut sample, &mut shown)?))
        }
        Command::Run { explains } => {
            let manner = if explains {
                Manner::EXPLAINED
            } else {
                Manner::PLAIN
            };
            Ok(status_of(make_of(rt, progress, file, &mut Run { manner })?))
        }
        Command::Statement { party } => {
            let mut statement = Statement::new(rt.alloc(), party.map(str::as_bytes));
            let tally = make_of(rt, progress, file, &mut statement)?;
            tell_left_out(rt, tally)?;
            if !statement.told && party.is_some() {
                eprintln!(rt;
                    "uplift: the day has no party of that name, or no book: give a code or # and a number"
                )?;
                return Ok(ExitCode::from(UNCLEAR));
            }
            Ok(status_of(tally))
        }
        Command::Journal { date } => {
            let tally = make_of(rt, progress, file, &mut Journal { date })?;
            tell_left_out(rt, tally)?;
            Ok(status_of(tally))
        }
    }
}

fn start(rt: &HostRuntime) -> io::Result<ExitCode> {
    let words: Vec<String> = env::args(rt)?.skip(1).collect(rt.alloc())?;
    match Order::of(words.as_slice()) {
        Ok(order) => work(rt, order),
        Err(_) => {
            eprintln!(rt; "{USAGE}")?;
            Ok(ExitCode::from(UNCLEAR))
        }
    }
}

// Where the text cannot be read or an answer not be written, the standard error says why.
fn main(rt: HostRuntime) -> io::Result<ExitCode> {
    match start(&rt) {
        Ok(code) => Ok(code),
        Err(e) => {
            eprintln!(rt;
                "uplift: {e}: see that the file is there and can be read, and that the answers can be written"
            )?;
            Ok(ExitCode::FAILURE)
        }
    }
}
