// Reads files of requests, and prints a line for each answer.
#![tactic(auto)]

mod failure;
mod options;
mod room;

use answer::answer;
use failure::Failure;
use options::Options;
use records::{Records, wanted_room};
use reply::{line, write_answer};
use room::Room;
use std::alloc::{AllocError, Global};
use std::fs;
use std::io::Read;
use std::process::ExitCode;

// The line that is printed for a request, which is lent as much room as it asks for, and no more.
fn answer_line(
    heap: Global,
    request: &[u8],
    options: &Options,
    room: &mut Room,
) -> Result<String, AllocError> {
    let wanted = wanted_room(request).min(options.most_room);
    let lent = room.lend(heap, wanted);
    let answer = answer(heap, request, lent)?;
    if options.hex {
        return hex::encode(heap, write_answer(heap, &answer, lent)?);
    }
    line(heap, &answer, lent)
}

// A line for each request of a file, as soon as it is answered.
fn answer_all(rt: &HostRuntime, name: &str, file: &[u8], options: &Options) -> Result<(), Failure> {
    let mut room = Room::new(rt.alloc());
    for record in Records::new(file) {
        let Ok(line) = answer_line(rt.alloc(), record.request, options, &mut room) else {
            let at = record.at;
            return Err(Failure::Unanswered(format!(in rt.alloc();
                "{name}: byte {at}: not enough memory"
            )?));
        };
        rt.println(line)?;
    }
    Ok(())
}

// The whole file, or all of standard input.
fn read_file(rt: &HostRuntime, name: &str) -> Result<Vec<u8>, Failure> {
    if name == "-" {
        let mut bytes = Vec::new(rt.alloc());
        rt.stdin().read_to_end(&mut bytes)?;
        return Ok(bytes);
    }
    fs::read(rt, name).try_map_err(|error| {
        let mut about = String::from_str(rt.alloc(), name)?;
        about.push_str(": ")?;
        Ok(Failure::Unread { about, error })
    })
}

fn run(rt: &HostRuntime) -> Result<(), Failure> {
    let options = Options::read(rt)?;
    if options.help {
        rt.print(options::HELP)?;
        return Ok(());
    }
    for name in &options.files {
        let file = read_file(rt, name)?;
        answer_all(rt, name, &file, &options)?;
    }
    Ok(())
}

// An error is told on standard error; where that can't be written to either, the status alone tells.
fn main(rt: HostRuntime) -> ExitCode {
    let Err(failure) = run(&rt) else {
        return ExitCode::SUCCESS;
    };
    let _ = eprintln!(rt; "vanadiummole: {failure}");
    ExitCode::FAILURE
}
