// Runs a page script, from the file that is named as the one argument or from standard input, and prints an answer for each command.
#![tactic(auto)]

mod answer;
mod bench;

use anyhow::anyhow;
use bench::Bench;
use std::fs::File;
use std::io::{BufRead, BufReader};
use std::process::ExitCode;
use std::{env, io};

fn main(rt: HostRuntime) -> ExitCode {
    match run(&rt) {
        Ok(()) => ExitCode::SUCCESS,
        Err(error) => {
            // where standard error takes nothing either, the status alone tells it
            let _ = eprintln!(rt; "almp: {error}");
            ExitCode::FAILURE
        }
    }
}

fn run(rt: &HostRuntime) -> anyhow::Result<()> {
    match script_name(rt)? {
        Some(name) => match File::open(rt, name.as_str()) {
            Ok(file) => answer_all(rt, BufReader::new(rt.alloc(), file)?)?,
            Err(error) => return Err(anyhow!(format!(in rt.alloc(); "{name}: {error}")?)),
        },
        None => answer_all(rt, BufReader::new(rt.alloc(), rt.stdin())?)?,
    }
    Ok(())
}

// The one argument, where there is one.
fn script_name(rt: &HostRuntime) -> anyhow::Result<Option<String>> {
    let mut arguments = env::args(rt)?.skip(1);
    let name = arguments.next();
    if arguments.next().is_some() {
        return Err(anyhow!("give one script, or none to read standard input"));
    }
    Ok(name)
}

// Answers each line up to the end of the input. Nothing says that an input ends, so the lines are counted.
fn answer_all<R: BufRead + Drop>(rt: &HostRuntime, mut input: R) -> io::Result<()> {
    let heap = rt.alloc();
    let mut bench = Bench::new();
    let mut line = Vec::new(heap);
    for _ in 0..u64::MAX {
        line.clear();
        if input.read_until(b'\n', &mut line)? == 0 {
            break;
        }
        match bench.answer(heap, without_end(line.as_slice())) {
            Ok(Some(answer)) => println!(rt; "{answer}")?,
            Ok(None) => {}
            Err(failure) => println!(rt; "{failure}")?,
        }
    }
    Ok(())
}

// A line without its newline, and without a carriage return before that.
fn without_end(line: &[u8]) -> &[u8] {
    match line {
        [text @ .., b'\r', b'\n'] => text,
        [text @ .., b'\n'] => text,
        _ => line,
    }
}
