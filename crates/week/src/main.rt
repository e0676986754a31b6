// One page's week at the bench, from its writing on Monday to its way out of the house on Friday, told in words.
#![tactic(auto)]

mod label;
mod week;

use std::process::ExitCode;
use week::{Contents, Trouble, Week};

fn main(rt: HostRuntime) -> ExitCode {
    match run(&rt) {
        Ok(()) => ExitCode::SUCCESS,
        Err(trouble) => {
            // where standard error takes nothing either, the status alone tells it
            let _ = eprintln!(rt; "week: {trouble}");
            ExitCode::FAILURE
        }
    }
}

fn run(rt: &HostRuntime) -> Result<(), Trouble> {
    let label = Contents::of_label();
    let mut week = Week::monday(rt, &label)?;
    week.tuesday(rt, &label)?;
    week.wednesday(rt)?;
    week.thursday(rt, &label)?;
    week.friday(rt, &label)
}
