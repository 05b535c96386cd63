// The planner's program. It is thin: what matters stands in the libraries.
#![tactic(auto)]

use anyhow::anyhow;
use std::env;
use std::process::ExitCode;

mod name;
mod plan_file;
mod price;
mod show;

const USAGE: &str = "\
kimdolur charts the ways a cable can lie between boulders

usage:
  kimdolur name CROSSINGS   the class that a list of crossings names:
                            a to g for the rays 1 to 7 forwards, A to G backwards, - for none
  kimdolur price PLAN FROM LANE.. [--class words|sides] [--cost length|slope]
                            the run from a point along lanes: what each lane comes to, its end, class and cost
  kimdolur show PLAN        what a plan file holds
  kimdolur --help           this text
";

// What the one argument of a command is; more or fewer are an error.
fn only(words: &[String]) -> anyhow::Result<&str> {
    match words {
        [argument] => Ok(argument.as_str()),
        _ => Err(anyhow!("the command takes one argument; kimdolur --help shows it")),
    }
}

fn run(rt: &HostRuntime) -> anyhow::Result<()> {
    let words = env::args(rt)?.skip(1).collect::<Vec<String>>(rt.alloc())?;
    let [command, rest @ ..] = words.as_slice() else {
        return Ok(rt.print(USAGE)?);
    };
    // a match, which shows what each command takes: a table of functions would want one signature for all
    match command.as_str() {
        "--help" => Ok(rt.print(USAGE)?),
        "name" => name::run(rt, only(rest)?),
        "price" => price::run(rt, rest),
        "show" => show::run(rt, only(rest)?),
        _ => Err(anyhow!("no such command; kimdolur --help lists them")),
    }
}

fn main(rt: HostRuntime) -> anyhow::Result<ExitCode> {
    match run(&rt) {
        Ok(()) => Ok(ExitCode::SUCCESS),
        Err(error) => {
            eprintln!(rt; "{error}")?;
            Ok(ExitCode::FAILURE)
        }
    }
}
