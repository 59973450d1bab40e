// Lozkindar's program: follows a script of commands, one a line, from a file or from standard input.
#![tactic(auto)]

mod any_device;
mod bench;
mod card_tools;
mod command;
mod compare_tools;
mod link_tools;
mod run;
mod script;

use crate::bench::Bench;
use crate::command::{BenchAct, Complaint};
use crate::script::{Change, Ground, Script, Step, Stop};
use anyhow::anyhow;
use std::io::{BufRead, BufReader};
use std::rt::Files;
use std::{env, fs};

// Before there are cards.
#[derive(Drop)]
struct NoCards;

impl Ground for NoCards {
    fn act(&mut self, _rt: &HostRuntime, _act: BenchAct<'_>) -> Result<Step, Stop> {
        Err(Stop::Complaint(Complaint::NoCards))
    }
}

fn follow<B: BufRead + Drop>(rt: &HostRuntime, input: B) -> anyhow::Result<()> {
    let mut script = Script::new(rt.alloc(), input);
    let mut bench: Option<Bench> = None;
    let mut next = script.follow(rt, &mut NoCards)?;
    // Each round takes a line, and the lines end. A `while let` was tried: its measure is how many lines are left, and after a `for`
    // over `&mut self.lines` in `Script::follow` the proof knows nothing of that.
    for _ in 0..u64::MAX {
        let Some(anew) = next else { break };
        if let Change::New(plan) = &anew.change {
            bench = Some(Bench::new(rt.alloc(), plan)?);
        }
        let Some(bench) = &mut bench else {
            return Err(anyhow!("there are no cards to change"));
        };
        next = bench.follow(rt, &mut script, anew)?;
    }
    match script.troubles() {
        0 => Ok(()),
        _ => Err(anyhow!("some lines were not followed; their answers begin with their number")),
    }
}

fn start(rt: &HostRuntime) -> anyhow::Result<()> {
    let mut words = env::args(rt)?.skip(1);
    match words.next() {
        Some(path) => follow(
            rt,
            BufReader::new(rt.alloc(), fs::open(rt, path.as_str())?)?,
        ),
        None => follow(rt, rt.stdin().lock()),
    }
}

fn main(rt: HostRuntime) -> anyhow::Result<()> {
    start(&rt)
}
