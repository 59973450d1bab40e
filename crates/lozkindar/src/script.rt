// The script: the lines of a file or of standard input, and what is said of them.
use crate::command::{BenchAct, Command, Complaint, Plan};
use crate::{command, compare_tools};
use compare::Node;
use device::DeviceFault;
use link::LinkFault;
use refusal::Refusal;
use std::alloc::{AllocError, Global};
use std::io::{BufRead, Split};
use std::iter::Zip;
use std::ops::RangeFrom;
use std::{fmt, io, str};

// What a command that was followed is answered with.
#[derive(Drop)]
pub enum Answer {
    Done,
    Value(String),
    // An answer with lines for a person below it, each with its end.
    Told { answer: String, lines: String },
}

// Why a line was not followed.
#[derive(Drop)]
pub enum Stop {
    Refused(Refusal),
    Complaint(Complaint),
    // What failed outside the cards, as a file that cannot be read.
    Trouble(String),
    // This ends the run.
    Memory(AllocError),
}

impl From<Refusal> for Stop {
    fn from(refusal: Refusal) -> Stop {
        Stop::Refused(refusal)
    }
}

// One `From` over every fault that is told as a refusal would overlap with the others here.
impl From<DeviceFault> for Stop {
    fn from(fault: DeviceFault) -> Stop {
        Stop::Refused(fault.into())
    }
}

impl From<LinkFault> for Stop {
    fn from(fault: LinkFault) -> Stop {
        Stop::Refused(fault.into())
    }
}

impl From<Complaint> for Stop {
    fn from(complaint: Complaint) -> Stop {
        Stop::Complaint(complaint)
    }
}

impl From<AllocError> for Stop {
    fn from(error: AllocError) -> Stop {
        Stop::Memory(error)
    }
}

// What the devices and the link are made anew for.
#[derive(Drop)]
pub enum Change {
    New(Plan),
    // A file's bytes onto a card.
    Load {
        node: Node,
        file: String,
    },
    // Whole blocks onto a card, from one on.
    Put {
        node: Node,
        block: usize,
        bytes: Vec<u8>,
    },
}

// What a line comes to that is followed.
#[derive(Drop)]
pub enum Step {
    // A blank line or a comment.
    Nothing,
    Answered(Answer),
    Anew(Change),
}

// What is there for the commands on cards and a link.
pub trait Ground {
    fn act(&mut self, rt: &HostRuntime, act: BenchAct<'_>) -> Result<Step, Stop>;
}

#[derive(Drop)]
pub struct Line {
    bytes: Vec<u8>,
    number: u64,
}

impl Line {
    fn body(&self) -> Result<&str, Complaint> {
        let text = str::from_utf8(self.bytes.as_slice()).map_err(|_| Complaint::NotText)?;
        Ok(command::body(text.trim_end_matches('\r')))
    }

    // The command as it is printed before its answer; none where the line is not text.
    fn command(&self) -> &str {
        self.body().unwrap_or("")
    }

    fn step<G: Ground>(&self, rt: &HostRuntime, ground: &mut G) -> Result<Step, Stop> {
        match command::parse(self.body()?)? {
            None => Ok(Step::Nothing),
            Some(Command::New(plan)) => Ok(Step::Anew(Change::New(plan.fitting()?))),
            Some(Command::Compare { zero, one, word }) => {
                let answer = compare_tools::compared(rt.alloc(), zero, one, word)?;
                Ok(Step::Answered(answer))
            }
            Some(Command::OnBench(act)) => ground.act(rt, act),
        }
    }
}

// A line that has the devices and the link made anew, and is followed and answered after that.
#[derive(Drop)]
pub struct Anew {
    pub line: Line,
    pub change: Change,
}

// What is printed of the lines, and how many of them were trouble.
#[derive(Drop)]
struct Report {
    troubles: u64,
}

impl Report {
    // Prints the command and its answer, or what is wrong with the line.
    fn tell(
        &mut self,
        rt: &HostRuntime,
        line: &Line,
        said: Result<Answer, Stop>,
    ) -> anyhow::Result<()> {
        // Trouble is told by the line's number: so only an answer looks for the command.
        match said {
            Ok(Answer::Done) => println!(rt; "{} -> ok", line.command())?,
            Ok(Answer::Value(value)) => println!(rt; "{} -> ok {value}", line.command())?,
            Ok(Answer::Told { answer, lines }) => {
                print!(rt; "{} -> {answer}\n{lines}", line.command())?
            }
            Err(Stop::Refused(refusal)) => println!(rt; "{} -> {refusal}", line.command())?,
            Err(Stop::Complaint(complaint)) => self.trouble(rt, line, complaint)?,
            Err(Stop::Trouble(what)) => self.trouble(rt, line, what)?,
            Err(Stop::Memory(error)) => return Err(error.into()),
        }
        Ok(())
    }

    fn trouble<T: fmt::Display + Drop>(
        &mut self,
        rt: &HostRuntime,
        line: &Line,
        what: T,
    ) -> io::Result<()> {
        let number = line.number;
        self.troubles = self.troubles.saturating_add(1);
        println!(rt; "line {number}: {what}")
    }
}

#[derive(Drop)]
pub struct Script<B> {
    lines: Zip<Split<B>, RangeFrom<u64>>,
    report: Report,
}

impl<B: BufRead + Drop> Script<B> {
    pub fn new(heap: Global, input: B) -> Script<B> {
        Script {
            lines: input.split(heap, b'\n').zip(1..),
            report: Report { troubles: 0 },
        }
    }

    // How many lines were trouble.
    pub fn troubles(&self) -> u64 {
        self.report.troubles
    }

    // Follows the lines up to one that has the devices and the link made anew; none at the end.
    pub fn follow<G: Ground>(
        &mut self,
        rt: &HostRuntime,
        ground: &mut G,
    ) -> anyhow::Result<Option<Anew>> {
        for (bytes, number) in &mut self.lines {
            let line = Line {
                bytes: bytes?,
                number,
            };
            match line.step(rt, ground) {
                Ok(Step::Nothing) => {}
                Ok(Step::Anew(change)) => return Ok(Some(Anew { line, change })),
                Ok(Step::Answered(answer)) => self.report.tell(rt, &line, Ok(answer))?,
                Err(stop) => self.report.tell(rt, &line, Err(stop))?,
            }
        }
        Ok(None)
    }

    // Tells what a line came to that had them made anew, and lets the line go before more are read.
    pub fn tell(
        &mut self,
        rt: &HostRuntime,
        line: Line,
        said: Result<Answer, Stop>,
    ) -> anyhow::Result<()> {
        self.report.tell(rt, &line, said)
    }
}
