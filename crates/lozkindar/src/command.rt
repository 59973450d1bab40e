// The command language: one command a line, its words parted by spaces.
use card::making::data_blocks;
use compare::{Role, Side};
use refusal::Refusal;
use std::str::FromStr;
use std::{fmt, mem};

#[derive(Clone, Copy)]
pub enum Make {
    Flat,
    Image,
}

#[derive(Clone, Copy)]
pub enum LinkKind {
    Slot,
    Hop,
}

// A card as `new` asks for it.
#[derive(Clone, Copy)]
pub struct CardPlan {
    pub make: Make,
    pub blocks: usize,
    pub slots: usize,
}

// What `new` asks for: two cards, and the link between them.
#[derive(Clone, Copy)]
pub struct Plan {
    pub zero: CardPlan,
    pub one: CardPlan,
    pub link: LinkKind,
}

#[derive(Clone, Copy)]
pub enum Command<'a> {
    New(Plan),
    Compare { zero: Side, one: Side, word: u64 },
    OnBench(BenchAct<'a>),
}

// What is done with the cards and the link that were made.
#[derive(Clone, Copy)]
pub enum BenchAct<'a> {
    Load { node: usize, file: &'a str },
    Poke { node: usize, damage: Damage },
    Show,
    OnCard { node: usize, act: CardAct<'a> },
    OnLink(LinkAct<'a>),
}

// Another value for one byte of a card.
#[derive(Clone, Copy)]
pub struct Damage {
    pub block: usize,
    pub byte: usize,
    pub value: u64,
}

// What is done straight on one card.
#[derive(Clone, Copy)]
pub enum CardAct<'a> {
    // So many block writes, or mains.
    Power(u64),
    Write { block: usize, text: &'a str },
    Read(usize),
    Save(&'a str),
    Check,
}

// What is done straight on the link; a way goes by the node that sends on it.
#[derive(Clone, Copy)]
pub enum LinkAct<'a> {
    Open,
    Cut,
    Send { node: usize, text: &'a str },
    Take { node: usize },
}

// Why a line is not followed.
#[derive(Clone, Copy)]
pub enum Complaint {
    NotText,
    Unknown,
    Missing(&'static str),
    NotANumber(&'static str),
    NotAFlag(&'static str),
    NotAMake,
    NotALink,
    TooMuch,
    NoCards,
}

impl fmt::Display for Complaint {
    fn fmt<W: fmt::Write>(&self, f: &mut fmt::Formatter<W>) -> fmt::Result {
        match *self {
            Complaint::NotText => write!(f, "not UTF-8"),
            Complaint::Unknown => write!(f, "no such command"),
            Complaint::Missing(what) => write!(f, "{what} is missing"),
            Complaint::NotANumber(what) => write!(f, "{what} is not a number"),
            Complaint::NotAFlag(what) => write!(f, "{what} is not 0 or 1"),
            Complaint::NotAMake => write!(f, "a card is flat or image"),
            Complaint::NotALink => write!(f, "a link is slot or hop"),
            Complaint::TooMuch => write!(f, "more words than the command takes"),
            Complaint::NoCards => write!(f, "no cards yet: make them with new"),
        }
    }
}

impl FromStr for Make {
    type Err = Complaint;

    fn from_str(word: &str) -> Result<Make, Complaint> {
        match word {
            "flat" => Ok(Make::Flat),
            "image" => Ok(Make::Image),
            _ => Err(Complaint::NotAMake),
        }
    }
}

impl FromStr for LinkKind {
    type Err = Complaint;

    fn from_str(word: &str) -> Result<LinkKind, Complaint> {
        match word {
            "slot" => Ok(LinkKind::Slot),
            "hop" => Ok(LinkKind::Hop),
            _ => Err(Complaint::NotALink),
        }
    }
}

impl CardPlan {
    // 4 to 4,099 blocks, and 4 to 16 slots, where 0 asks for the default.
    fn fits(self) -> bool {
        data_blocks(self.blocks).is_ok() && matches!(self.slots, 0 | 4..=16)
    }
}

impl Plan {
    // Two cards that can be had, of equal count.
    pub fn fitting(self) -> Result<Plan, Refusal> {
        if self.zero.blocks == self.one.blocks && self.zero.fits() && self.one.fits() {
            return Ok(self);
        }
        Err(Refusal::Measure)
    }
}

// The command in a line: without the blanks around it, and without a comment. A text goes on to the line's end.
pub fn body(line: &str) -> &str {
    let start = line.trim_start();
    if takes_text(before(start, ' ')) {
        return start;
    }
    before(start, '#').trim_end()
}

// The text up to a mark; all of it where there is none.
fn before(text: &str, mark: char) -> &str {
    text.split_once(mark).map_or(text, |(before, _)| before)
}

fn takes_text(verb: &str) -> bool {
    matches!(verb, "card-write" | "link-send")
}

// The words of a command that are still to be read.
#[derive(Drop)]
struct Words<'a> {
    rest: &'a str,
}

impl<'a> Iterator for Words<'a> {
    type Item = &'a str;

    fn next(&mut self) -> Option<&'a str> {
        let text = self.rest.trim_start();
        if text.is_empty() {
            return None;
        }
        let (word, rest) = text.split_once(' ').unwrap_or((text, ""));
        self.rest = rest;
        Some(word)
    }
}

impl<'a> Words<'a> {
    fn word(&mut self, what: &'static str) -> Result<&'a str, Complaint> {
        self.next().ok_or(Complaint::Missing(what))
    }

    fn number(&mut self, what: &'static str) -> Result<u64, Complaint> {
        let word = self.word(what)?;
        text::number(word).ok_or(Complaint::NotANumber(what))
    }

    // A number that says which, or how many.
    fn index(&mut self, what: &'static str) -> Result<usize, Complaint> {
        Ok(self.number(what)? as usize)
    }

    fn flag(&mut self, what: &'static str) -> Result<bool, Complaint> {
        match self.number(what)? {
            0 => Ok(false),
            1 => Ok(true),
            _ => Err(Complaint::NotAFlag(what)),
        }
    }

    // All that is left, from the next character on.
    fn text(&mut self) -> &'a str {
        mem::replace(&mut self.rest, "")
    }

    fn card_plan(&mut self) -> Result<CardPlan, Complaint> {
        Ok(CardPlan {
            make: self.word("a card's make")?.parse()?,
            blocks: self.index("the count of blocks")?,
            slots: self.index("the count of slots")?,
        })
    }

    fn plan(&mut self) -> Result<Plan, Complaint> {
        Ok(Plan {
            zero: self.card_plan()?,
            one: self.card_plan()?,
            link: self.word("the link's kind")?.parse()?,
        })
    }

    fn damage(&mut self) -> Result<Damage, Complaint> {
        Ok(Damage {
            block: self.index("the block")?,
            byte: self.index("the byte")?,
            value: self.number("the value")?,
        })
    }

    // A node's side of a comparison.
    fn side(&mut self) -> Result<Side, Complaint> {
        Ok(Side {
            current: self.number("a current generation")?,
            bitmap: self.number("a bitmap generation")?,
            recent: self.number("a first history")?,
            older: self.number("a second history")?,
            consistent: self.flag("a consistent flag")?,
            primary: self.flag("a primary flag")?,
            role: Role::from(self.flag("a role")?),
            bits: self.number("a count of bits")?,
        })
    }

    fn command(&mut self, verb: &str) -> Result<Command<'a>, Complaint> {
        Ok(match verb {
            "new" => Command::New(self.plan()?),
            "compare" => Command::Compare {
                zero: self.side()?,
                one: self.side()?,
                word: self.number("the word")?,
            },
            _ => Command::OnBench(self.bench_act(verb)?),
        })
    }

    fn bench_act(&mut self, verb: &str) -> Result<BenchAct<'a>, Complaint> {
        Ok(match verb {
            "load" => BenchAct::Load {
                node: self.index("the node")?,
                file: self.word("the file")?,
            },
            "poke" => BenchAct::Poke {
                node: self.index("the node")?,
                damage: self.damage()?,
            },
            "show" => BenchAct::Show,
            "power" => BenchAct::OnCard {
                node: self.index("the node")?,
                act: CardAct::Power(self.number("the supply")?),
            },
            "card-write" => BenchAct::OnCard {
                node: self.index("the node")?,
                act: CardAct::Write {
                    block: self.index("the block")?,
                    text: self.text(),
                },
            },
            "card-read" => BenchAct::OnCard {
                node: self.index("the node")?,
                act: CardAct::Read(self.index("the block")?),
            },
            "save" => BenchAct::OnCard {
                node: self.index("the node")?,
                act: CardAct::Save(self.word("the file")?),
            },
            "check" => BenchAct::OnCard {
                node: self.index("the node")?,
                act: CardAct::Check,
            },
            _ => BenchAct::OnLink(self.link_act(verb)?),
        })
    }

    fn link_act(&mut self, verb: &str) -> Result<LinkAct<'a>, Complaint> {
        Ok(match verb {
            "link-open" => LinkAct::Open,
            "link-cut" => LinkAct::Cut,
            "link-send" => LinkAct::Send {
                node: self.index("the way")?,
                text: self.text(),
            },
            "link-take" => LinkAct::Take {
                node: self.index("the way")?,
            },
            _ => return Err(Complaint::Unknown),
        })
    }
}

// The command of a body that has one, which a blank line or a comment has not.
pub fn parse(body: &str) -> Result<Option<Command<'_>>, Complaint> {
    let mut words = Words { rest: body };
    let Some(verb) = words.next() else {
        return Ok(None);
    };
    let command = words.command(verb)?;
    match words.next() {
        Some(_) => Err(Complaint::TooMuch),
        None => Ok(Some(command)),
    }
}
