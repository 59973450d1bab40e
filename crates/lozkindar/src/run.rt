// Following the script over two cards and a link, of any makes.
use crate::command::{BenchAct, Damage};
use crate::script::{Anew, Answer, Change, Ground, Script, Step, Stop};
use crate::{card_tools, link_tools};
use card::making::create;
use compare::Node;
use device::Device;
use link::Link;
use std::alloc::Global;
use std::io::BufRead;

// Two cards and the link between them.
#[derive(Drop)]
pub struct Cards<D, L> {
    pub zero: D,
    pub one: D,
    pub link: L,
}

impl<D: Device, L: Link> Cards<D, L> {
    fn card(&mut self, node: Node) -> &mut D {
        match node {
            Node::Zero => &mut self.zero,
            Node::One => &mut self.one,
        }
    }

    // What a line comes to that had the devices and the link made anew.
    fn begin(&mut self, rt: &HostRuntime, change: Change) -> Result<Answer, Stop> {
        match change {
            Change::New(plan) => {
                create(&mut self.zero, plan.zero.slots)?;
                create(&mut self.one, plan.one.slots)?;
            }
            Change::Load { node, file } => {
                let card = self.card(node);
                // It may have changed since: it is looked at once more, and then read.
                card_tools::card_in(rt, file.as_str(), card.count())?;
                let bytes = card_tools::card_in(rt, file.as_str(), card.count())?;
                card_tools::put(card, 0, bytes.as_slice())?;
            }
            Change::Put { node, block, bytes } => {
                card_tools::put(self.card(node), block, bytes.as_slice())?;
            }
        }
        Ok(Answer::Done)
    }

    // The file is looked at first, so that one that is no card leaves the devices and the link as they are; its bytes are read
    // when these are made anew.
    fn load(&mut self, rt: &HostRuntime, node: usize, file: &str) -> Result<Change, Stop> {
        let node = Node::try_from(node)?;
        card_tools::card_in(rt, file, self.card(node).count())?;
        Ok(Change::Load {
            node,
            file: String::from_str(rt.alloc(), file)?,
        })
    }

    fn poke(&mut self, heap: Global, node: usize, damage: Damage) -> Result<Change, Stop> {
        let node = Node::try_from(node)?;
        let block = card_tools::damaged(self.card(node), damage)?;
        Ok(Change::Put {
            node,
            block: damage.block,
            bytes: block.to_vec(heap)?,
        })
    }

    fn show(&self, heap: Global) -> Result<Answer, Stop> {
        let mut lines = String::new(heap);
        card_tools::list(&self.zero, 0, &mut lines)?;
        card_tools::list(&self.one, 1, &mut lines)?;
        link_tools::draw(&self.link, &mut lines)?;
        Ok(Answer::Told {
            answer: String::from_str(heap, "ok")?,
            lines,
        })
    }
}

impl<D: Device, L: Link> Ground for Cards<D, L> {
    fn act(&mut self, rt: &HostRuntime, act: BenchAct<'_>) -> Result<Step, Stop> {
        Ok(match act {
            BenchAct::Load { node, file } => Step::Anew(self.load(rt, node, file)?),
            BenchAct::Poke { node, damage } => Step::Anew(self.poke(rt.alloc(), node, damage)?),
            BenchAct::Show => Step::Answered(self.show(rt.alloc())?),
            BenchAct::OnCard { node, act } => {
                let card = self.card(Node::try_from(node)?);
                Step::Answered(card_tools::act_on(rt, card, node, act)?)
            }
            BenchAct::OnLink(act) => {
                Step::Answered(link_tools::act_on(rt.alloc(), &mut self.link, act)?)
            }
        })
    }
}

impl<D: Device + Drop, L: Link + Drop> Cards<D, L> {
    // The first line had the devices and the link made anew, and the next such line ends the run.
    pub fn follow<B: BufRead + Drop>(
        mut self,
        rt: &HostRuntime,
        script: &mut Script<B>,
        first: Anew,
    ) -> anyhow::Result<Option<Anew>> {
        let Anew { line, change } = first;
        let said = self.begin(rt, change);
        script.tell(rt, line, said)?;
        script.follow(rt, &mut self)
    }
}
