// The bench: the memory that the two cards' devices are lent, and the makes of cards and link that the script asked for.
use crate::any_device::AnyDevice;
use crate::command::{CardPlan, LinkKind, Make, Plan};
use crate::run::Cards;
use crate::script::{Anew, Script};
use anyhow::anyhow;
use device::flat::Flat;
use device::image::Image;
use link::hop::Hop;
use link::slot::SlotLink;
use std::alloc::{AllocError, Global};
use std::io::BufRead;

// What a card's device is lent.
#[derive(Drop)]
enum Store {
    Flat { area: Vec<u8> },
    Image { factory: Vec<u8>, area: Vec<u8> },
}

#[derive(Drop)]
pub struct Bench {
    zero: Store,
    one: Store,
    link: LinkKind,
}

impl Store {
    // A card whose blocks are all zero: no more of them than a card may have.
    fn new(heap: Global, plan: CardPlan) -> Result<Store, AllocError> {
        let blocks = plan.blocks.min(4_099);
        match plan.make {
            Make::Flat => Ok(Store::Flat {
                area: vec![in heap; 0u8; blocks * 512]?,
            }),
            Make::Image => Ok(Store::Image {
                factory: vec![in heap; 0u8; blocks * 512]?,
                area: vec![in heap; 0u8; blocks * 513]?,
            }),
        }
    }

    // A card's device over its memory, on mains. (`map` with the variant's name in place of the `if let` gets no proof: the
    // variant holds a borrow.)
    fn device(&mut self, node: usize) -> anyhow::Result<AnyDevice<Flat<'_>, Image<'_, '_>>> {
        match self {
            Store::Flat { area } => {
                if let Ok(flat) = Flat::new(area.as_mut_slice()) {
                    return Ok(AnyDevice::Flat(flat));
                }
            }
            Store::Image { factory, area } => {
                if let Ok(image) = Image::new(factory.as_slice(), area.as_mut_slice()) {
                    return Ok(AnyDevice::Image(image));
                }
            }
        }
        Err(anyhow!("card {node} does not fit its memory"))
    }
}

impl Bench {
    pub fn new(heap: Global, plan: &Plan) -> Result<Bench, AllocError> {
        Ok(Bench {
            zero: Store::new(heap, plan.zero)?,
            one: Store::new(heap, plan.one)?,
            link: plan.link,
        })
    }

    // Makes the devices over their memory, and the link, and follows the script with them.
    pub fn follow<B: BufRead + Drop>(
        &mut self,
        rt: &HostRuntime,
        script: &mut Script<B>,
        first: Anew,
    ) -> anyhow::Result<Option<Anew>> {
        let kind = self.link;
        let zero = self.zero.device(0)?;
        let one = self.one.device(1)?;
        let link = SlotLink::new();
        match kind {
            LinkKind::Slot => Cards { zero, one, link }.follow(rt, script, first),
            LinkKind::Hop => {
                let link = Hop::new(link).map_err(|_| anyhow!(
                    "the hop does not go over the slot link"
                ))?;
                Cards { zero, one, link }.follow(rt, script, first)
            }
        }
    }
}
