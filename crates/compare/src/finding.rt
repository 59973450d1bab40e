// What a comparison finds, as the asking node sees it.
ghost use Rattle.std.specs.Prelude.{◌≡◌};
ghost use Rattle.compare.specs.Meeting.{opposite, side_at, unless_barred, tested, settled, answer_to};

use crate::side::Side;
use refusal::Refusal;

#[derive(Clone, Copy)]
pub(crate) enum End {
    Here,
    There,
}

#[derive(Clone, Copy)]
pub(crate) enum Amount {
    Bits,
    Full,
}

#[derive(Clone, Copy)]
pub(crate) enum Finding {
    NoResync,
    Resync { source: End, amount: Amount },
    // The amount is what a node that gives way takes.
    Split { amount: Amount },
}

impl End {
    fn opposite(self) -> End
        ensures { result ≡ opposite self }
    {
        match self {
            End::Here => End::There,
            End::There => End::Here,
        }
    }

    fn side(self, mine: Side, peer: Side) -> Side
        ensures { result ≡ side_at self mine peer }
    {
        match self {
            End::Here => mine,
            End::There => peer,
        }
    }
}

impl Finding {
    fn unless_barred(self, source: Side, target: Side) -> Result<Finding, Refusal>
        ensures { result ≡ unless_barred source target self }
    {
        if !source.consistent {
            return Err(Refusal::NoSource);
        }
        if target.role.is_primary() {
            return Ok(Finding::Split {
                amount: Amount::Full,
            });
        }
        Ok(self)
    }

    pub(crate) fn tested(self, mine: Side, peer: Side) -> Result<Finding, Refusal>
        ensures { result ≡ tested mine peer self }
    {
        match self {
            Finding::Resync { source, .. } => {
                let target = source.opposite();
                self.unless_barred(source.side(mine, peer), target.side(mine, peer))
            }
            _ => Ok(self),
        }
    }

    // The end that gives way becomes the target, where it can be one.
    pub(crate) fn settled(self, gives_way: Option<End>, mine: Side, peer: Side) -> Finding
        ensures { result ≡ settled gives_way mine peer self }
    {
        let (Finding::Split { amount }, Some(target)) = (self, gives_way) else {
            return self;
        };
        let source = target.opposite();
        if target.side(mine, peer).can_take(source.side(mine, peer)) {
            Finding::Resync { source, amount }
        } else {
            self
        }
    }

    // A method and no TryFrom, since it stands last in a chain.
    pub(crate) fn answer(self) -> Result<i32, Refusal>
        ensures { result ≡ answer_to self }
    {
        match self {
            Finding::NoResync => Ok(0),
            Finding::Resync { source, amount } => match (source, amount) {
                (End::Here, Amount::Bits) => Ok(1),
                (End::Here, Amount::Full) => Ok(2),
                (End::There, Amount::Bits) => Ok(-1),
                (End::There, Amount::Full) => Ok(-2),
            },
            Finding::Split { .. } => Err(Refusal::Split),
        }
    }
}
