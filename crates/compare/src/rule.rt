// The rules: the first that fits decides.
ghost use Rattle.std.specs.Prelude.{◌≡◌, Some, find};
ghost use Rattle.compare.specs.Rules.{rule_fits, rule_finds, source_where, deciding_rule, name_of};

use crate::finding::{Amount, End, Finding};
use crate::side::Side;
use refusal::Refusal;
use std::fmt;

#[derive(Clone, Copy, PartialEq, Eq, Debug)]
pub enum Rule {
    BothBlank,
    OneBlank,
    BothInconsistent,
    OneInconsistent,
    SameGeneration,
    InBitmap,
    InHistory,
    SameBitmap,
    SharedAncestor,
    NothingShared,
}

// The source is the end at which the test holds.
fn source_where(here: bool, there: bool, amount: Amount) -> Finding
    ensures { result ≡ source_where here there amount }
{
    match (here, there) {
        (true, true) => Finding::Split {
            amount: Amount::Full,
        },
        (true, false) => Finding::Resync {
            source: End::Here,
            amount,
        },
        (false, true) => Finding::Resync {
            source: End::There,
            amount,
        },
        (false, false) => Finding::NoResync,
    }
}

impl Rule {
    // What a person is told of the rule that decided.
    pub fn name(self) -> &'static str
        ensures { result.now ≡ name_of self }
    {
        match self {
            Rule::BothBlank => "both nodes are blank",
            Rule::OneBlank => "one node is blank",
            Rule::BothInconsistent => "same generation, both nodes inconsistent",
            Rule::OneInconsistent => "same generation, one node inconsistent",
            Rule::SameGeneration => "same generation",
            Rule::InBitmap => "one node's bitmap starts at the other's generation",
            Rule::InHistory => "one node's history holds the other's generation",
            Rule::SameBitmap => "both nodes went on from the same generation",
            Rule::SharedAncestor => "a common ancestor",
            Rule::NothingShared => "nothing in common",
        }
    }
}

// The two sides stay two parameters, as the definitions and the two public calls take them: with a struct of both, each of these
// functions would first take it apart.
impl Rule {
    fn fits(self, mine: Side, peer: Side) -> bool
        ensures { result ≡ rule_fits self mine peer }
    {
        match self {
            Rule::BothBlank => mine.is_blank() && peer.is_blank(),
            Rule::OneBlank => mine.is_blank() || peer.is_blank(),
            Rule::BothInconsistent => {
                mine.same_current(peer) && !mine.consistent && !peer.consistent
            }
            Rule::OneInconsistent => {
                mine.same_current(peer) && (!mine.consistent || !peer.consistent)
            }
            Rule::SameGeneration => mine.same_current(peer),
            Rule::InBitmap => mine.tracks(peer) || peer.tracks(mine),
            Rule::InHistory => mine.remembers(peer) || peer.remembers(mine),
            Rule::SameBitmap => mine.same_bitmap(peer),
            Rule::SharedAncestor => mine.shares_ancestor(peer),
            Rule::NothingShared => true,
        }
    }

    pub(crate) fn finds(self, mine: Side, peer: Side) -> Result<Finding, Refusal>
        ensures { result ≡ rule_finds self mine peer }
    {
        match self {
            Rule::BothBlank => Err(Refusal::Blank),
            Rule::OneBlank => Ok(source_where(peer.is_blank(), mine.is_blank(), Amount::Full)),
            Rule::BothInconsistent => Err(Refusal::NoSource),
            Rule::OneInconsistent => Ok(source_where(
                mine.consistent,
                peer.consistent,
                Amount::Bits,
            )),
            Rule::SameGeneration => Ok(source_where(mine.primary, peer.primary, Amount::Bits)),
            Rule::InBitmap => Ok(source_where(mine.tracks(peer), peer.tracks(mine), Amount::Bits)),
            Rule::InHistory => Ok(source_where(
                mine.remembers(peer),
                peer.remembers(mine),
                Amount::Full,
            )),
            Rule::SameBitmap => Ok(Finding::Split {
                amount: Amount::Bits,
            }),
            Rule::SharedAncestor => Ok(Finding::Split {
                amount: Amount::Full,
            }),
            Rule::NothingShared => Err(Refusal::Unrelated),
        }
    }
}

impl fmt::Display for Rule {
    ghost output = { λ rule. Some (name_of rule) };

    fn fmt<W: fmt::Write>(&self, f: &mut fmt::Formatter<W>) -> fmt::Result {
        f.write_str(self.name())
    }
}

const IN_ORDER: [Rule; 9] = [
    Rule::BothBlank,
    Rule::OneBlank,
    Rule::BothInconsistent,
    Rule::OneInconsistent,
    Rule::SameGeneration,
    Rule::InBitmap,
    Rule::InHistory,
    Rule::SameBitmap,
    Rule::SharedAncestor,
];

// The first of the rules that fits.
fn first_that_fits(rules: &[Rule], mine: Side, peer: Side) -> Option<Rule>
    ensures { result ≡ find (λ r. rule_fits r mine peer) rules.now }
{
    rules.iter().copied().find(|rule| rule.fits(mine, peer))
}

pub fn deciding_rule(mine: Side, peer: Side) -> Rule
    ensures { result ≡ deciding_rule mine peer }
{
    first_that_fits(&IN_ORDER, mine, peer).unwrap_or(Rule::NothingShared)
}
