// The comparison of two generations, by itself.
use crate::script::{Answer, Stop};
use compare::{Node, Side, Word, compare, deciding_rule};
use refusal::Refusal;
use std::alloc::Global;
use std::fmt;

// A number with its sign. Nought has none, where `{:+}` would write one.
#[derive(Clone, Copy)]
struct Signed(i32);

impl fmt::Display for Signed {
    fn fmt<W: fmt::Write>(&self, f: &mut fmt::Formatter<W>) -> fmt::Result {
        if self.0 > 0 {
            write!(f, "+")?;
        }
        write!(f, "{}", self.0)
    }
}

// What node 0 and what node 1 are told.
fn answers(zero: Side, one: Side, word: Word) -> Result<(Signed, Signed), Refusal> {
    let here = compare(zero, one, Node::Zero, word)?;
    let there = compare(one, zero, Node::One, word)?;
    Ok((Signed(here), Signed(there)))
}

// The answers at both ends, and the rule that decided.
pub fn compared(heap: Global, zero: Side, one: Side, word: u64) -> Result<Answer, Stop> {
    let word = u8::try_from(word).map_err(|_| Refusal::Word)?;
    let word = Word::try_from(word)?;
    let answer = match answers(zero, one, word) {
        Ok((here, there)) => format!(in heap; "ok {here} {there}")?,
        Err(refusal) => refusal.to_string(heap)?,
    };
    let rule = deciding_rule(zero, one);
    Ok(Answer::Told {
        answer,
        lines: format!(in heap; "  {rule}\n")?,
    })
}
