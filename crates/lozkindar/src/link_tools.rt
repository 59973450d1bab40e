// What is done straight on the link.
use crate::command::LinkAct;
use crate::script::{Answer, Stop};
use compare::Node;
use link::{Link, Way};
use refusal::Refusal;
use std::alloc::{AllocError, Global};

// The way on which the node of a number sends.
fn way_from(node: usize) -> Result<Way, Refusal> {
    Ok(protocol::way_from(Node::try_from(node)?))
}

pub fn act_on<L: Link>(heap: Global, link: &mut L, act: LinkAct) -> Result<Answer, Stop> {
    match act {
        LinkAct::Open => link.open(),
        LinkAct::Cut => link.cut(),
        LinkAct::Send { node, text } => link.send(way_from(node)?, text.as_bytes())?,
        LinkAct::Take { node } => {
            let frame = link.take(way_from(node)?).ok_or(Refusal::Nothing)?;
            return Ok(Answer::Value(text::spelled_out(heap, frame.bytes())?));
        }
    }
    Ok(Answer::Done)
}

// A mark for what there is, and a dot for each free place.
pub fn mark(there: bool) -> char {
    if there { '#' } else { '.' }
}

// Both ways, with a mark for each frame that waits.
pub fn draw<L: Link>(link: &L, lines: &mut String) -> Result<(), AllocError> {
    let state = if link.is_open() { "open" } else { "closed" };
    let places = link.capacity();
    writeln!(lines, "  link: {state}, {places} places each way")?;
    lines.push_str("    0 to 1 ")?;
    draw_way(link, Way::ZeroToOne, lines)?;
    lines.push_str("    1 to 0 ")?;
    draw_way(link, Way::OneToZero, lines)
}

fn draw_way<L: Link>(link: &L, way: Way, lines: &mut String) -> Result<(), AllocError> {
    let waiting = link.count(way);
    lines.extend((0..link.capacity()).map(|place| mark(place < waiting)))?;
    lines.push('\n')
}
