// A self-test that goes for every link: two frames go out one way, and come back once each, in order.
#![tactic(auto)]

ghost use Rattle.std.specs.Prelude.{◌≡◌, true, Some};
ghost use Rattle.link.specs.Makes.{framed};
ghost use Rattle.loopback.specs.Loopback.{test_answer, tested};

use link::frame::Frame;
use link::{Link, Way};
use refusal::Refusal;

// Opens the link, sends both frames, and takes them again: whether they came as they were sent, and nothing after them.
// It is proved from what every link promises that the answer is never `Ok(false)`.
#[tactic(auto, unfolding(link::specs::Channel::send_answer, link::specs::Channel::sent))]
pub fn self_test<L: Link>(
    link: &mut L,
    way: Way,
    first: &[u8],
    second: &[u8],
) -> Result<bool, Refusal>
    ensures answer { result ≡ test_answer first.now second.now }
    ensures after { (L.Link.means link.new).channel ≡ tested (L.Link.means link.old).channel way first.now second.now }
{
    link.open();
    link.send(way, first)?;
    link.send(way, second)?;
    let one = holds(link.take(way), first);
    let two = holds(link.take(way), second);
    Ok(one && two && link.count(way) == 0)
}

fn holds(taken: Option<Frame>, bytes: &[u8]) -> bool
    ensures { framed taken ≡ Some bytes.now → result ≡ true }
{
    taken.is_some_and(|frame| frame.bytes() == bytes)
}
