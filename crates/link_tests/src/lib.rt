#![tactic(auto)]

// The queue and the links on examples.
#[cfg(test)]
mod tests {
    use link::frame::Frame;
    use link::hop::Hop;
    use link::slot::SlotLink;
    use link::{Link, LinkFault, Way};
    use loopback::self_test;
    use queue::Ring;
    use refusal::Refusal;
    use std::alloc::Global;
    use std::collections::VecDeque;
    use std::process::Abort;
    use std::test::Fail;

    const AHEAD: Way = Way::ZeroToOne;

    const BACK: Way = Way::OneToZero;

    #[derive(Clone, Copy)]
    enum Op {
        // A frame of so many bytes, all of one value.
        Send(Way, usize, u8),
        Take(Way),
        Open,
        Cut,
    }

    // The frame that was taken, by its length and its first byte; none where nothing came, or nothing was taken.
    type Answer = Result<Option<(usize, u8)>, LinkFault>;

    fn run<L: Link>(link: &mut L, op: Op) -> Answer {
        match op {
            Op::Send(way, len, fill) => link.send(way, &[fill; 540][..len.min(540)])?,
            Op::Take(way) => return Ok(seen(link.take(way))),
            Op::Open => link.open(),
            Op::Cut => link.cut(),
        }
        Ok(None)
    }

    fn seen(frame: Option<Frame>) -> Option<(usize, u8)> {
        let frame = frame?;
        let bytes = frame.bytes();
        Some((bytes.len(), *bytes.first()?))
    }

    // The model: a plain list for each way, of twelve frames at most.
    #[derive(Drop)]
    struct Lists {
        on: bool,
        ahead: VecDeque<(usize, u8)>,
        back: VecDeque<(usize, u8)>,
    }

    impl Lists {
        fn new(heap: Global) -> Lists {
            Lists {
                on: false,
                ahead: VecDeque::new(heap),
                back: VecDeque::new(heap),
            }
        }

        // A list takes memory, which may fail: so an answer comes inside a Result of its own.
        fn run(&mut self, op: Op) -> Result<Answer, Fail> {
            match op {
                Op::Send(way, len, fill) => return self.send(way, len, fill),
                Op::Take(way) => return Ok(Ok(self.list(way).pop_front())),
                Op::Open => self.empty(true),
                Op::Cut => self.empty(false),
            }
            Ok(Ok(None))
        }

        fn send(&mut self, way: Way, len: usize, fill: u8) -> Result<Answer, Fail> {
            if !(1..=537).contains(&len) {
                return Ok(Err(LinkFault::Size));
            }
            if !self.on {
                return Ok(Err(LinkFault::Closed));
            }
            let list = self.list(way);
            if list.len() >= 12 {
                return Ok(Err(LinkFault::Full));
            }
            list.push_back((len, fill))?;
            Ok(Ok(None))
        }

        fn list(&mut self, way: Way) -> &mut VecDeque<(usize, u8)> {
            match way {
                Way::ZeroToOne => &mut self.ahead,
                Way::OneToZero => &mut self.back,
            }
        }

        fn empty(&mut self, on: bool) {
            self.on = on;
            self.ahead.clear();
            self.back.clear();
        }
    }

    // The same operations on a link of capacity 12 and on the lists: the same answers, and as many frames wait.
    fn agree<L: Link>(
        rt: &impl Abort,
        link: &mut L,
        lists: &mut Lists,
        ops: &[Op],
    ) -> Result<(), Fail> {
        for op in ops {
            assert_eq!(rt; run(link, *op), lists.run(*op)?);
            assert_eq!(rt; link.count(AHEAD), lists.ahead.len());
            assert_eq!(rt; link.count(BACK), lists.back.len());
        }
        Ok(())
    }

    #[test]
    fn hop_answers_as_lists(rt: HostRuntime) -> Result<(), Fail> {
        let Ok(mut hop) = Hop::new(SlotLink::new()) else {
            return Err(Fail::new("no hop"));
        };
        let mut lists = Lists::new(rt.alloc());
        assert_eq!(rt; hop.capacity(), 12);
        agree(
            &rt,
            &mut hop,
            &mut lists,
            &[
                Op::Send(AHEAD, 0, 1),
                Op::Send(AHEAD, 1, 1),
                Op::Take(BACK),
                Op::Open,
            ],
        )?;
        for round in 0..6u8 {
            agree(
                &rt,
                &mut hop,
                &mut lists,
                &[
                    Op::Send(AHEAD, 537, round),
                    Op::Send(BACK, 1, round),
                    Op::Send(AHEAD, 538, round),
                ],
            )?;
            agree(
                &rt,
                &mut hop,
                &mut lists,
                &[
                    Op::Send(AHEAD, 2, round),
                    Op::Send(AHEAD, 3, round),
                    Op::Take(AHEAD),
                    Op::Send(AHEAD, 4, round),
                ],
            )?;
        }
        agree(
            &rt,
            &mut hop,
            &mut lists,
            &[
                Op::Take(BACK),
                Op::Take(AHEAD),
                Op::Send(AHEAD, 5, 9),
                Op::Cut,
                Op::Take(AHEAD),
            ],
        )?;
        agree(
            &rt,
            &mut hop,
            &mut lists,
            &[
                Op::Send(AHEAD, 1, 1),
                Op::Open,
                Op::Send(BACK, 1, 1),
                Op::Open,
                Op::Take(BACK),
            ],
        )
    }

    #[test]
    fn hop_over_hop(rt: HostRuntime) -> Result<(), Fail> {
        let Ok(one) = Hop::new(SlotLink::new()) else {
            return Err(Fail::new("no hop"));
        };
        let Ok(mut two) = Hop::new(one) else {
            return Err(Fail::new("no hop over a hop"));
        };
        assert_eq!(rt; two.capacity(), 16);
        assert!(rt; self_test(&mut two, BACK, b"first", b"second")?);
        for i in 0..17u8 {
            assert_eq!(rt; two.send(AHEAD, &[i]).is_ok(), i < 16);
        }
        let mut one = two.into_lower();
        assert_eq!(rt; one.count(AHEAD), 12);
        for i in 0..12u8 {
            assert_eq!(rt; seen(one.take(AHEAD)), Some((1, i)));
        }
        assert_eq!(rt; one.count(AHEAD), 0);
        Ok(())
    }

    // The number of the refusal, so that it is pinned; 0 for none.
    fn refused(answer: Result<(), LinkFault>) -> u8 {
        answer
            .err()
            .map_or(0, |fault| Refusal::from(fault).number())
    }

    #[test]
    fn refusals_in_their_order(rt: HostRuntime) {
        let mut link = SlotLink::new();
        assert_eq!(rt; refused(link.send(AHEAD, b"")), 2, "closed, and no frame");
        assert_eq!(rt; refused(link.send(AHEAD, b"a")), 18);
        link.open();
        for _ in 0..8 {
            assert_eq!(rt; refused(link.send(AHEAD, b"a")), 0);
        }
        assert_eq!(rt;
            refused(link.send(AHEAD, &[0; 538])),
            2,
            "full, and no frame"
        );
        assert_eq!(rt; refused(link.send(AHEAD, b"a")), 15);
        assert_eq!(rt; refused(link.send(BACK, b"a")), 0);
    }

    #[test]
    fn queue_of_bytes_goes_round(rt: HostRuntime) -> Result<(), Fail> {
        let mut slots = [0u8; 3];
        let mut ring = Ring::new();
        for x in 1..5u8 {
            assert_eq!(rt; ring.put(&mut slots, x), x < 4);
        }
        assert_eq!(rt; ring.take(&slots), Some(1));
        assert!(rt; ring.put(&mut slots, 5));
        assert!(rt; ring.replace(&mut slots, 1, 9));
        assert!(rt; !ring.replace(&mut slots, 3, 9));
        assert_eq!(rt; ring.count(&slots), 3);
        assert_eq!(rt; ring.look(&slots, 2), Some(5));
        assert_eq!(rt; ring.look(&slots, 1), Some(9));
        assert_eq!(rt; ring.look(&slots, 3), None);
        Ok(())
    }

    #[test]
    fn queue_of_pairs_is_cleared(rt: HostRuntime) {
        let mut slots = [(0u32, false); 2];
        let mut ring = Ring::new();
        assert!(rt; ring.put(&mut slots, (70_000, true)));
        assert_eq!(rt; ring.take(&slots), Some((70_000, true)));
        assert_eq!(rt; ring.take(&slots), None);
        assert!(rt; ring.put(&mut slots, (1, false)));
        ring.clear();
        assert_eq!(rt; ring.count(&slots), 0);
    }
}
