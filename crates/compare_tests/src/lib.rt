#![tactic(auto)]

// Every rule, with the four words and from both ends; the answers are worked out by hand.
#[cfg(test)]
mod tests {
    use compare::{Node, Role, Rule, Side, Word, compare, deciding_rule};
    use refusal::Refusal;
    use std::process::Abort;

    type Answer = Result<i32, Refusal>;

    const SPLIT: Answer = Err(Refusal::Split);

    const UNRELATED: Answer = Err(Refusal::Unrelated);

    const BLANK: Answer = Err(Refusal::Blank);

    const NO_SOURCE: Answer = Err(Refusal::NoSource);

    const WORDS: [Word; 4] = [Word::NoOne, Word::NodeZero, Word::NodeOne, Word::FewerBits];

    #[derive(Clone, Copy)]
    struct Meeting {
        one: Side,
        two: Side,
        // What node 0 is told, word by word, where its side is `one`; and where it is `two`.
        at_one: [Answer; 4],
        at_two: [Answer; 4],
    }

    fn case(one: Side, two: Side, at_one: [Answer; 4], at_two: [Answer; 4]) -> Meeting {
        Meeting {
            one,
            two,
            at_one,
            at_two,
        }
    }

    fn aged(current: u64, bitmap: u64, recent: u64, older: u64) -> Side {
        Side {
            current,
            bitmap,
            recent,
            older,
            consistent: true,
            primary: false,
            role: Role::Secondary,
            bits: 0,
        }
    }

    fn node(current: u64, bitmap: u64) -> Side {
        aged(current, bitmap, 0, 0)
    }

    fn inconsistent(side: Side) -> Side {
        Side {
            consistent: false,
            ..side
        }
    }

    fn was_primary(side: Side) -> Side {
        Side {
            primary: true,
            ..side
        }
    }

    fn in_use(side: Side) -> Side {
        Side {
            role: Role::Primary,
            ..side
        }
    }

    fn marked(side: Side, bits: u64) -> Side {
        Side { bits, ..side }
    }

    // The same at the other end: a refusal is the same, a direction is the other one.
    fn from_there(answer: Answer) -> Answer {
        answer.map(i32::wrapping_neg)
    }

    fn meet(rt: &impl Abort, zero: Side, one: Side, expected: [Answer; 4]) {
        for (word, answer) in WORDS.into_iter().zip(expected) {
            assert_eq!(rt; compare(zero, one, Node::Zero, word), answer);
            assert_eq!(rt; compare(one, zero, Node::One, word), from_there(answer));
        }
    }

    fn decided_by(rt: &impl Abort, rule: Rule, cases: &[Meeting]) {
        for case in cases {
            assert_eq!(rt; deciding_rule(case.one, case.two), rule);
            assert_eq!(rt; deciding_rule(case.two, case.one), rule);
            meet(rt, case.one, case.two, case.at_one);
            meet(rt, case.two, case.one, case.at_two);
        }
    }

    #[test]
    fn refused_by_number(rt: HostRuntime) {
        assert_eq!(rt; Refusal::Split.number(), 24);
        assert_eq!(rt; Refusal::Unrelated.number(), 25);
        assert_eq!(rt; Refusal::Blank.number(), 26);
        assert_eq!(rt; Refusal::NoSource.number(), 27);
    }

    #[test]
    fn both_blank(rt: HostRuntime) {
        decided_by(
            &rt,
            Rule::BothBlank,
            &[
                case(node(0, 0), node(0, 0), [BLANK; 4], [BLANK; 4]),
                case(node(0, 5), node(0, 5), [BLANK; 4], [BLANK; 4]),
                case(
                    in_use(inconsistent(node(0, 0))),
                    marked(node(0, 0), 3),
                    [BLANK; 4],
                    [BLANK; 4],
                ),
            ],
        );
    }

    #[test]
    fn one_blank(rt: HostRuntime) {
        decided_by(
            &rt,
            Rule::OneBlank,
            &[
                case(node(5, 0), node(0, 0), [Ok(2); 4], [Ok(-2); 4]),
                case(
                    inconsistent(node(5, 0)),
                    node(0, 0),
                    [NO_SOURCE; 4],
                    [NO_SOURCE; 4],
                ),
                case(
                    node(5, 0),
                    in_use(node(0, 0)),
                    [SPLIT, Ok(-2), SPLIT, SPLIT],
                    [SPLIT, SPLIT, Ok(2), Ok(2)],
                ),
            ],
        );
    }

    #[test]
    fn both_inconsistent(rt: HostRuntime) {
        decided_by(
            &rt,
            Rule::BothInconsistent,
            &[
                case(
                    inconsistent(node(5, 0)),
                    inconsistent(node(5, 0)),
                    [NO_SOURCE; 4],
                    [NO_SOURCE; 4],
                ),
                case(
                    was_primary(inconsistent(node(5, 0))),
                    inconsistent(node(5, 0)),
                    [NO_SOURCE; 4],
                    [NO_SOURCE; 4],
                ),
                case(
                    marked(in_use(inconsistent(node(5, 0))), 3),
                    inconsistent(node(5, 0)),
                    [NO_SOURCE; 4],
                    [NO_SOURCE; 4],
                ),
            ],
        );
    }

    #[test]
    fn one_inconsistent(rt: HostRuntime) {
        decided_by(
            &rt,
            Rule::OneInconsistent,
            &[
                case(
                    node(5, 0),
                    inconsistent(node(5, 0)),
                    [Ok(1); 4],
                    [Ok(-1); 4],
                ),
                case(
                    node(5, 0),
                    was_primary(inconsistent(node(5, 0))),
                    [Ok(1); 4],
                    [Ok(-1); 4],
                ),
                case(
                    node(5, 0),
                    in_use(inconsistent(node(5, 0))),
                    [SPLIT; 4],
                    [SPLIT; 4],
                ),
            ],
        );
    }

    #[test]
    fn same_generation(rt: HostRuntime) {
        decided_by(
            &rt,
            Rule::SameGeneration,
            &[
                case(node(5, 0), node(5, 0), [Ok(0); 4], [Ok(0); 4]),
                case(was_primary(node(5, 0)), node(5, 0), [Ok(1); 4], [Ok(-1); 4]),
                case(
                    marked(was_primary(node(5, 0)), 2),
                    marked(was_primary(node(5, 0)), 7),
                    [SPLIT, Ok(-2), Ok(2), Ok(-2)],
                    [SPLIT, Ok(-2), Ok(2), Ok(2)],
                ),
            ],
        );
    }

    #[test]
    fn in_bitmap(rt: HostRuntime) {
        decided_by(
            &rt,
            Rule::InBitmap,
            &[
                case(node(4, 2), node(2, 0), [Ok(1); 4], [Ok(-1); 4]),
                case(
                    node(4, 2),
                    node(2, 4),
                    [SPLIT, Ok(-2), Ok(2), Ok(2)],
                    [SPLIT, Ok(-2), Ok(2), Ok(2)],
                ),
                case(
                    inconsistent(node(4, 2)),
                    node(2, 0),
                    [NO_SOURCE; 4],
                    [NO_SOURCE; 4],
                ),
                case(node(4, 2), aged(2, 7, 4, 0), [Ok(1); 4], [Ok(-1); 4]),
            ],
        );
    }

    #[test]
    fn in_history(rt: HostRuntime) {
        decided_by(
            &rt,
            Rule::InHistory,
            &[
                case(aged(8, 6, 4, 2), node(2, 0), [Ok(2); 4], [Ok(-2); 4]),
                case(aged(8, 6, 4, 2), node(4, 0), [Ok(2); 4], [Ok(-2); 4]),
                case(
                    aged(8, 6, 4, 0),
                    aged(4, 3, 1, 8),
                    [SPLIT, Ok(-2), Ok(2), Ok(2)],
                    [SPLIT, Ok(-2), Ok(2), Ok(2)],
                ),
            ],
        );
    }

    #[test]
    fn same_bitmap(rt: HostRuntime) {
        decided_by(
            &rt,
            Rule::SameBitmap,
            &[
                case(
                    node(4, 2),
                    node(3, 2),
                    [SPLIT, Ok(-1), Ok(1), Ok(1)],
                    [SPLIT, Ok(-1), Ok(1), Ok(1)],
                ),
                case(
                    marked(in_use(node(4, 2)), 3),
                    marked(node(3, 2), 9),
                    [SPLIT, SPLIT, Ok(1), SPLIT],
                    [SPLIT, Ok(-1), SPLIT, SPLIT],
                ),
                case(
                    marked(inconsistent(aged(4, 2, 1, 0)), 1),
                    marked(aged(3, 2, 1, 0), 1),
                    [SPLIT, Ok(-1), SPLIT, SPLIT],
                    [SPLIT, SPLIT, Ok(1), Ok(1)],
                ),
            ],
        );
    }

    #[test]
    fn shared_ancestor(rt: HostRuntime) {
        decided_by(
            &rt,
            Rule::SharedAncestor,
            &[
                case(
                    aged(9, 7, 2, 0),
                    aged(8, 6, 2, 0),
                    [SPLIT, Ok(-2), Ok(2), Ok(2)],
                    [SPLIT, Ok(-2), Ok(2), Ok(2)],
                ),
                case(
                    aged(9, 7, 3, 0),
                    node(8, 3),
                    [SPLIT, Ok(-2), Ok(2), Ok(2)],
                    [SPLIT, Ok(-2), Ok(2), Ok(2)],
                ),
                case(
                    marked(aged(9, 7, 0, 3), 5),
                    marked(aged(8, 6, 4, 3), 1),
                    [SPLIT, Ok(-2), Ok(2), Ok(2)],
                    [SPLIT, Ok(-2), Ok(2), Ok(-2)],
                ),
            ],
        );
    }

    #[test]
    fn nothing_shared(rt: HostRuntime) {
        decided_by(
            &rt,
            Rule::NothingShared,
            &[
                case(node(2, 0), node(3, 0), [UNRELATED; 4], [UNRELATED; 4]),
                case(
                    aged(9, 7, 5, 4),
                    aged(8, 6, 3, 2),
                    [UNRELATED; 4],
                    [UNRELATED; 4],
                ),
                case(
                    in_use(was_primary(node(7, 5))),
                    was_primary(node(6, 0)),
                    [UNRELATED; 4],
                    [UNRELATED; 4],
                ),
            ],
        );
    }
}
