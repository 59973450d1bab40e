#![tactic(auto)]

// Frames, read and written again.
#[cfg(test)]
mod tests {
    use message::FrameFault;
    use message::decoder::decode;
    use message::encoder::encode;
    use refusal::Refusal;

    // How a frame begins, its length, what fills it up, the number of blocks, and the first wrong byte if it is refused.
    const FRAMES: [(&[u8], usize, u8, usize, Option<usize>); 69] = [
        (
            b"R           0           0           0           0           0           0           0           0           0",
            109,
            0,
            100,
            None,
        ),
        (
            b"R  1999999999  1999999999  1999999999  1999999999           1           1           1         100           3",
            109,
            0,
            100,
            None,
        ),
        (
            b"R           0           0           0           0           0           0           0        4096           0",
            109,
            0,
            4096,
            None,
        ),
        (
            b"R  2000000000  1999999999  1999999999  1999999999           1           1           1         100           3",
            109,
            0,
            100,
            Some(1),
        ),
        (
            b"R  1999999999  2000000000  1999999999  1999999999           1           1           1         100           3",
            109,
            0,
            100,
            Some(13),
        ),
        (
            b"R  1999999999  1999999999  2000000000  1999999999           1           1           1         100           3",
            109,
            0,
            100,
            Some(25),
        ),
        (
            b"R  1999999999  1999999999  1999999999  2000000000           1           1           1         100           3",
            109,
            0,
            100,
            Some(37),
        ),
        (
            b"R  1999999999  1999999999  1999999999  1999999999           2           1           1         100           3",
            109,
            0,
            100,
            Some(49),
        ),
        (
            b"R  1999999999  1999999999  1999999999  1999999999           1           2           1         100           3",
            109,
            0,
            100,
            Some(61),
        ),
        (
            b"R  1999999999  1999999999  1999999999  1999999999           1           1           2         100           3",
            109,
            0,
            100,
            Some(73),
        ),
        (
            b"R  1999999999  1999999999  1999999999  1999999999           1           1           1         101           3",
            109,
            0,
            100,
            Some(85),
        ),
        (
            b"R  1999999999  1999999999  1999999999  1999999999           1           1           1         100           4",
            109,
            0,
            100,
            Some(97),
        ),
        (
            b"R  1999999999  1999999999  1999999999  1999999999           1           1           1         100           3",
            108,
            0,
            100,
            Some(108),
        ),
        (
            b"R  1999999999  1999999999  1999999999  1999999999           1           1           1         100           3",
            110,
            0,
            100,
            Some(109),
        ),
        (b"S           0           0           0", 37, 0, 100, None),
        (b"S  1999999999  1999999999  1999999999", 37, 0, 100, None),
        (
            b"S  2000000000  1999999999  1999999999",
            37,
            0,
            100,
            Some(1),
        ),
        (
            b"S  1999999999  2000000000  1999999999",
            37,
            0,
            100,
            Some(13),
        ),
        (
            b"S  1999999999  1999999999  2000000000",
            37,
            0,
            100,
            Some(25),
        ),
        (
            b"S  1999999999  1999999999  1999999999",
            36,
            0,
            100,
            Some(36),
        ),
        (
            b"S  1999999999  1999999999  1999999999",
            38,
            0,
            100,
            Some(37),
        ),
        (b"B", 513, 0, 100, None),
        (b"B", 513, 255, 4096, None),
        (b"B", 513, 255, 0, Some(1)),
        (b"B", 513, 255, 100, Some(13)),
        (b"B", 513, 255, 4095, Some(512)),
        (b"B", 512, 0, 100, Some(512)),
        (b"B", 514, 0, 100, Some(513)),
        (b"D           1           0", 537, 0, 100, None),
        (b"D   999999999          99", 537, 255, 100, None),
        (b"D           0           0", 537, 0, 100, Some(1)),
        (b"D  1000000000           0", 537, 0, 100, Some(1)),
        (b"D           1         100", 537, 0, 100, Some(13)),
        (b"D           1           0", 537, 0, 0, Some(13)),
        (b"D           1           0", 536, 0, 100, Some(536)),
        (b"D           1           0", 538, 0, 100, Some(537)),
        (b"C           0", 525, 0, 100, None),
        (b"C          99", 525, 255, 100, None),
        (b"C         100", 525, 0, 100, Some(1)),
        (b"C           0", 524, 0, 100, Some(524)),
        (b"C           0", 526, 0, 100, Some(525)),
        (b"K           1", 13, 0, 100, None),
        (b"K   999999999", 13, 0, 100, None),
        (b"K           0", 13, 0, 100, Some(1)),
        (b"K  1000000000", 13, 0, 100, Some(1)),
        (b"K           1", 12, 0, 100, Some(12)),
        (b"K           1", 14, 0, 100, Some(13)),
        (b"L           0", 13, 0, 100, None),
        (b"L          99", 13, 0, 100, None),
        (b"L         100", 13, 0, 100, Some(1)),
        (b"L           0", 12, 0, 100, Some(12)),
        (b"L           0", 14, 0, 100, Some(13)),
        (b"A", 1, 0, 100, None),
        (b"A", 2, 0, 100, Some(1)),
        (b"F", 1, 0, 100, None),
        (b"F", 2, 0, 100, Some(1)),
        (b"W", 1, 0, 100, None),
        (b"W", 2, 0, 100, Some(1)),
        (b"k           1", 13, 0, 100, Some(0)),
        (b"X", 1, 0, 100, Some(0)),
        (b"", 0, 0, 100, Some(0)),
        (b"", 600, 0, 100, Some(0)),
        (b"D           1           0", 600, 0, 100, Some(537)),
        (b"K000000000001", 13, 0, 100, Some(1)),
        (b"K         1 2", 13, 0, 100, Some(1)),
        (b"K1           ", 13, 0, 100, Some(1)),
        (b"K           a", 13, 0, 100, Some(1)),
        (b"K           0", 14, 0, 100, Some(13)),
        (
            b"S  2000000000  2000000000  2000000000",
            36,
            0,
            100,
            Some(36),
        ),
    ];

    fn made(head: &[u8], fill: u8) -> [u8; 600] {
        let mut bytes = [fill; 600];
        for (byte, letter) in bytes.iter_mut().zip(head) {
            *byte = *letter;
        }
        bytes
    }

    #[test]
    fn frames(rt: HostRuntime) {
        for (head, len, fill, blocks, fault) in FRAMES {
            let bytes = made(head, fill);
            let frame = &bytes[..len.min(600)];
            match decode(frame, blocks) {
                Ok(message) => {
                    assert_eq!(rt; fault, None);
                    let mut out = [7u8; 600];
                    assert_eq!(rt; encode(&message, blocks, &mut out), Some(len));
                    assert!(rt; &out[..len.min(600)] == frame);
                    if len < 600 {
                        assert_eq!(rt; out[len], 7);
                    }
                    let short = len.min(600) / 2;
                    assert_eq!(rt; encode(&message, blocks, &mut out[..short]), None);
                }
                Err(wrong) => assert_eq!(rt; Some(wrong.byte), fault),
            }
        }
    }

    #[test]
    fn refusal(rt: HostRuntime) {
        let told: Refusal = Refusal::from(FrameFault { byte: 13 });
        assert_eq!(rt; told, Refusal::Frame { byte: 13 });
    }
}
