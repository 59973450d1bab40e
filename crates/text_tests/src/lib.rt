#![tactic(auto)]

// Tests of the text that a person writes and reads.
#[cfg(test)]
mod tests {
    use std::test::Fail;

    const NUMBERS: [(&str, Option<u64>); 9] = [
        ("0", Some(0)),
        ("007", Some(7)),
        ("1000001", Some(1_000_001)),
        ("18446744073709551615", Some(18_446_744_073_709_551_615)),
        ("18446744073709551616", Some(18_446_744_073_709_551_615)),
        (
            "99999999999999999999999999",
            Some(18_446_744_073_709_551_615),
        ),
        ("", None),
        ("-1", None),
        ("12a", None),
    ];

    #[test]
    fn numbers(rt: HostRuntime) {
        for (word, value) in NUMBERS {
            assert_eq!(rt; text::number(word), value);
        }
    }

    const TEXTS: [(&[u8], &str); 6] = [
        (b"", ""),
        (b"\0\0\0", ""),
        (b"News \0\0", "News "),
        (b"a\\b", "a\\x5Cb"),
        (b"\x01\x7f\xff", "\\x01\\x7F\\xFF"),
        (b"a\0b", "a\\x00b"),
    ];

    #[test]
    fn texts(rt: HostRuntime) -> Result<(), Fail> {
        for (bytes, words) in TEXTS {
            let shown = text::shown(rt.alloc(), bytes)?;
            assert_eq!(rt; shown.as_str(), words);
        }
        Ok(())
    }

    #[test]
    fn fills(rt: HostRuntime) {
        let mut block = [1u8; 4];
        assert!(rt; text::fill(&mut block, b"ab"));
        assert_eq!(rt; block, *b"ab\0\0");
        assert!(rt; !text::fill(&mut block, b"abcde"));
        assert_eq!(rt; block, *b"ab\0\0");
    }
}
