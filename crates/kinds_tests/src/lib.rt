// Kept forms and kinds on examples.
#![tactic(auto)]

#[cfg(test)]
mod tests {
    use kinds::{Kept, admits, amount, code, piece};
    use rules::{FixedText, Kind};

    const AMOUNTS: [&[u8]; 5] = [b"0", b"10", b"9999999999.999999", b" 1.5\n", b"0.000001"];

    const NO_AMOUNTS: [&[u8]; 8] = [
        b"",
        b"10000000000",
        b"1.",
        b".5",
        b"1.1234567",
        b"-1",
        b"1 2",
        b"1,5",
    ];

    const MOMENTS: [&[u8]; 3] = [
        b"2024-02-29T23:59:59",
        b"2010-01-01T00:00:00",
        b"2099-12-31T12:30:00",
    ];

    const NO_MOMENTS: [&[u8]; 5] = [
        b"2023-02-29T00:00:00",
        b"2009-12-31T00:00:00",
        b"2024-04-31T00:00:00",
        b"2024-01-01T24:00:00",
        b"2024-01-01",
    ];

    const RFCS: [&[u8]; 4] = [
        b"A&amp;A010101AAA",
        b"\xC3\x91&amp;\xC3\x91010101AA0",
        b"XAXX010101000",
        b" PE\xC3\x91A800101AB9 ",
    ];

    const NO_RFCS: [&[u8]; 5] = [
        b"aaa010101AAA",
        b"AA010101AAA",
        b"AAA011301AAA",
        b"AAA010101AAB",
        b"AAAAA010101AAA",
    ];

    // Whether a value has this kept form.
    fn keeps(raw: &[u8], form: &[u8]) -> bool {
        Kept::new(raw).eq(form.iter().copied())
    }

    // Whether a kind gives all values the same answer.
    fn all_are(kind: Kind, values: &[&[u8]], answer: bool) -> bool {
        values.iter().all(|raw| admits(kind, raw) == answer)
    }

    #[test]
    fn kept_forms(rt: HostRuntime) {
        assert!(rt; keeps(b"", b""));
        assert!(rt; keeps(b" \t a\r\n\n b ", b"a b"));
        assert!(rt; keeps(b"&amp;lt;&lt;&gt;&quot;&apos;", b"&lt;<>\"'"));
        assert!(rt; keeps(b"a & b &am", b"a & b &am"));
        assert_eq!(rt; piece(b"\t 01 \n").len(), 2);
    }

    #[test]
    fn amounts_and_moments(rt: HostRuntime) {
        assert!(rt; all_are(Kind::Amount, &AMOUNTS, true));
        assert!(rt; all_are(Kind::Amount, &NO_AMOUNTS, false));
        assert!(rt; !admits(Kind::Positive, b"0.000000"));
        assert!(rt;
            amount(b"9999999999.999999").is_some_and(|a| a.millionths() == 9_999_999_999_999_999)
        );
        assert!(rt; all_are(Kind::DateTime, &MOMENTS, true));
        assert!(rt; all_are(Kind::DateTime, &NO_MOMENTS, false));
    }

    #[test]
    fn rfcs_and_texts(rt: HostRuntime) {
        assert!(rt; all_are(Kind::Rfc, &RFCS, true));
        assert!(rt; all_are(Kind::Rfc, &NO_RFCS, false));
        assert!(rt;
            admits(
                Kind::Text(25),
                b"\xC3\x91\xC3\x91\xC3\x91\xC3\x91\xC3\x91\xC3\x91\xC3\x91\xC3\x91\xC3\x91\xC3\x91\xC3\x91\xC3\x91\xC3\x91\xC3\x91\xC3\x91\xC3\x91\xC3\x91\xC3\x91\xC3\x91\xC3\x91\xC3\x91\xC3\x91\xC3\x91\xC3\x91\xC3\x91",
            )
        );
        assert!(rt;
            !admits(
                Kind::Text(25),
                b"\xC3\x91\xC3\x91\xC3\x91\xC3\x91\xC3\x91\xC3\x91\xC3\x91\xC3\x91\xC3\x91\xC3\x91\xC3\x91\xC3\x91\xC3\x91\xC3\x91\xC3\x91\xC3\x91\xC3\x91\xC3\x91\xC3\x91\xC3\x91\xC3\x91\xC3\x91\xC3\x91\xC3\x91\xC3\x91\xC3\x91",
            )
        );
        assert!(rt; !admits(Kind::Text(9), b"a|b"));
        assert!(rt; admits(Kind::Fixed(FixedText::Version), b"4.0 "));
        assert!(rt; code(b" 10 ").is_some());
        assert!(rt; code(b"12345678901").is_none());
    }
}
