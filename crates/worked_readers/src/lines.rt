// Lines and tokens with their places, the end of a file, and numerals.
use lux_lines::{Lines, Token, Tokens, body, numeral};
use std::test::Fail;

#[test]
fn lines_end_by_lf_and_lose_a_cr(rt: HostRuntime) -> Result<(), Fail> {
    let rows: [(&[u8], &[(u32, usize, &[u8])]); 5] = [
        (b"", &[]),
        (b"a", &[(1, 0, b"a")]),
        (
            b"a\r\nb\n\nc\r",
            &[(1, 0, b"a"), (2, 3, b"b"), (3, 5, b""), (4, 6, b"c")],
        ),
        (b"a\n\r", &[(1, 0, b"a"), (2, 2, b"")]),
        (b"a\rb\n", &[(1, 0, b"a\rb")]),
    ];
    for (text, expected) in rows {
        let mut lines = Lines::new(text);
        for (number, start, bytes) in expected {
            let Some(line) = lines.next() else {
                assert!(rt; false, "a line is missing");
                return Ok(());
            };
            assert_eq!(rt; line.number, *number);
            assert_eq!(rt; line.start, *start);
            assert_eq!(rt; line.text, *bytes);
        }
        assert!(rt; lines.next().is_none());
    }
    Ok(())
}

#[test]
fn a_numeral_is_written_in_one_way(rt: HostRuntime) -> Result<(), Fail> {
    let rows: [(&[u8], Option<u64>); 10] = [
        (b"0", Some(0)),
        (b"7", Some(7)),
        (b"4294967296", Some(4_294_967_296)),
        (b"18446744073709551615", Some(u64::MAX)),
        (b"18446744073709551616", None),
        (b"100000000000000000000", None),
        (b"", None),
        (b"00", None),
        (b"+1", None),
        (b"1 ", None),
    ];
    for (word, value) in rows {
        assert_eq!(rt; numeral(word), value);
    }
    Ok(())
}

// Whether a token is there, with this line, place and text.
fn is_token(token: Option<Token>, number: u32, start: usize, text: &[u8]) -> bool {
    match token {
        Some(token) => token.number == number && token.start == start && token.text == text,
        None => false,
    }
}

#[test]
fn tokens_stand_between_separators(rt: HostRuntime) -> Result<(), Fail> {
    let mut tokens = Tokens::new(b"\na\r\n 1,2;c\t", 5);
    assert!(rt; is_token(tokens.next(), 6, 1, b"a"));
    assert!(rt; is_token(tokens.next(), 7, 5, b"1"));
    assert!(rt; is_token(tokens.next(), 7, 7, b"2;c"));
    assert!(rt; tokens.next().is_none());
    let mut tokens = Tokens::new(b" ,\t\r\n", 1);
    assert!(rt; tokens.next().is_none());
    Ok(())
}

#[test]
fn the_end_of_a_file_is_dropped(rt: HostRuntime) -> Result<(), Fail> {
    let rows: [(&[u8], &[u8]); 5] = [
        (b"a", b"a"),
        (b"a \t\r\n", b"a"),
        (b"a\n\x1a\n", b"a"),
        (b"a\x1a\x1a", b"a\x1a"),
        (b" \x1a ", b""),
    ];
    for (text, kept) in rows {
        assert_eq!(rt; body(text), kept);
    }
    Ok(())
}
