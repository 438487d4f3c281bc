// Decimal numbers, quotients and square roots.
use lux_num::{Decimal, NumFault, isqrt, mul_div_ceil, mul_div_floor};
use std::test::Fail;

#[test]
fn a_number_is_cut_to_places(rt: HostRuntime) -> Result<(), Fail> {
    let rows: [(&[u8], u8, Option<u128>); 8] = [
        (b"1.25", 9, Some(1_250_000_000)),
        (b"1e2", 0, Some(100)),
        (b"0.0009", 3, Some(0)),
        (b"-0.0019", 3, Some(1)),
        (b"999E-3", 2, Some(99)),
        (b"+.5E1", 1, Some(50)),
        (
            b"1E38",
            0,
            Some(100_000_000_000_000_000_000_000_000_000_000_000_000),
        ),
        (b"1E30", 9, None),
    ];
    for (text, places, fixed_value) in rows {
        let Ok(number) = Decimal::read(text) else {
            return Err(Fail::from("a number was refused"));
        };
        assert!(rt; places <= 9);
        assert_eq!(rt; number.to_fixed(places), fixed_value);
    }
    Ok(())
}

#[test]
fn a_number_is_whole_and_below_zero_or_not(rt: HostRuntime) -> Result<(), Fail> {
    let rows: [(&[u8], Option<u128>, bool); 6] = [
        (b"1e2", Some(100), false),
        (b"-0", Some(0), false),
        (b"-2", Some(2), true),
        (b"2.50", None, false),
        (b"250E-1", Some(25), false),
        (b"1E39", None, false),
    ];
    for (text, whole, negative) in rows {
        let Ok(number) = Decimal::read(text) else {
            return Err(Fail::from("a number was refused"));
        };
        assert_eq!(rt; number.to_whole(), whole);
        assert_eq!(rt; number.is_negative(), negative);
    }
    Ok(())
}

#[test]
fn a_text_that_is_no_number_has_its_first_fault(rt: HostRuntime) -> Result<(), Fail> {
    let rows: [(&[u8], NumFault); 10] = [
        (b"", NumFault::Empty),
        (b".", NumFault::Empty),
        (b"E5", NumFault::Empty),
        (b"-", NumFault::Empty),
        (b"1.2.3", NumFault::BadByte { at: 3 }),
        (b"x", NumFault::BadByte { at: 0 }),
        (b"1E", NumFault::Exponent),
        (b"1E100", NumFault::Exponent),
        (b"1E+-1", NumFault::Exponent),
        (b"1234567890123456789012345678901", NumFault::TooManyDigits),
    ];
    for (text, expected) in rows {
        assert_eq!(rt; Decimal::read(text).err(), Some(expected));
    }
    Ok(())
}

#[test]
fn quotients_are_cut_or_rounded_up(rt: HostRuntime) -> Result<(), Fail> {
    let rows: [(u128, u128, u128, Option<u128>, Option<u128>); 5] = [
        (7, 3, 2, Some(10), Some(11)),
        (7, 4, 2, Some(14), Some(14)),
        (7, 3, 0, None, None),
        (u128::MAX, 1, 1, Some(u128::MAX), Some(u128::MAX)),
        (u128::MAX, 2, 2, None, None),
    ];
    for (a, b, divisor, down, up) in rows {
        assert_eq!(rt; mul_div_floor(a, b, divisor), down);
        assert_eq!(rt; mul_div_ceil(a, b, divisor), up);
    }
    Ok(())
}

#[test]
fn a_root_is_the_greatest_whose_square_fits(rt: HostRuntime) -> Result<(), Fail> {
    let rows: [(u128, u64); 7] = [
        (0, 0),
        (1, 1),
        (3, 1),
        (4, 2),
        (99, 9),
        (1_000_000_000_000_000_000_000_000, 1_000_000_000_000),
        (u128::MAX, u64::MAX),
    ];
    for (x, root) in rows {
        assert_eq!(rt; isqrt(x), root);
    }
    Ok(())
}
