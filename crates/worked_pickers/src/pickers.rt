// Places that the rules of picking choose.
ghost use Rattle.std.specs.Prelude.{◌<◌};

use picker::{Picker, greatest, striped, sweep};
use std::test::Fail;

#[test]
fn the_first_of_the_greatest_values_is_picked(rt: HostRuntime) -> Result<(), Fail> {
    let rows: [(&[u64], u64, Option<usize>); 9] = [
        (&[], 0, None),
        (&[], 1, None),
        (&[0, 0, 0], 0, Some(0)),
        (&[0, 0, 0], 1, None),
        (&[3, 9, 9, 2], 9, Some(1)),
        (&[3, 9, 9, 2], 10, None),
        (&[3, 9, 9, 2], 4, Some(1)),
        (&[5], 5, Some(0)),
        (&[u64::MAX - 1, 0, u64::MAX, 1, u64::MAX], u64::MAX, Some(2)),
    ];
    for (values, threshold, place) in rows {
        assert_eq!(rt; greatest(values, threshold), place);
    }
    Ok(())
}

#[test]
fn a_sweep_goes_round_from_its_offset(rt: HostRuntime) -> Result<(), Fail> {
    let rows: [(usize, &[u64], u64, Option<usize>); 12] = [
        (0, &[], 0, None),
        (7, &[], 0, None),
        (2, &[1, 1, 1, 1], 0, Some(2)),
        (0, &[4, 9, 4, 9], 9, Some(1)),
        (2, &[4, 9, 4, 9], 9, Some(3)),
        (3, &[4, 9, 4, 4], 9, Some(1)),
        (1, &[4, 9, 4, 9], 9, Some(1)),
        (6, &[4, 9, 4, 9], 9, Some(3)),
        (usize::MAX, &[9, 4, 4, 4], 5, Some(0)),
        (usize::MAX, &[9, 4, 4, 9], 5, Some(3)),
        (2, &[4, 9, 4, 9], 10, None),
        (1, &[u64::MAX, 0, u64::MAX - 1], u64::MAX, Some(0)),
    ];
    for (offset, values, threshold, place) in rows {
        assert_eq!(rt; sweep(offset, values, threshold), place);
    }
    Ok(())
}

#[test]
fn a_stripe_goes_before_the_other_places(rt: HostRuntime) -> Result<(), Fail> {
    let rows: [(usize, usize, &[u64], u64, Option<usize>); 11] = [
        (0, 1, &[], 0, None),
        (1, 3, &[], 0, None),
        (0, 1, &[0, 0], 0, Some(0)),
        (1, 2, &[0, 0, 0, 0], 0, Some(1)),
        (1, 3, &[9, 1, 9, 9, 9, 9], 9, Some(4)),
        (2, 3, &[9, 1, 9, 9, 9, 9], 9, Some(2)),
        (1, 3, &[1, 1, 9, 9, 1, 9], 9, Some(2)),
        (5, 9, &[1, 7, 7], 7, Some(1)),
        (1, 2, &[3, 3, 3, 3], 4, None),
        (usize::MAX - 1, usize::MAX, &[0, 8], 8, Some(1)),
        (
            1,
            2,
            &[u64::MAX, u64::MAX - 1, 0, u64::MAX],
            u64::MAX,
            Some(3),
        ),
    ];
    for (k, m, values, threshold, place) in rows {
        if k < m {
            assert_eq!(rt; striped(k, m, values, threshold), place);
        }
    }
    Ok(())
}

#[test]
fn a_picker_answers_what_its_choice_does(rt: HostRuntime) -> Result<(), Fail> {
    let alloc = rt.alloc();
    let picker = Picker::new(Box::new(alloc, |values: &[u64], threshold: u64| {
        greatest(values, threshold)
    })?);
    assert_eq!(rt; picker.pick(&[3, 8, 9], 8), Some(2));
    assert_eq!(rt; picker.pick(&[3, 8, 9], 10), None);
    Ok(())
}

#[test]
fn a_picker_may_sweep(rt: HostRuntime) -> Result<(), Fail> {
    let alloc = rt.alloc();
    let offset = 2;
    let picker = Picker::new(Box::new(alloc, move |values: &[u64], threshold: u64| {
        sweep(offset, values, threshold)
    })?);
    assert_eq!(rt; picker.pick(&[8, 9, 3], 8), Some(0));
    assert_eq!(rt; picker.pick(&[8, 9, 3], 10), None);
    Ok(())
}

#[test]
fn a_picker_may_go_by_stripes(rt: HostRuntime) -> Result<(), Fail> {
    let alloc = rt.alloc();
    let (k, m) = (1, 2);
    let picker = Picker::new(Box::new(
        alloc,
        move |values: &[u64], threshold: u64|
            requires { k < m }
        { striped(k, m, values, threshold) },
    )?);
    assert_eq!(rt; picker.pick(&[9, 3, 9, 8], 8), Some(3));
    assert_eq!(rt; picker.pick(&[9, 3, 9, 8], 9), Some(0));
    assert_eq!(rt; picker.pick(&[], 0), None);
    Ok(())
}
