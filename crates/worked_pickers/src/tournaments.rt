// The first of the greatest values.
use picker::Tournament;
use std::test::Fail;

#[test]
fn the_first_of_the_greatest_values_wins(rt: HostRuntime) -> Result<(), Fail> {
    let alloc = rt.alloc();
    let rows: [(&[u64], (usize, u64)); 7] = [
        (&[3, 9, 9], (1, 9)),
        (&[0], (0, 0)),
        (&[0, 0, 0, 0, 0], (0, 0)),
        (&[1, 2, 3, 4, 5, 6, 7], (6, 7)),
        (&[7, 6, 5, 4, 3, 2, 1], (0, 7)),
        (&[5, 8, 8, 2, 8, 8], (1, 8)),
        (&[u64::MAX - 1, 0, u64::MAX, 1, u64::MAX], (2, u64::MAX)),
    ];
    for (values, best) in rows {
        if !values.is_empty() {
            assert_eq!(rt; Tournament::new(alloc, values)?.best(), best);
        }
    }
    Ok(())
}

#[test]
fn values_that_are_set_count_in_any_order(rt: HostRuntime) -> Result<(), Fail> {
    let alloc = rt.alloc();
    let mut tournament = Tournament::new(alloc, &[3, 9, 9])?;
    tournament.set(1, 2);
    assert_eq!(rt; tournament.best(), (2, 9));
    tournament.set(2, 3);
    assert_eq!(rt; tournament.best(), (0, 3));
    tournament.set(1, 3);
    tournament.set(0, 0);
    assert_eq!(rt; tournament.best(), (1, 3));
    tournament.refill(&[4, 1, 4]);
    assert_eq!(rt; tournament.best(), (0, 4));
    tournament.set(0, 4);
    tournament.set(2, 5);
    assert_eq!(rt; tournament.best(), (2, 5));
    Ok(())
}
