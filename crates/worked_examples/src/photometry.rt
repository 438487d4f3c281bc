// Webs and their expansion.
use photo_web::{SymKind, Web, WebFault};
use std::test::Fail;
use symmetry::expand;

#[test]
fn a_web_is_accepted_or_refused(rt: HostRuntime) -> Result<(), Fail> {
    let alloc = rt.alloc();
    let web = Web::new(alloc, &[0, 360_000], &[0, 90_000], &[1, 2, 3, 4])?;
    assert_eq!(rt; web.planes(), [0, 360_000].as_slice());
    assert_eq!(rt; web.gammas(), [0, 90_000].as_slice());
    let refused = Web::new(alloc, &[0, 360_000], &[0, 90_000], &[1, 2, 3]);
    assert_eq!(rt; refused.err(), Some(WebFault::Values));
    Ok(())
}

#[test]
fn planes_are_mirrored_and_closed(rt: HostRuntime) -> Result<(), Fail> {
    let alloc = rt.alloc();
    let web = expand(
        alloc,
        SymKind::Plane90,
        &[90_000, 180_000, 270_000],
        &[0, 90_000],
        &[10, 1, 20, 2, 30, 3],
    )?;
    assert_eq!(rt;
        web.planes(),
        [0, 90_000, 180_000, 270_000, 360_000].as_slice()
    );
    Ok(())
}
