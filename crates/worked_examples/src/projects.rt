// A project that is read with its check, two that are refused, and one that a number gives.
use project_file::{ProjFault, read_project};
use std::test::Fail;
use worked_texts::{CHECKED_CUBE, CUBE};
use workload::project_of;

#[test]
fn a_project_says_its_files_and_luminaires(rt: HostRuntime) -> Result<(), Fail> {
    let alloc = rt.alloc();
    let project = read_project(alloc, CUBE.as_bytes())?;
    assert_eq!(rt; project.room().walls, [500; 4]);
    assert_eq!(rt; project.threshold(), 5_000_000_000);
    assert_eq!(rt; project.files().len(), 1);
    match project.fixtures().first() {
        Some(fixture) => assert_eq!(rt; fixture.level, 1_000),
        None => return Err(Fail::from("no luminaire")),
    }
    Ok(())
}

#[test]
fn a_check_says_its_rectangle_and_its_limits(rt: HostRuntime) -> Result<(), Fail> {
    let project = read_project(rt.alloc(), CHECKED_CUBE.as_bytes())?;
    let [check] = project.checks() else {
        return Err(Fail::from("not one check"));
    };
    assert_eq!(rt; check.name.as_str(), "floor");
    assert_eq!(rt;
        [check.x0, check.x1, check.y0, check.y1, check.z],
        [0, 1_000, 250, 750, 5]
    );
    assert_eq!(rt; [check.px, check.py], [4, 2]);
    assert_eq!(rt;
        [check.maintenance, check.average, check.uniformity],
        [800, 5, 600]
    );
    Ok(())
}

// The folders of examples/cases hold many more.
#[test]
fn a_project_is_refused_by_its_first_fault(rt: HostRuntime) -> Result<(), Fail> {
    let alloc = rt.alloc();
    assert!(rt; matches!(read_project(alloc, b"version"), Err(ProjFault::Toml)));
    match read_project(alloc, b"version = 1") {
        Err(ProjFault::Missing { name }) => assert_eq!(rt; name.as_str(), "room"),
        _ => return Err(Fail::from("another fault")),
    }
    Ok(())
}

#[test]
fn a_number_gives_a_project(rt: HostRuntime) -> Result<(), Fail> {
    let (project, web) = project_of(rt.alloc(), 0)?;
    let room = project.room();
    assert_eq!(rt;
        [room.width, room.depth, room.height],
        [4_000, 6_000, 3_250]
    );
    assert_eq!(rt; [room.nx, room.ny, room.nz], [8, 12, 6]);
    assert_eq!(rt; [room.floor, room.ceiling], [200, 750]);
    assert_eq!(rt; room.walls, [500; 4]);
    assert_eq!(rt; project.fixtures().len(), 4);
    assert_eq!(rt; project.checks().len(), 0);
    assert_eq!(rt; web.gammas().len(), 4);
    Ok(())
}
