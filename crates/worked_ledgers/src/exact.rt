// Exact solutions.
use crate::systems::two_patches;
use exact_model::is_solution;
use std::test::Fail;

#[test]
fn fractions_are_told_from_the_solution(rt: HostRuntime) -> Result<(), Fail> {
    let alloc = rt.alloc();
    let system = two_patches(alloc, 500_000_000)?;
    assert!(rt; is_solution(&system, &[1_000, 0], &[3_200, 800], 3));
    assert!(rt; !is_solution(&system, &[1_000, 0], &[3_200, 801], 3));
    assert!(rt; !is_solution(&system, &[1_000, 0], &[3_200, 800], 0));
    Ok(())
}
