//! Each call once, with ample memory.

use sg_apery::Table;
use sg_betti::{is_presentable, presentation};
use sg_degrees::{catenary, max_delta, min_delta};
use std::test::Fail;

#[test]
fn chains_of_six_nine_and_twenty(rt: HostRuntime) -> Result<(), Fail> {
    let alloc = rt.alloc();
    let t = Table::from_generators(alloc, &[6, 9, 20])?;
    assert!(rt; is_presentable(&t));
    let p = presentation(alloc, &t)?;
    assert_eq!(rt; catenary(alloc, &t, &p)?, 7);
    Ok(())
}

#[test]
fn deltas_of_six_nine_and_twenty(rt: HostRuntime) -> Result<(), Fail> {
    let alloc = rt.alloc();
    let t = Table::from_generators(alloc, &[6, 9, 20])?;
    assert!(rt; is_presentable(&t));
    let p = presentation(alloc, &t)?;
    assert_eq!(rt; max_delta(alloc, &t, &p)?, Some(4));
    assert_eq!(rt; min_delta(&t), Some(1));
    Ok(())
}
