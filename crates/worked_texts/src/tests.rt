use crate::scripts::{
    are_faults_told, are_groups_counted, are_limits_kept, is_drawn_so, is_first_fault_told,
};
use crate::segments::{are_changes_told, are_fronts_short, are_lengths_told, is_part_written};
use std::test::Fail;

#[test]
fn agrees_with_worked_texts(rt: HostRuntime) -> Result<(), Fail> {
    let alloc = rt.alloc();
    assert!(rt; is_drawn_so(alloc)?);
    assert!(rt; are_faults_told(alloc)?);
    assert!(rt; are_limits_kept(alloc)?);
    assert!(rt; are_groups_counted(alloc)?);
    assert!(rt; is_first_fault_told(alloc)?);
    assert!(rt; are_fronts_short(alloc));
    assert!(rt; are_changes_told(alloc)?);
    assert!(rt; are_lengths_told(alloc)?);
    assert!(rt; is_part_written(alloc)?);
    Ok(())
}
