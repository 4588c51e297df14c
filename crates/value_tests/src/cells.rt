//! Cells: values with flags.

use avalue::{AVal, Cellv, Mem};
use c_base::number::BaseId;
use ival_core::Ival;
use std::alloc::Global;

fn unwritten() -> Cellv {
    Cellv {
        value: None,
        uninit: true,
        dead: false,
    }
}

fn pointer(alloc: Global) -> Mem<Cellv> {
    Ok(Cellv {
        value: Some(AVal::address(alloc, BaseId(1), Ival::single(0))?),
        uninit: false,
        dead: false,
    })
}

fn flags(alloc: Global) -> Mem<bool> {
    let both = pointer(alloc)?.join(alloc, &unwritten())?;
    Ok(
        both.uninit
            && !both.dead
            && !both.is_blank()
            && unwritten().is_blank()
            && unwritten().included(&both)
            && !both.included(&unwritten()),
    )
}

fn common_flags(alloc: Global) -> Mem<bool> {
    let both = pointer(alloc)?.join(alloc, &unwritten())?;
    let left = both.meet(alloc, &unwritten())?;
    let kept = both.meet(alloc, &pointer(alloc)?)?;
    Ok(
        left.is_blank()
            && left.uninit
            && !kept.is_blank()
            && !kept.uninit
            && pointer(alloc)?.included(&kept),
    )
}

fn deaths(alloc: Global) -> Mem<bool> {
    let cell = pointer(alloc)?.duplicate(alloc)?;
    let gone = cell.forget_base(alloc, BaseId(1))?;
    let stays = cell.forget_base(alloc, BaseId(2))?;
    Ok(gone.dead && gone.is_blank() && !stays.dead && cell.included(&stays))
}

#[test]
fn flags_join(rt: HostRuntime) {
    assert!(rt; flags(rt.alloc()) == Ok(true));
}

#[test]
fn flags_meet(rt: HostRuntime) {
    assert!(rt; common_flags(rt.alloc()) == Ok(true));
}

#[test]
fn a_dead_base_leaves_a_flag(rt: HostRuntime) {
    assert!(rt; deaths(rt.alloc()) == Ok(true));
}
