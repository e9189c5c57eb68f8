use crate::{DiskShelf, MemDisk, open};
use std::alloc::Global;
use std::test::Fail;
use xfs_base::{Bytes, FragMeta, Fragment, LogId, Pass, Prior, SegName};

// The shelf of a disk.
fn opened(alloc: Global, disk: MemDisk) -> Option<DiskShelf<MemDisk>> {
    match open(alloc, disk) {
        Ok(shelf) => Some(shelf),
        Err(_) => None,
    }
}

// Fences log 1 at this incarnation, and tells which fence is answered.
fn fenced(alloc: Global, shelf: &mut DiskShelf<MemDisk>, inc: u32) -> Option<u32> {
    if shelf.len() > 1000 {
        return None;
    }
    match shelf.fence(alloc, LogId(1), Pass { inc, att: 0 }) {
        Ok(fence) => Some(fence.inc),
        Err(_) => None,
    }
}

// Opens an empty disk, fences where it stops after so many writes and syncs, and opens what it then has: which fence
// the call answered, if any, and which is there.
fn stopped_after(alloc: Global, passes: u32) -> Option<(Option<u32>, Option<u32>)> {
    let mut shelf = opened(alloc, MemDisk::new(alloc))?;
    shelf.stop_after(passes);
    let answered = fenced(alloc, &mut shelf, 2);
    let mut disk = shelf.close();
    disk.start();
    let mut again = opened(alloc, disk)?;
    let there = fenced(alloc, &mut again, 1);
    Some((answered, there))
}

fn name(seq: u32) -> SegName {
    SegName {
        log: LogId(1),
        seq,
        pass: Pass { inc: 3, att: 0 },
    }
}

// A fragment of two bytes.
fn fragment(alloc: Global, seq: u32) -> Option<Fragment> {
    let bytes = Bytes::of(alloc, &[7, 8]).ok()?;
    Some(Fragment {
        meta: FragMeta {
            name: name(seq),
            group: 1,
            prior: Prior {
                pass: Pass { inc: 3, att: 0 },
                group: 1,
            },
            index: 0,
            len: 2,
        },
        bytes,
    })
}

// One of several changes, on a disk that isn't full: whether it was made.
fn changed(alloc: Global, shelf: &mut DiskShelf<MemDisk>, step: u32) -> bool {
    let (Some(first), Some(second)) = (fragment(alloc, 1), fragment(alloc, 2)) else {
        return false;
    };
    if shelf.len() > 1000 || first.bytes.len() > 2 || second.bytes.len() > 2 {
        return false;
    }
    match step {
        0 => shelf.lose(alloc).is_ok(),
        1 => shelf.store(alloc, first, 2).is_ok(),
        2 => shelf.fill(alloc, second).is_ok(),
        3 => shelf.delete(alloc, name(2)).is_ok(),
        _ => shelf.welcomed(alloc, 2).is_ok(),
    }
}

// After the first fence of a disk, the disk has that record alone, and a closed gate.
#[test]
fn first_fence_is_one_record(rt: HostRuntime) -> Result<(), Fail> {
    let alloc = rt.alloc();
    let mut seen: Vec<u8> = Vec::new(alloc);
    if let Some(mut shelf) = opened(alloc, MemDisk::new(alloc)) {
        let fence = fenced(alloc, &mut shelf, 2);
        assert_eq!(rt; fence, Some(2));
        seen.extend_from_slice(shelf.close().bytes())?;
    }
    assert_eq!(rt;
        seen.as_slice(),
        [1, 2, 0, 0, 0, 9, 1, 0, 0, 0, 2, 0, 0, 0, 0, 0].as_slice()
    );
    Ok(())
}

// Up to the second write a stop leaves the shelf before the call, and from it on the one after it.
#[test]
fn stop_leaves_before_or_after(rt: HostRuntime) -> Result<(), Fail> {
    let alloc = rt.alloc();
    assert_eq!(rt; stopped_after(alloc, 0), Some((None, Some(1))));
    assert_eq!(rt; stopped_after(alloc, 1), Some((None, Some(1))));
    assert_eq!(rt; stopped_after(alloc, 2), Some((None, Some(2))));
    assert_eq!(rt; stopped_after(alloc, 3), Some((None, Some(2))));
    assert_eq!(rt; stopped_after(alloc, 4), Some((Some(2), Some(2))));
    Ok(())
}

// What was changed is there when the disk is opened again.
#[test]
fn opened_again_it_tells_what_was_changed(rt: HostRuntime) -> Result<(), Fail> {
    let alloc = rt.alloc();
    let mut all = true;
    let mut told = (0, 0, 0, 0);
    if let Some(mut shelf) = opened(alloc, MemDisk::new(alloc)) {
        for step in 0..5 {
            if !changed(alloc, &mut shelf, step) {
                all = false;
            }
        }
        if let Some(again) = opened(alloc, shelf.close()) {
            let listed = again.list(alloc)?.len();
            let barred = again.barred(alloc)?.len();
            told = (again.generation(), again.last_welcome(), listed, barred);
        }
    }
    assert!(rt; all);
    assert_eq!(rt; told, (2, 2, 1, 2));
    Ok(())
}
