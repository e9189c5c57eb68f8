use crate::calls::{
    ANSWERS, BACK, CALLED_BACK, CRASH, FILES, REFUSED, answers, answers_alone, ends, is_replied,
};
use crate::meeting::Meeting;
use crate::waiting::Waiting;
use std::test::Fail;
use xfs_top::OpenGate;

/// Two workers hold the locks of two nodes at one time.
#[test]
fn two_nodes_at_once(rt: HostRuntime) -> Result<(), Fail> {
    let alloc = rt.alloc();
    let gate = Meeting::new();
    assert!(rt; answers(&rt, alloc, &["live", "2"], FILES, &gate, 0, ANSWERS)?);
    assert!(rt; gate.has_met());
    Ok(())
}

/// With no worker each node takes from its rings what the others pushed, and the items are answered as one thread that plays
/// the script answers them.
#[test]
fn cells_in_one_thread(rt: HostRuntime) -> Result<(), Fail> {
    let alloc = rt.alloc();
    assert!(rt; answers(&rt, alloc, &["run"], FILES, &OpenGate, 0, ANSWERS)?);
    assert!(rt; answers_alone(&rt, alloc, FILES, ANSWERS)?);
    Ok(())
}

/// Four workers answer calls on files as one thread does.
#[test]
fn files_by_four_workers(rt: HostRuntime) -> Result<(), Fail> {
    let alloc = rt.alloc();
    assert!(rt; answers(&rt, alloc, &["live", "4"], FILES, &OpenGate, 0, ANSWERS)?);
    Ok(())
}

/// Four workers and two applications answer calls on files as one thread does.
#[test]
fn files_by_applications(rt: HostRuntime) -> Result<(), Fail> {
    let alloc = rt.alloc();
    assert!(rt; answers(&rt, alloc, &["mount", "4"], FILES, &OpenGate, 0, ANSWERS)?);
    Ok(())
}

/// A client crashes and comes back: its application is replied to each of its six calls.
#[test]
fn replies_of_a_crash(rt: HostRuntime) -> Result<(), Fail> {
    let alloc = rt.alloc();
    assert!(rt; answers(&rt, alloc, &["mount", "2"], CRASH, &OpenGate, 0, BACK)?);
    assert!(rt; is_replied(&rt, alloc, &["mount", "2"], CRASH, b"vdgddg")?);
    assert!(rt; !is_replied(&rt, alloc, &["live", "2"], CRASH, b"vdgddg")?);
    Ok(())
}

/// While a worker holds the lock of client 1, an application calls there: the rings carry the calls.
#[test]
fn called_while_entered(rt: HostRuntime) -> Result<(), Fail> {
    let alloc = rt.alloc();
    let gate = Waiting::new();
    assert!(rt; answers(&rt, alloc, &["mount", "2"], FILES, &gate, 0, ANSWERS)?);
    assert!(rt; gate.was_called());
    Ok(())
}

/// Time passes at the one node that needs it, whatever waits there: each item is answered.
#[test]
fn time_passes_everywhere(rt: HostRuntime) -> Result<(), Fail> {
    let alloc = rt.alloc();
    assert!(rt; ends(&rt, alloc, &["live", "1"], CALLED_BACK, 0, b"\nend 4 0\n")?);
    assert!(rt; ends(&rt, alloc, &["live", "4"], CALLED_BACK, 0, b"\nend 4 0\n")?);
    assert!(rt; ends(&rt, alloc, &["mount", "1"], CALLED_BACK, 0, b"\nend 4 0\n")?);
    Ok(())
}

/// Where a restart is refused as lost, and so what another client asks never comes, one worker gives the run up.
#[test]
fn given_up_by_one_worker(rt: HostRuntime) -> Result<(), Fail> {
    let alloc = rt.alloc();
    assert!(rt;
        ends(
            &rt,
            alloc,
            &["live", "1"],
            REFUSED,
            1,
            b"\n12 open\nend 7 1\n"
        )?
    );
    Ok(())
}

/// So do four workers.
#[test]
fn given_up_by_four_workers(rt: HostRuntime) -> Result<(), Fail> {
    let alloc = rt.alloc();
    assert!(rt;
        ends(
            &rt,
            alloc,
            &["live", "4"],
            REFUSED,
            1,
            b"\n12 open\nend 7 1\n"
        )?
    );
    Ok(())
}

/// The application that waits for that answer is told, and its call returns.
#[test]
fn given_up_with_applications(rt: HostRuntime) -> Result<(), Fail> {
    let alloc = rt.alloc();
    assert!(rt;
        ends(
            &rt,
            alloc,
            &["mount", "1"],
            REFUSED,
            1,
            b"\n12 open\nend 7 1\n"
        )?
    );
    Ok(())
}
