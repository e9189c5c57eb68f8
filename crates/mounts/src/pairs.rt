//! The rings between applications and clients, as they are made.
ghost use Rattle.std.specs.Prelude.{◌≡◌, IfOk};
ghost use Rattle.rtrb.specs.Ring.{producer_capacity};
ghost use Rattle.mounts.specs.Ports.{AreJoined, IsFreshMount, IsFreshPort};

use crate::bell::Bell;
use crate::{Mount, Port, Reply};
use rtrb::RingBuffer;
use std::alloc::Global;
use std::sync::Arc;
use xfs_base::Mem;

/// Joins an application to a client by two rings, of which each has a slot for each of so many calls.
pub fn pair(alloc: Global, calls: u32) -> Mem<(Mount, Port)>
    ensures joined { IfOk result (λ r. AreJoined r.0 r.1) }
    ensures mount { IfOk result (λ r. IsFreshMount r.0) }
    ensures port { IfOk result (λ r. IsFreshPort r.1) }
    ensures slots { IfOk result (λ r. (producer_capacity r.0.calls ≡ calls) × (producer_capacity r.1.replies ≡ calls)) }
{
    let (call, called) = RingBuffer::<u32>::new(alloc, calls as usize)?;
    let (reply, replied) = RingBuffer::<Reply>::new(alloc, calls as usize)?;
    let bell = Arc::new(alloc, Bell::new())?;
    let other = bell.clone()?;
    Ok((
        Mount::start(call, replied, bell),
        Port::start(called, reply, calls, other),
    ))
}
