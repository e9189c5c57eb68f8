//! The horizon of a log.
ghost use Rattle.std.specs.Prelude.{◌≡◌};
ghost use Rattle.log_scan.specs.Transition.{horizon_of, least_horizon};

use xfs_base::{LogId, SlotNews};

/// The first number of a log that is not covered by the slot's checkpoint.
fn horizon_of(log: LogId, slot: &SlotNews) -> u32
    ensures { result ≡ horizon_of log.0 slot.now }
{
    let place = usize::from(log.0).saturating_sub(1);
    match slot.horizon.get(place) {
        Some(horizon) => *horizon,
        None => 1,
    }
}

/// The least horizon of a log.
pub(crate) fn least_horizon(log: LogId, slots: &[SlotNews]) -> u32
    ensures { result ≡ least_horizon log.0 slots.now }
{
    let mut least = u32::MAX;
    for slot in slots {
        least = least.min(horizon_of(log, slot));
    }
    least
}
