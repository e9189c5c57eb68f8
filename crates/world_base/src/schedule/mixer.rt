//! Draws by which the network mixes its packets.
ghost use Rattle.std.specs.Prelude.{◌≡◌, ◌<◌};
ghost use Rattle.world_base.specs.Schedule.{drawn_place, mixer_of};

use xfs_base::draws::{drawn, next_number};

/// The place, among so many, of the packet that comes next, after a draw of this number.
pub fn drawn_place(number: u32, count: usize) -> usize
    requires { 0 < count }
    ensures exact { result ≡ drawn_place number count }
    ensures within { result < count }
{
    drawn(next_number(number)) as usize % count
}

/// The mixer that begins with this number; none for 0.
pub fn mixer_of(number: u32) -> Option<u32>
    ensures { result ≡ mixer_of number }
{
    if number == 0 { None } else { Some(number) }
}
