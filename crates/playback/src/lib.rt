// The definition of the reply, the disk that it starts from, and where a replay stands.
#![tactic(auto)]

ghost use Rattle.std.specs.Prelude.{◌≡◌};
ghost use Rattle.playback.specs.Replay.{spaces, replay_device, is_over, cut_stage};

use device::Device;
use settled::Identity;

// Where a replay stands: before its version byte, among its records, or at its end.
#[derive(Clone, Copy)]
pub enum Stage {
    Opening,
    Replaying,
    Over,
}

impl Stage {
    // No whole record is there.
    pub fn ended(last: bool) -> Stage
        ensures { result ≡ cut_stage last }
    {
        if last {
            return Stage::Over;
        }
        Stage::Replaying
    }

    pub fn over(self) -> bool
        ensures { result ≡ is_over self }
    {
        matches!(self, Stage::Over)
    }
}

#[tactic(auto, unfolding(crate::specs::Replay::spaces))]
fn spaces() -> Identity
    ensures { result ≡ spaces }
{
    Identity {
        serial: [0x20; 20],
        firmware: [0x20; 8],
        model: [0x20; 40],
    }
}

// The replay's disk, just powered on.
pub fn replay_device() -> Device
    ensures { result ≡ replay_device }
{
    Device::setup(4, 2, 8, spaces(), lock::no_password()).device
}
