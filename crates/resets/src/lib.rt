// What drops and resets leave of the face: a Command that drops the transfer, Device Control, power-on and hardware reset.
#![tactic(auto)]

ghost use Rattle.std.specs.Prelude.{◌≡◌, List, ℕ};
ghost use Rattle.face.specs.Face.{face_with};
ghost use Rattle.resets.specs.Resets.{drop_purpose, drop_block, drop_as, dropped_of, powered_on_face};
ghost use Rattle.resets.specs.Control.{srst_of, nien_of, held_hot, released_of, soft_reset_of, control_of};

use face::{Front, Hot, PasswordBlock, Transfer};
use lock::Purpose;
use settled::Settled;

// What the drop of a password block clears besides the buffer.
fn drop_purpose(settled: Settled, purpose: Purpose) -> Settled
    ensures { (h : Hot) → (b : List ℕ) → face_with h result b ≡ drop_purpose (face_with h settled b) purpose }
{
    match purpose {
        Purpose::Erase => settled.unprepare(),
        _ => settled,
    }
}

// What the drop of a password block clears.
fn drop_block(settled: Settled, block: PasswordBlock, buffer: &mut [u8; 512]) -> Settled
    ensures { (h : Hot) → face_with h result buffer.new ≡ drop_block (face_with h settled buffer.old) block }
{
    *buffer = block::zeros();
    drop_purpose(settled, block.purpose)
}

// What the drop of this transfer clears.
fn drops(settled: Settled, transfer: Transfer, buffer: &mut [u8; 512]) -> Settled
    ensures { (h : Hot) → face_with h result buffer.new ≡ drop_as (face_with h settled buffer.old) transfer }
{
    match transfer {
        Transfer::TakingPassword(b) => drop_block(settled, b, buffer),
        _ => settled,
    }
}

// A Command write drops the transfer.
#[tactic(auto, unfolding(crate::specs::Resets::dropped_of))]
pub fn drop_transfer(front: Front, buffer: &mut [u8; 512]) -> Front
    ensures { face_with result.hot result.settled buffer.new ≡ dropped_of (face_with front.hot front.settled buffer.old) }
{
    Front {
        hot: front.hot.with_transfer(Transfer::Idle),
        settled: drops(front.settled, front.hot.transfer, buffer),
    }
}

// Power-on and hardware reset, whatever the registers held.
pub fn powered_on(settled: Settled, buffer: &mut [u8; 512]) -> Front
    ensures { (h : Hot) → face_with result.hot result.settled buffer.new ≡ powered_on_face (face_with h settled buffer.old) }
{
    *buffer = block::zeros();
    Front {
        hot: Hot::start(),
        settled: settled.power_on(),
    }
}

// Device Control bit 2. It and bit 1 are one expression each: a function over the bit would be that expression.
#[tactic(auto, unfolding(crate::specs::Control::srst_of))]
fn srst(v: u8) -> bool
    ensures { result ≡ srst_of v }
{
    v / 4 % 2 == 1
}

// Device Control bit 1.
#[tactic(auto, unfolding(crate::specs::Control::nien_of))]
fn nien(v: u8) -> bool
    ensures { result ≡ nien_of v }
{
    v / 2 % 2 == 1
}

// Registers and signals while SRST is held.
fn held(masked: bool) -> Hot
    ensures { result ≡ held_hot masked }
{
    let mut hot = Hot::start();
    hot.signals.held = true;
    hot.signals.masked = masked;
    hot
}

// Device Control with SRST clear.
fn released(mut hot: Hot, masked: bool) -> Hot
    ensures { result ≡ released_of hot masked }
{
    hot.signals.held = false;
    hot.signals.masked = masked;
    hot
}

// Setting SRST, whatever the registers held.
fn soft_reset(settled: Settled, masked: bool, buffer: &mut [u8; 512]) -> Front
    ensures { (h : Hot) → face_with result.hot result.settled buffer.new ≡ soft_reset_of (face_with h settled buffer.old) masked }
{
    *buffer = block::zeros();
    Front {
        hot: held(masked),
        settled: settled.reset(),
    }
}

// A write to Device Control.
#[tactic(auto, unfolding(crate::specs::Control::control_of))]
pub fn control(front: Front, v: u8, buffer: &mut [u8; 512]) -> Front
    ensures { face_with result.hot result.settled buffer.new ≡ control_of (face_with front.hot front.settled buffer.old) v }
{
    let masked = nien(v);
    if srst(v) {
        return soft_reset(front.settled, masked, buffer);
    }
    Front {
        hot: released(front.hot, masked),
        ..front
    }
}
