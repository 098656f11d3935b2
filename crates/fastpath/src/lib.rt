// The fast path: actions that the register file, the transfer and the buffer settle by themselves.
#![tactic(auto)]

ghost use Rattle.std.specs.Prelude.{◌≡◌};
ghost use Rattle.fastpath.specs.Quick.{goes_on, quick_read_of, quick_write_of, quick_write_buffer, quick_put_of, quick_of, quick_buffer};
ghost use Rattle.fastpath.specs.Dev.{dev_set, unanswered_of, ignored_of, quick_alone, quick_alone_buffer};

use face::{Action, Answer, Hot, Shows, Transfer};

fn goes_on(hot: Hot, transfer: Transfer, value: u16) -> Option<Shows<Hot>>
    ensures { result ≡ goes_on hot transfer value }
{
    Some(face::tells(hot.with_transfer(transfer), Answer::Done, value))
}

#[tactic(auto, unfolding(crate::specs::Quick::quick_read_of))]
fn quick_read(hot: Hot, buffer: &[u8; 512]) -> Option<Shows<Hot>>
    ensures { result ≡ quick_read_of hot buffer.now hot.transfer }
{
    let (word, next) = match hot.transfer {
        Transfer::Reading(r) if r.word < 255 => (r.word, Transfer::Reading(r.next_word())),
        Transfer::ReadingBuffer(n) if n < 255 => (n, Transfer::ReadingBuffer(n + 1)),
        _ => return None,
    };
    goes_on(hot, next, block::word_at(buffer, word))
}

#[tactic(auto, unfolding(crate::specs::Quick::quick_write_of, crate::specs::Quick::quick_write_buffer))]
fn quick_write(hot: Hot, buffer: &mut [u8; 512], w: u16) -> Option<Shows<Hot>>
    ensures { (result ≡ quick_write_of hot hot.transfer) × (buffer.new ≡ quick_write_buffer buffer.old w hot.transfer) }
{
    let (word, next) = match hot.transfer {
        Transfer::Writing(r) if r.word < 255 => (r.word, Transfer::Writing(r.next_word())),
        Transfer::WritingBuffer(n) if n < 255 => (n, Transfer::WritingBuffer(n + 1)),
        Transfer::TakingPassword(b) if b.word < 255 => (
            b.word,
            Transfer::TakingPassword(b.next_word()),
        ),
        _ => return None,
    };
    block::put_word(buffer, word, w);
    goes_on(hot, next, 0)
}

#[tactic(auto, unfolding(crate::specs::Quick::quick_put_of, base::specs::Choice::within))]
fn quick_put(hot: Hot, n: u8, v: u8) -> Option<Shows<Hot>>
    ensures { result ≡ quick_put_of hot n v }
{
    match n {
        1..=6 => Some(face::tells(hot.put_register(n, v), Answer::Done, 0)),
        _ => None,
    }
}

// An action that the hot part and the buffer settle, DEV not looked at.
#[tactic(auto, unfolding(crate::specs::Quick::quick_of, crate::specs::Quick::quick_buffer))]
fn quick_hot(hot: Hot, buffer: &mut [u8; 512], action: Action) -> Option<Shows<Hot>>
    ensures { (result ≡ quick_of hot buffer.old action) × (buffer.new ≡ quick_buffer hot buffer.old action) }
{
    match action {
        Action::ReadRegister(n) => Some(hot.read_register(n)),
        Action::WriteRegister(n, v) => quick_put(hot, n, v),
        Action::ReadWord => quick_read(hot, buffer),
        Action::WriteWord(w) => quick_write(hot, buffer, w),
        Action::Line => Some(face::tells(hot, Answer::Done, hot.line())),
        Action::HardwareReset | Action::PowerOn => None,
    }
}

// DEV: Device/Head bit 4.
#[tactic(auto, unfolding(crate::specs::Dev::dev_set))]
pub fn dev_set(hot: Hot) -> bool
    ensures { result ≡ dev_set hot }
{
    hot.regs.at.head / 16 % 2 == 1
}

// What a device alone on its cable leaves to device 1: reads of 7 and 8, and commands but 90h.
fn unanswered(action: Action) -> bool
    ensures { result ≡ unanswered_of action }
{
    match action {
        Action::ReadRegister(n) => matches!(n, 7 | 8),
        Action::WriteRegister(7, v) => v != 0x90,
        _ => false,
    }
}

// Where DEV is set.
#[tactic(auto, unfolding(crate::specs::Dev::ignored_of))]
pub fn ignored(hot: Hot, action: Action) -> bool
    ensures { result ≡ ignored_of hot action }
{
    unanswered(action) && dev_set(hot)
}

// The fast path: an action that the hot part and the buffer settle.
#[tactic(auto, unfolding(crate::specs::Dev::quick_alone, crate::specs::Dev::quick_alone_buffer))]
pub fn quick(hot: Hot, buffer: &mut [u8; 512], action: Action) -> Option<Shows<Hot>>
    ensures { (result ≡ quick_alone hot buffer.old action) × (buffer.new ≡ quick_alone_buffer hot buffer.old action) }
{
    if ignored(hot, action) {
        return None;
    }
    quick_hot(hot, buffer, action)
}
