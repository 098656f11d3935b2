// Actions that move nothing of the hot part but the place of the next word and the interrupt: the replay's inner loop holds these two apart.
#![tactic(auto)]

ghost use Rattle.std.specs.Prelude.{◌≡◌};
ghost use Rattle.face.specs.Reads.{line_of};
ghost use Rattle.glance.specs.Places.{place_of, placed_at, with_interrupt, hot_at};
ghost use Rattle.glance.specs.Glances.{shows, hands_out, takes_in, read_glance, write_glance, write_glance_buffer, status_glance, register_glance, glance_of, glance_buffer};

use face::{Action, Hot, PasswordBlock, Run, Signals, Transfer};

// What an action shows that a glance settles: the place of the next word after it, its value, and the interrupt after it.
// In this order it takes 6 bytes: one of 4 is copied in one register, and `loops::glide` would take it apart for each record.
#[derive(Clone, Copy)]
pub struct Shown {
    pub word: u8,
    pub value: u16,
    pub raised: bool,
}

// Place and interrupt are two numbers to each function here, as to the definitions: `loops::glide` holds them in registers.

// The place of the transfer's next word.
pub fn place_of(hot: Hot) -> u8
    ensures { result ≡ place_of hot.transfer }
{
    match hot.transfer {
        Transfer::Idle => 0,
        Transfer::Reading(r) | Transfer::Writing(r) => r.word,
        Transfer::ReadingBuffer(n) | Transfer::WritingBuffer(n) => n,
        Transfer::TakingPassword(b) => b.word,
    }
}

fn placed_at(transfer: Transfer, word: u8) -> Transfer
    ensures { result ≡ placed_at transfer word }
{
    match transfer {
        Transfer::Idle => Transfer::Idle,
        Transfer::Reading(r) => Transfer::Reading(Run { word, ..r }),
        Transfer::Writing(r) => Transfer::Writing(Run { word, ..r }),
        Transfer::ReadingBuffer(_) => Transfer::ReadingBuffer(word),
        Transfer::WritingBuffer(_) => Transfer::WritingBuffer(word),
        Transfer::TakingPassword(b) => Transfer::TakingPassword(PasswordBlock { word, ..b }),
    }
}

fn with_interrupt(hot: Hot, raised: bool) -> Hot
    ensures { result ≡ with_interrupt hot raised }
{
    let signals = Signals {
        raised,
        ..hot.signals
    };
    Hot { signals, ..hot }
}

// The hot part, with what was held apart put back.
pub fn hot_at(hot: Hot, word: u8, raised: bool) -> Hot
    ensures { result ≡ hot_at hot word raised }
{
    with_interrupt(hot, raised).with_transfer(placed_at(hot.transfer, word))
}

// Its words are for the guest to read.
pub fn hands_out(transfer: Transfer) -> bool
    ensures { result ≡ hands_out transfer }
{
    matches!(transfer, Transfer::Reading(_) | Transfer::ReadingBuffer(_))
}

// Its words are for the guest to write.
fn takes_in(transfer: Transfer) -> bool
    ensures { result ≡ takes_in transfer }
{
    matches!(
        transfer,
        Transfer::Writing(_) | Transfer::WritingBuffer(_) | Transfer::TakingPassword(_)
    )
}

#[tactic(auto, unfolding(crate::specs::Glances::read_glance))]
fn look_read(transfer: Transfer, word: u8, raised: bool, buffer: &[u8; 512]) -> Option<Shown>
    ensures { result ≡ read_glance transfer word raised buffer.now }
{
    if hands_out(transfer) && word < 255 {
        let value = block::word_at(buffer, word);
        return Some(Shown {
            word: word + 1,
            raised,
            value,
        });
    }
    None
}

#[tactic(auto, unfolding(crate::specs::Glances::write_glance, crate::specs::Glances::write_glance_buffer))]
fn look_write(
    transfer: Transfer,
    word: u8,
    raised: bool,
    buffer: &mut [u8; 512],
    w: u16,
) -> Option<Shown>
    ensures { (result ≡ write_glance transfer word raised) × (buffer.new ≡ write_glance_buffer transfer word buffer.old w) }
{
    if takes_in(transfer) && word < 255 {
        block::put_word(buffer, word, w);
        return Some(Shown {
            word: word + 1,
            raised,
            value: 0,
        });
    }
    None
}

#[tactic(auto, unfolding(crate::specs::Glances::status_glance))]
fn look_status(hot: Hot, word: u8, raised: bool) -> Option<Shown>
    ensures { result ≡ status_glance hot word raised }
{
    if fastpath::dev_set(hot) {
        return None;
    }
    let value = hot.status() as u16;
    Some(Shown {
        word,
        raised,
        value,
    })
}

#[tactic(auto, unfolding(crate::specs::Glances::register_glance))]
fn look_register(hot: Hot, word: u8, raised: bool, n: u8) -> Option<Shown>
    ensures { result ≡ register_glance hot word raised n }
{
    match n {
        7 => look_status(hot, word, false),
        8 => look_status(hot, word, raised),
        _ => None,
    }
}

fn look_line(hot: Hot, word: u8, raised: bool) -> Shown
    ensures { result ≡ shows word raised (line_of (with_interrupt hot raised)) }
{
    let value = with_interrupt(hot, raised).line();
    Shown {
        word,
        raised,
        value,
    }
}

// The action on the hot part, whose next word's place and interrupt are these; none where more of the device is needed.
#[tactic(auto, unfolding(crate::specs::Glances::glance_of, crate::specs::Glances::glance_buffer))]
pub fn look(
    hot: Hot,
    word: u8,
    raised: bool,
    buffer: &mut [u8; 512],
    action: Action,
) -> Option<Shown>
    ensures { (result ≡ glance_of hot word raised buffer.old action) × (buffer.new ≡ glance_buffer hot word buffer.old action) }
{
    match action {
        Action::ReadRegister(n) => look_register(hot, word, raised, n),
        Action::ReadWord => look_read(hot.transfer, word, raised, buffer),
        Action::WriteWord(w) => look_write(hot.transfer, word, raised, buffer, w),
        Action::Line => Some(look_line(hot, word, raised)),
        Action::WriteRegister(_, _) | Action::HardwareReset | Action::PowerOn => None,
    }
}
