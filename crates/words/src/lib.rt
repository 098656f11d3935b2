// Data words in bulk: as many words as a transfer passes, a block at a time.
#![tactic(auto)]

ghost use Rattle.std.specs.Prelude.{◌≡◌, ◌≤◌};
ghost use Rattle.face.specs.Face.{face_with};
ghost use Rattle.transfers.specs.Sectors.{Memory};
ghost use Rattle.glance.specs.Places.{hot_at};
ghost use Rattle.words.specs.Blocks.{read_up_to, takes_to, written_up_to, stored_up_to, Moved, Reach};
ghost use Rattle.words.specs.Bulk.{Reads, Writes};

use face::{Front, Hot, Transfer};

// How far a bulk came: the hot part, and how many words have passed.
#[derive(Clone, Copy)]
pub struct Passed {
    pub hot: Hot,
    pub words: usize,
}

// Bytes of one slice, from `at` on, become those of another, from `put` on.
fn copy(from: &[u8], at: usize, to: &mut [u8], put: usize, size: usize)
    requires { Reach from.now at to.old put size }
    ensures { Moved from.now at to.old put size to.new }
{
    to[put..put + size].copy_from_slice(&from[at..at + size]);
}

// The hot part with the next word at another place.
fn placed(hot: Hot, word: u8) -> Hot
    ensures { result ≡ hot_at hot word hot.signals.raised }
{
    glance::hot_at(hot, word, hot.signals.raised)
}

// Words up to that place have been read.
// Memory is a clause and no type, which would take four structs (docs/DECISIONS.md, 65).
#[tactic(auto, unfolding(crate::specs::Blocks::read_up_to, reading::specs::Words::read_run_of, reading::specs::Words::read_next_of, transfers::specs::Words::read_buffer_word))]
fn read_to(front: Front, place: usize, buffer: &mut [u8; 512], sectors: &[u8]) -> Hot
    requires { Memory front.settled.geometry front.settled.translation sectors.now }
    ensures { face_with result front.settled buffer.new ≡ read_up_to (face_with front.hot front.settled buffer.old) sectors.now place }
{
    if place < 256 {
        return placed(front.hot, place as u8);
    }
    match front.hot.transfer {
        Transfer::Reading(r) => reading::read_next(front, r, buffer, sectors),
        Transfer::ReadingBuffer(_) => front.hot.with_transfer(Transfer::Idle),
        _ => front.hot,
    }
}

// Words are read, as many as `out` has room for, up to the first that is turned away.
pub fn read_words(front: Front, buffer: &mut [u8; 512], sectors: &[u8], out: &mut [u8]) -> Passed
    requires { Memory front.settled.geometry front.settled.translation sectors.now }
    ensures { Reads front.hot front.settled buffer.old sectors.now out.old result buffer.new out.new }
{
    let mut hot = front.hot;
    let mut words = 0;
    let wanted = out.len() / 2;
    // A turn passes what is left of a block, which is not the same each time.
    while words < wanted && glance::hands_out(hot.transfer) {
        let place = glance::place_of(hot) as usize;
        let count = (256 - place).min(wanted - words);
        copy(&buffer[..], 2 * place, out, 2 * words, 2 * count);
        hot = read_to(Front { hot, ..front }, place + count, buffer, sectors);
        words += count;
    }
    Passed { hot, words }
}

// Where the words end that the block takes in here. A password block's last word is judged, which takes more of the device.
fn takes_to(transfer: Transfer) -> usize
    ensures { (result ≡ takes_to transfer) × (result ≤ 256) }
{
    match transfer {
        Transfer::Writing(_) | Transfer::WritingBuffer(_) => 256,
        Transfer::TakingPassword(_) => 255,
        _ => 0,
    }
}

// Words up to that place have arrived.
#[tactic(auto, unfolding(crate::specs::Blocks::written_up_to, crate::specs::Blocks::stored_up_to))]
fn write_to(front: Front, place: usize, buffer: &[u8; 512], sectors: &mut [u8]) -> Hot
    requires { Memory front.settled.geometry front.settled.translation sectors.old }
    ensures { (face_with result front.settled buffer.now ≡ written_up_to (face_with front.hot front.settled buffer.now) place) × (sectors.new ≡ stored_up_to (face_with front.hot front.settled buffer.now) sectors.old place) }
{
    if place < 256 {
        return placed(front.hot, place as u8);
    }
    match front.hot.transfer {
        Transfer::Writing(r) => writing::write_last(front, r, buffer, sectors),
        Transfer::WritingBuffer(_) => front.hot.finish(),
        _ => front.hot,
    }
}

// Words are written, up to the first that is turned away or is a password block's last.
pub fn write_words(front: Front, buffer: &mut [u8; 512], sectors: &mut [u8], bytes: &[u8]) -> Passed
    requires { Memory front.settled.geometry front.settled.translation sectors.old }
    ensures { Writes front.hot front.settled buffer.old sectors.old bytes.now result buffer.new sectors.new }
{
    let mut hot = front.hot;
    let mut words = 0;
    let wanted = bytes.len() / 2;
    // A turn takes in what is left of a block, which is not the same each time.
    while words < wanted {
        let place = glance::place_of(hot) as usize;
        let end = takes_to(hot.transfer);
        if place >= end {
            return Passed { hot, words };
        }
        let count = (end - place).min(wanted - words);
        copy(bytes, 2 * words, buffer, 2 * place, 2 * count);
        hot = write_to(Front { hot, ..front }, place + count, buffer, sectors);
        words += count;
    }
    Passed { hot, words }
}
