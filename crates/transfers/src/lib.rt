// What reading and writing share: the sector that an address names, runs of sectors, how commands end, and the data words of the buffer.
#![tactic(auto)]

ghost use Rattle.std.specs.Prelude.{◌≡◌, ◌<◌};
ghost use Rattle.transfers.specs.Sectors.{located, after_of, first_run, next_run, abort_face, finish_face, missed_of};
ghost use Rattle.transfers.specs.Words.{no_transfer, read_buffer_word, buffer_word, word_in, write_buffer_word};

use address::{Address, AddressRegisters};
use face::{Answer, Face, Hot, Registers, Run, Shows, Transfer};
use geometry::Translation;
use settled::Settled;

// The sector that an address names on this disk, by the translation in force.
pub fn located(settled: Settled, at: AddressRegisters) -> Address
    ensures { result ≡ located settled at }
{
    at.address(settled.geometry, settled.translation)
}

// How many sectors come after the first: Sector Count 0 is 256.
#[tactic(auto, unfolding(crate::specs::Sectors::after_of))]
pub fn after_first(count: u8) -> u8
    ensures { result ≡ after_of count }
{
    count.wrapping_sub(1)
}

// The run of a command's first sector.
pub fn first_run(regs: Registers) -> Run
    ensures { result ≡ first_run regs }
{
    Run {
        at: regs.at,
        after: after_first(regs.count),
        word: 0,
    }
}

// The next sector's run.
pub fn next_run(run: Run, translation: Translation) -> Run
    requires { 0 < run.after }
    ensures { result ≡ next_run run translation }
{
    Run {
        at: successor::successor(run.at, translation),
        after: run.after - 1,
        word: 0,
    }
}

// A command aborts. It and `finish` are one call each, by which they differ.
pub fn abort(face: Face) -> Face
    ensures { result ≡ abort_face face }
{
    face.with_hot(face.hot.abort())
}

// A command ends well.
pub fn finish(face: Face) -> Face
    ensures { result ≡ finish_face face }
{
    face.with_hot(face.hot.finish())
}

// A bad address ends a sector command: the address, and the sectors left including it, 256 shown as 00h.
pub fn missed(hot: Hot, run: Run) -> Hot
    ensures { result ≡ missed_of hot run }
{
    let left = run.after.wrapping_add(1);
    hot.ended_at(run.at, left).fail(0x10)
}

// A data word with no transfer that way.
pub fn no_transfer(face: Face) -> Shows<Face>
    ensures { result ≡ no_transfer face }
{
    face::tells(face, Answer::NoTransfer, 0)
}

// A data word of READ BUFFER or IDENTIFY has been read.
#[tactic(auto, unfolding(crate::specs::Words::read_buffer_word))]
fn read_buffer_word(face: Face, word: u8) -> Face
    ensures { result ≡ read_buffer_word face word }
{
    let hot = face.hot;
    if word < 255 {
        return face.with_hot(hot.with_transfer(Transfer::ReadingBuffer(word + 1)));
    }
    face.with_hot(hot.with_transfer(Transfer::Idle))
}

// A data word of READ BUFFER or IDENTIFY is read.
pub fn buffer_word(face: Face, n: u8) -> Shows<Face>
    ensures { result ≡ buffer_word face n }
{
    let value = block::word_at(&face.buffer, n);
    face::tells(read_buffer_word(face, n), Answer::Done, value)
}

// A word arrives in the buffer.
pub fn word_in(face: Face, n: u8, w: u16) -> Face
    ensures { result ≡ word_in face n w }
{
    let mut buffer = face.buffer;
    block::put_word(&mut buffer, n, w);
    face.with_buffer(buffer)
}

// A data word of WRITE BUFFER is written.
#[tactic(auto, unfolding(crate::specs::Words::write_buffer_word))]
pub fn write_buffer_word(face: Face, n: u8, w: u16) -> Face
    ensures { result ≡ write_buffer_word face n w }
{
    let hot = face.hot;
    if n < 255 {
        let next = hot.with_transfer(Transfer::WritingBuffer(n + 1));
        return word_in(face, n, w).with_hot(next);
    }
    word_in(face, n, w).with_hot(hot.finish())
}
