// READ and READ VERIFY SECTOR(S) where they reach a sector, and the data words that are read.
#![tactic(auto)]

ghost use Rattle.std.specs.Prelude.{◌≡◌, List, ℕ};
ghost use Rattle.face.specs.Face.{face_with};
ghost use Rattle.transfers.specs.Sectors.{Memory};
ghost use Rattle.reading.specs.Sectors.{read_at, read_sectors_of, verify_last, verify_sectors_of};
ghost use Rattle.reading.specs.Words.{read_next_of, read_run_of, sector_word, read_word_of};

use address::{Address, AddressRegisters};
use face::{Answer, Face, Front, Hot, Run, Shows, Transfer};

// A sector to be read is reached.
// Memory is a clause and no type, which would take four structs (docs/DECISIONS.md, 65).
#[tactic(auto, unfolding(crate::specs::Sectors::read_at, transfers::specs::Sectors::not_found_of))]
fn read_at(front: Front, run: Run, buffer: &mut [u8; 512], sectors: &[u8]) -> Hot
    requires { Memory front.settled.geometry front.settled.translation sectors.now }
    ensures { face_with result front.settled buffer.new ≡ read_at (face_with front.hot front.settled buffer.old) sectors.now run }
{
    let Address::Names(sector) = transfers::located(front.settled, run.at) else {
        return transfers::missed(front.hot, run);
    };
    *buffer = block::load(sectors, sector.number);
    front.hot.raised(Transfer::Reading(run))
}

// READ SECTOR(S) (20h, 21h).
#[tactic(auto, unfolding(crate::specs::Sectors::read_sectors_of))]
pub fn read_sectors(front: Front, buffer: &mut [u8; 512], sectors: &[u8]) -> Hot
    requires { Memory front.settled.geometry front.settled.translation sectors.now }
    ensures { face_with result front.settled buffer.new ≡ read_sectors_of (face_with front.hot front.settled buffer.old) sectors.now }
{
    let run = transfers::first_run(front.hot.regs);
    read_at(front, run, buffer, sectors)
}

// The last sector to be verified.
#[tactic(auto, unfolding(crate::specs::Sectors::verify_last, transfers::specs::Sectors::not_found_of))]
fn verify_last(front: Front, at: AddressRegisters) -> Hot
    ensures { (b : List ℕ) → face_with result front.settled b ≡ verify_last (face_with front.hot front.settled b) at }
{
    let Address::Names(_) = transfers::located(front.settled, at) else {
        let run = Run {
            at,
            after: 0,
            word: 0,
        };
        return transfers::missed(front.hot, run);
    };
    front.hot.ended_at(at, 0).finish()
}

// READ VERIFY SECTOR(S) (40h, 41h).
#[tactic(auto, unfolding(crate::specs::Sectors::verify_sectors_of, transfers::specs::Sectors::not_found_of))]
pub fn verify_sectors(front: Front) -> Hot
    ensures { (b : List ℕ) → face_with result front.settled b ≡ verify_sectors_of (face_with front.hot front.settled b) }
{
    let mut at = front.hot.regs.at;
    for after in (1..=transfers::after_first(front.hot.regs.count)).rev() {
        let Address::Names(_) = transfers::located(front.settled, at) else {
            let run = Run { at, after, word: 0 };
            return transfers::missed(front.hot, run);
        };
        at = successor::successor(at, front.settled.translation);
    }
    verify_last(front, at)
}

// The last word of a sector has been read. A read that ends well raises nothing.
#[tactic(auto, unfolding(crate::specs::Words::read_next_of))]
pub fn read_next(front: Front, run: Run, buffer: &mut [u8; 512], sectors: &[u8]) -> Hot
    requires { Memory front.settled.geometry front.settled.translation sectors.now }
    ensures { face_with result front.settled buffer.new ≡ read_next_of (face_with front.hot front.settled buffer.old) sectors.now run }
{
    if 0 < run.after {
        let next = transfers::next_run(run, front.settled.translation);
        return read_at(front, next, buffer, sectors);
    }
    front.hot.ended_at(run.at, 0).with_transfer(Transfer::Idle)
}

// A word of a sector has been read.
#[tactic(auto, unfolding(crate::specs::Words::read_run_of))]
fn read_run(face: Face, run: Run, sectors: &[u8]) -> Face
    requires { Memory face.settled.geometry face.settled.translation sectors.now }
    ensures { result ≡ read_run_of face sectors.now run }
{
    if run.word < 255 {
        return face.with_hot(face.hot.with_transfer(Transfer::Reading(run.next_word())));
    }
    let mut buffer = face.buffer;
    let left = read_next(face.front(), run, &mut buffer, sectors);
    face.with_hot(left).with_buffer(buffer)
}

// A data word of a sector is read.
fn sector_word(face: Face, run: Run, sectors: &[u8]) -> Shows<Face>
    requires { Memory face.settled.geometry face.settled.translation sectors.now }
    ensures { result ≡ sector_word face sectors.now run }
{
    let value = block::word_at(&face.buffer, run.word);
    face::tells(read_run(face, run, sectors), Answer::Done, value)
}

// A data word is read.
#[tactic(auto, unfolding(crate::specs::Words::read_word_of))]
pub fn read_word(face: Face, sectors: &[u8]) -> Shows<Face>
    requires { Memory face.settled.geometry face.settled.translation sectors.now }
    ensures { result ≡ read_word_of face sectors.now }
{
    match face.hot.transfer {
        Transfer::Reading(r) => sector_word(face, r, sectors),
        Transfer::ReadingBuffer(n) => transfers::buffer_word(face, n),
        _ => transfers::no_transfer(face),
    }
}
