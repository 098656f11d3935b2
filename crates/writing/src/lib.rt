// WRITE SECTOR(S) where it reaches a sector, and the data words of sectors that are written.
#![tactic(auto)]

ghost use Rattle.std.specs.Prelude.{◌≡◌, List, ℕ};
ghost use Rattle.face.specs.Face.{face_with};
ghost use Rattle.transfers.specs.Sectors.{Memory};
ghost use Rattle.writing.specs.Sectors.{write_at, write_sectors_of};
ghost use Rattle.writing.specs.Words.{want_at, write_next_of, write_last_of, write_last_sectors, write_run_of, write_run_sectors};

use address::Address;
use face::{Face, Front, Hot, Run, Transfer};

// The first sector to be written is reached.
#[tactic(auto, unfolding(crate::specs::Sectors::write_at, transfers::specs::Sectors::not_found_of))]
fn write_at(front: Front, run: Run) -> Hot
    ensures { (b : List ℕ) → face_with result front.settled b ≡ write_at (face_with front.hot front.settled b) run }
{
    let Address::Names(_) = transfers::located(front.settled, run.at) else {
        return transfers::missed(front.hot, run);
    };
    front.hot.with_transfer(Transfer::Writing(run))
}

// WRITE SECTOR(S) (30h, 31h).
#[tactic(auto, unfolding(crate::specs::Sectors::write_sectors_of))]
pub fn write_sectors(front: Front) -> Hot
    ensures { (b : List ℕ) → face_with result front.settled b ≡ write_sectors_of (face_with front.hot front.settled b) }
{
    write_at(front, transfers::first_run(front.hot.regs))
}

// A sector to be written after the first is reached. It differs from write_at in one call: to share the rest, a third function
// would need a definition of its own and be as long as either.
#[tactic(auto, unfolding(crate::specs::Words::want_at, transfers::specs::Sectors::not_found_of))]
fn want_at(front: Front, run: Run) -> Hot
    ensures { (b : List ℕ) → face_with result front.settled b ≡ want_at (face_with front.hot front.settled b) run }
{
    let Address::Names(_) = transfers::located(front.settled, run.at) else {
        return transfers::missed(front.hot, run);
    };
    front.hot.raised(Transfer::Writing(run))
}

// A sector has been stored.
#[tactic(auto, unfolding(crate::specs::Words::write_next_of))]
fn write_next(front: Front, run: Run) -> Hot
    ensures { (b : List ℕ) → face_with result front.settled b ≡ write_next_of (face_with front.hot front.settled b) run }
{
    if 0 < run.after {
        return want_at(front, transfers::next_run(run, front.settled.translation));
    }
    front.hot.ended_at(run.at, 0).finish()
}

// The last word of a sector has arrived: it is stored.
// Memory is a clause and no type, which would take four structs (docs/DECISIONS.md, 65).
#[tactic(auto, unfolding(crate::specs::Words::write_last_of, crate::specs::Words::write_last_sectors, transfers::specs::Sectors::not_found_of))]
pub fn write_last(front: Front, run: Run, buffer: &[u8; 512], sectors: &mut [u8]) -> Hot
    requires { Memory front.settled.geometry front.settled.translation sectors.old }
    ensures { (face_with result front.settled buffer.now ≡ write_last_of (face_with front.hot front.settled buffer.now) run) × (sectors.new ≡ write_last_sectors (face_with front.hot front.settled buffer.now) sectors.old run) }
{
    let Address::Names(sector) = transfers::located(front.settled, run.at) else {
        return transfers::missed(front.hot, run);
    };
    block::store(sectors, sector.number, *buffer);
    write_next(front, run)
}

// A data word of a sector is written.
#[tactic(auto, unfolding(crate::specs::Words::write_run_of, crate::specs::Words::write_run_sectors))]
pub fn write_run(face: Face, run: Run, w: u16, sectors: &mut [u8]) -> Face
    requires { Memory face.settled.geometry face.settled.translation sectors.old }
    ensures { (result ≡ write_run_of face run w) × (sectors.new ≡ write_run_sectors face sectors.old run w) }
{
    let filled = transfers::word_in(face, run.word, w);
    if run.word < 255 {
        let next = face.hot.with_transfer(Transfer::Writing(run.next_word()));
        return filled.with_hot(next);
    }
    let left = write_last(face.front(), run, &filled.buffer, sectors);
    filled.with_hot(left)
}
