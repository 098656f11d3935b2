// The words of password blocks, and what the last of a block leaves of a disk.
#![tactic(auto)]

ghost use Rattle.std.specs.Prelude.{◌≡◌, ◌<◌};
ghost use Rattle.password.specs.Passwords.{password_ended, ended_as, sectors_as, judged_acted, password_last, password_last_sectors, password_more, password_word, password_word_sectors};

use effects::Acted;
use face::{Face, PasswordBlock, Transfer};
use judging::{Attempt, Judged, Verdict};
use lock::{Purpose, Secrets, Security};

// The settings that a password block left, and the buffer zeroed.
fn password_ended(face: Face, security: Security) -> Face
    ensures { result ≡ password_ended face security }
{
    face.with_settled(face.settled.with_security(security))
        .with_buffer(block::zeros())
}

// The face, by how the command ends.
fn ended_as(face: Face, verdict: Verdict) -> Face
    ensures { result ≡ ended_as face verdict }
{
    match verdict {
        Verdict::EndsWell | Verdict::Erases => transfers::finish(face),
        Verdict::Aborts => transfers::abort(face),
    }
}

// The sectors, by how the command ends.
fn erase_as(verdict: Verdict, sectors: &mut [u8])
    ensures { sectors.new ≡ sectors_as sectors.old verdict }
{
    if let Verdict::Erases = verdict {
        block::zero(sectors);
    }
}

// What a judgement leaves.
fn judged_ends(face: Face, judged: Judged, sectors: &mut [u8]) -> Acted
    ensures { (result ≡ judged_acted face judged) × (sectors.new ≡ sectors_as sectors.old judged.verdict) }
{
    erase_as(judged.verdict, sectors);
    let ended = password_ended(face, judged.security);
    effects::done(ended_as(ended, judged.verdict), judged.secrets)
}

// The last word of a password block has arrived.
#[tactic(auto, unfolding(crate::specs::Passwords::password_last, crate::specs::Passwords::password_last_sectors))]
fn password_last(face: Face, secrets: Secrets, purpose: Purpose, sectors: &mut [u8]) -> Acted
    ensures { (result ≡ password_last face secrets purpose) × (sectors.new ≡ password_last_sectors face secrets sectors.old purpose) }
{
    let block = face.buffer;
    let attempt = Attempt {
        security: face.settled.security,
        secrets,
        block,
    };
    judged_ends(face, attempt.judge(purpose), sectors)
}

// A word of a password block but its last has arrived.
fn password_more(face: Face, block: PasswordBlock, w: u16) -> Face
    requires { block.word < 255 }
    ensures { result ≡ password_more face block w }
{
    let next = face
        .hot
        .with_transfer(Transfer::TakingPassword(block.next_word()));
    transfers::word_in(face, block.word, w).with_hot(next)
}

// A word of a password block is written.
#[tactic(auto, unfolding(crate::specs::Passwords::password_word, crate::specs::Passwords::password_word_sectors))]
pub fn password_word(
    face: Face,
    secrets: Secrets,
    block: PasswordBlock,
    w: u16,
    sectors: &mut [u8],
) -> Acted
    ensures { (result ≡ password_word face secrets block w) × (sectors.new ≡ password_word_sectors face secrets sectors.old block w) }
{
    if block.word < 255 {
        return effects::done(password_more(face, block, w), secrets);
    }
    let filled = transfers::word_in(face, block.word, w);
    password_last(filled, secrets, block.purpose, sectors)
}
