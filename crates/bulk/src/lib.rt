// Data words in bulk over a device as lent bytes.
#![tactic(auto)]

ghost use Rattle.std.specs.Prelude.{◌≡◌, true, false, ◌/◌, ◌≤◌, length};
ghost use Rattle.lent.specs.Lent.{Admitted, GivesBack};
ghost use Rattle.words.specs.Words.{words_in};
ghost use Rattle.words.specs.Blocks.{takes_here};
ghost use Rattle.bulk.specs.Bulk.{counted_reply, LastWord, reads_admitted, words_admitted, read_lent, words_lent, ReadsLent, writes_admitted, write_lent};

use device::Device;
use effects::Acted;
use face::{Answer, Front, PasswordBlock, Transfer};
use layout::State;
use lent::Reply;
use lock::Secrets;
use words::Passed;

// How many words passed; where none did of those that were wanted, the call is turned away.
#[tactic(auto, unfolding(crate::specs::Bulk::counted_reply))]
fn counted(passed: usize, wanted: usize) -> Reply
    requires { passed ≤ 65536 }
    ensures { result ≡ counted_reply passed wanted }
{
    if passed == 0 && wanted > 0 {
        return lent::refused(Answer::NoTransfer);
    }
    lent::done(passed as u32)
}

// Words are read from a device in shape over its memory: Admitted is a clause on three lent parts, which no type holds (docs/DECISIONS.md, 66).
pub fn read_admitted(
    state: &mut State,
    buffer: &mut [u8; 512],
    sectors: &[u8],
    out: &mut [u8],
) -> Reply
    requires { Admitted state.old buffer.old sectors.now }
    ensures { ReadsLent (reads_admitted state.old buffer.old sectors.now (length out.old / 2)) (words_admitted state.old buffer.old sectors.now (length out.old / 2)) out.old result state.new buffer.new sectors.now out.new }
{
    let front = layout::front_at(state);
    let wanted = out.len() / 2;
    let passed = words::read_words(front, buffer, sectors, out);
    layout::put_hot(state, passed.hot);
    counted(passed.words, wanted)
}

// Data words are read into `out`, as many as it has room for, up to the first that is turned away.
pub fn read_words(state: &mut [u8], buffer: &mut [u8; 512], sectors: &[u8], out: &mut [u8]) -> Reply
    ensures { ReadsLent (read_lent state.old buffer.old sectors.now (length out.old / 2)) (words_lent state.old buffer.old sectors.now (length out.old / 2)) out.old result state.new buffer.new sectors.now out.new }
{
    match lent::admission(state, sectors) {
        Answer::Done => read_admitted(state.as_mut_array().unwrap(), buffer, sectors, out),
        answer => lent::refused(answer),
    }
}

// A password block's word, which may take the whole device, whose hot part is held apart.
fn block_word(
    state: &mut State,
    buffer: &mut [u8; 512],
    front: Front,
    taking: PasswordBlock,
    w: u16,
    sectors: &mut [u8],
)
    requires { front.hot.transfer ≡ Transfer.TakingPassword taking }
    ensures { LastWord state.old buffer.old front.hot front.settled w sectors.old true state.new buffer.new sectors.new }
{
    let user = layout::password_at(state, 99);
    let master = layout::password_at(state, 131);
    let secrets = Secrets { user, master };
    let face = front.with_buffer(*buffer);
    let Acted { face, secrets, .. } = password::password_word(face, secrets, taking, w, sectors);
    layout::put_device(state, buffer, Device { face, secrets });
}

// The word that is not taken in with those before it: a password block's last, or one that is turned away. Whether it is taken.
fn last_word(
    state: &mut State,
    buffer: &mut [u8; 512],
    front: Front,
    w: u16,
    sectors: &mut [u8],
) -> bool
    requires { takes_here front.hot.transfer ≡ false }
    ensures { LastWord state.old buffer.old front.hot front.settled w sectors.old result state.new buffer.new sectors.new }
{
    let Transfer::TakingPassword(taking) = front.hot.transfer else {
        return false;
    };
    block_word(state, buffer, front, taking, w, sectors);
    true
}

// Words are written to a device in shape over its memory.
pub fn write_admitted(
    state: &mut State,
    buffer: &mut [u8; 512],
    sectors: &mut [u8],
    bytes: &[u8],
) -> Reply
    requires { Admitted state.old buffer.old sectors.old }
    ensures { GivesBack (writes_admitted state.old buffer.old sectors.old (words_in bytes.now)) result state.new buffer.new sectors.new }
{
    let front = layout::front_at(state);
    let wanted = bytes.len() / 2;
    let Passed { hot, words } = words::write_words(front, buffer, sectors, bytes);
    if words < wanted {
        let w = base::pair(bytes[2 * words], bytes[2 * words + 1]);
        if last_word(state, buffer, Front { hot, ..front }, w, sectors) {
            return counted(words + 1, wanted);
        }
    }
    layout::put_hot(state, hot);
    counted(words, wanted)
}

// Data words are written, up to the first that is turned away. What it shares with read_words is how a call is let in: a function over both
// would need a clause on every byte that is lent for these few lines.
pub fn write_words(
    state: &mut [u8],
    buffer: &mut [u8; 512],
    sectors: &mut [u8],
    bytes: &[u8],
) -> Reply
    ensures { GivesBack (write_lent state.old buffer.old sectors.old (words_in bytes.now)) result state.new buffer.new sectors.new }
{
    match lent::admission(state, sectors) {
        Answer::Done => write_admitted(state.as_mut_array().unwrap(), buffer, sectors, bytes),
        answer => lent::refused(answer),
    }
}
