// The replay's inner loops: over the records that the hot part and the buffer settle.
#![tactic(auto)]

ghost use Rattle.std.specs.Prelude.{◌≡◌, ◌+◌, ◌≤◌, length};
ghost use Rattle.std.proofs.lemmas.List.Edits.{sets};
ghost use Rattle.loops.specs.Ways.{stand_at, Stands, settled_reply, way_at, swift_of, Onward};

use face::{Hot, Shows};

// The reply to a record that the fast path settled.
fn answer(out: &mut [u8], put: usize, seen: Shows<Hot>)
    requires { put + 5 ≤ length out.old }
    ensures { out.new ≡ sets out.old put (settled_reply seen) }
{
    let value = face::value_of(seen.answer, seen.value);
    records::reply(out, put, seen.answer.number(), value);
}

// Where a loop over the hot part stands (that it does within recording and reply is the clause Stands, on these two slices besides): the next record's place, its reply's, and how many replies fit behind that one.
#[derive(Clone, Copy)]
pub struct Stand {
    pub hot: Hot,
    pub at: usize,
    pub put: usize,
    pub left: usize,
}

pub fn standing(hot: Hot, at: usize, put: usize, left: usize) -> Stand
    ensures { result ≡ stand_at hot at put left }
{
    Stand { hot, at, put, left }
}

// Replays records that need a glance only, of which the loop holds the next word's place and the interrupt apart.
fn glide(from: Stand, buffer: &mut [u8; 512], rec: &[u8], out: &mut [u8]) -> Stand
    requires { Stands rec.now out.old from }
    ensures { Onward rec.now (way_at from buffer.old out.old) (way_at result buffer.new out.new) }
{
    let Stand {
        hot,
        mut at,
        mut put,
        mut left,
    } = from;
    // Held apart, and not as a Stand, so that they stay in registers (docs/SPEED.md).
    let mut word = glance::place_of(hot);
    let mut raised = hot.signals.raised;
    // A record says itself how many bytes it takes, so that no range gives the places.
    while 0 < left {
        let Ok(record) = records::next(&rec[at..]) else {
            break;
        };
        let Some(shown) = glance::look(hot, word, raised, buffer, record.action) else {
            break;
        };
        records::reply(out, put, 0, shown.value);
        word = shown.word;
        raised = shown.raised;
        at += record.size;
        put += 5;
        left -= 1;
    }
    standing(glance::hot_at(hot, word, raised), at, put, left)
}

// Replays the records that the hot part and the buffer settle, up to the first other one.
#[tactic(auto, unfolding(crate::specs::Ways::swift_as))]
pub fn swift(from: Stand, buffer: &mut [u8; 512], rec: &[u8], out: &mut [u8]) -> Stand
    requires { Stands rec.now out.old from }
    ensures { way_at result buffer.new out.new ≡ swift_of from.left rec.now (way_at from buffer.old out.old) }
{
    // Held apart, and a record says itself how many bytes it takes, as in `glide`.
    let Stand {
        mut hot,
        mut at,
        mut put,
        mut left,
    } = glide(from, buffer, rec, out);
    while 0 < left {
        let Ok(record) = records::next(&rec[at..]) else {
            break;
        };
        let Some(seen) = fastpath::quick(hot, buffer, record.action) else {
            break;
        };
        answer(out, put, seen);
        hot = seen.left;
        at += record.size;
        put += 5;
        left -= 1;
        // With no transfer open a glance shows little, and taking the hot part apart for it does not pay.
        if !hot.idle() {
            let far = glide(standing(hot, at, put, left), buffer, rec, out);
            hot = far.hot;
            at = far.at;
            put = far.put;
            left = far.left;
        }
    }
    standing(hot, at, put, left)
}
