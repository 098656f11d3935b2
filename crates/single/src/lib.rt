// Any single action over a device as lent bytes, with every refusal.
#![tactic(auto)]

ghost use Rattle.std.specs.Prelude.{ℕ, ◌≡◌, true, false, List, None};
ghost use Rattle.std.proofs.lemmas.List.Edits.{sets};
ghost use Rattle.base.specs.Choice.{within};
ghost use Rattle.face.specs.Reads.{number_of, value_of};
ghost use Rattle.fastpath.specs.Dev.{quick_alone};
ghost use Rattle.device.specs.Alone.{alone_of};
ghost use Rattle.layout.specs.Stored.{hot_stored, device_stored, formed_of};
ghost use Rattle.layout.specs.Bytes.{hot_bytes};
ghost use Rattle.lent.specs.Lent.{host_reply, Admitted, lent_of, lent_step, GivesBack};

use face::{Action, Answer, Hot, Shows};
use layout::State;
use lent::Reply;

// What the fast path settled: only the hot part goes back.
fn settle(state: &mut State, seen: Shows<Hot>) -> Reply
    ensures { (result ≡ host_reply (number_of seen.answer) (value_of seen.answer seen.value)) × (state.new ≡ sets state.old 0 (hot_bytes seen.left)) }
{
    layout::put_hot(state, seen.left);
    lent::answered(
        seen.answer.number(),
        face::value_of(seen.answer, seen.value) as u32,
    )
}

// A word read as a bulk of one: at a block's end it takes no more than the hot part. The reply is the record of C, whose answer is a number.
fn read_one(state: &mut State, buffer: &mut [u8; 512], sectors: &[u8]) -> Reply
    requires { Admitted state.old buffer.old sectors.now }
    ensures { GivesBack (lent_of (alone_of (device_stored state.old buffer.old) sectors.now Action.ReadWord)) result state.new buffer.new sectors.now }
{
    let mut out = [0; 2];
    let reply = bulk::read_admitted(state, buffer, sectors, &mut out);
    if reply.answer == 0 {
        return lent::done(base::pair(out[0], out[1]) as u32);
    }
    reply
}

// A word written as a bulk of one.
fn write_one(state: &mut State, buffer: &mut [u8; 512], w: u16, sectors: &mut [u8]) -> Reply
    requires { Admitted state.old buffer.old sectors.old }
    ensures { GivesBack (lent_of (alone_of (device_stored state.old buffer.old) sectors.old (Action.WriteWord w))) result state.new buffer.new sectors.new }
{
    let bytes = w.to_le_bytes();
    let reply = bulk::write_admitted(state, buffer, sectors, &bytes);
    if reply.answer == 0 {
        return lent::done(0);
    }
    reply
}

// What DEV hides: nothing is changed, and a read gives 00h.
fn hidden() -> Reply
    ensures { result ≡ host_reply 0 0 }
{
    lent::done(0)
}

// A Command over hot and settled part, with the buffer where it is lent.
fn command(state: &mut State, buffer: &mut [u8; 512], code: u8, sectors: &[u8]) -> Reply
    requires { Admitted state.old buffer.old sectors.now }
    ensures { GivesBack (lent_of (alone_of (device_stored state.old buffer.old) sectors.now (Action.WriteRegister 7 code))) result state.new buffer.new sectors.now }
{
    let front = layout::front_at(state);
    if fastpath::ignored(front.hot, Action::WriteRegister(7, code)) {
        return hidden();
    }
    let left = commands::command(front, code, buffer, sectors);
    layout::put_front(state, left);
    lent::done(0)
}

// Device Control, whatever the sectors hold.
fn control(state: &mut State, buffer: &mut [u8; 512], v: u8) -> Reply
    requires { formed_of state.old ≡ true }
    ensures { (m : List ℕ) → GivesBack (lent_of (alone_of (device_stored state.old buffer.old) m (Action.WriteRegister 8 v))) result state.new buffer.new m }
{
    let front = layout::front_at(state);
    let left = resets::control(front, v, buffer);
    layout::put_front(state, left);
    lent::done(0)
}

// Power-on and hardware reset, whatever the sectors hold.
fn power_on(state: &mut State, buffer: &mut [u8; 512]) -> Reply
    requires { formed_of state.old ≡ true }
    ensures { (m : List ℕ) → GivesBack (lent_of (alone_of (device_stored state.old buffer.old) m Action.PowerOn)) result state.new buffer.new m }
{
    let settled = layout::settled_at(state);
    let front = resets::powered_on(settled, buffer);
    layout::put_front(state, front);
    lent::done(0)
}

// A write to a register that the fast path leaves open.
fn write_open(state: &mut State, buffer: &mut [u8; 512], n: u8, v: u8, sectors: &[u8]) -> Reply
    requires { Admitted state.old buffer.old sectors.now × (within 1 6 n ≡ false) }
    ensures { GivesBack (lent_of (alone_of (device_stored state.old buffer.old) sectors.now (Action.WriteRegister n v))) result state.new buffer.new sectors.now }
{
    match n {
        7 => command(state, buffer, v, sectors),
        8 => control(state, buffer, v),
        _ => lent::refused(Answer::NoRegister),
    }
}

// An action that the fast path leaves open. Of reads of registers these are the ones that DEV hides; the line it never leaves open.
fn slow(state: &mut State, buffer: &mut [u8; 512], action: Action, sectors: &mut [u8]) -> Reply
    requires { Admitted state.old buffer.old sectors.old × (quick_alone (hot_stored state.old) buffer.old action ≡ None) }
    ensures { GivesBack (lent_of (alone_of (device_stored state.old buffer.old) sectors.old action)) result state.new buffer.new sectors.new }
{
    match action {
        Action::ReadRegister(_) | Action::Line => hidden(),
        Action::WriteRegister(n, v) => write_open(state, buffer, n, v, sectors),
        Action::ReadWord => read_one(state, buffer, sectors),
        Action::WriteWord(w) => write_one(state, buffer, w, sectors),
        Action::HardwareReset | Action::PowerOn => power_on(state, buffer),
    }
}

// An action on a device in shape over its memory.
fn step(state: &mut State, buffer: &mut [u8; 512], action: Action, sectors: &mut [u8]) -> Reply
    requires { Admitted state.old buffer.old sectors.old }
    ensures { GivesBack (lent_of (alone_of (device_stored state.old buffer.old) sectors.old action)) result state.new buffer.new sectors.new }
{
    let hot = layout::hot_at(state);
    match fastpath::quick(hot, buffer, action) {
        Some(seen) => settle(state, seen),
        None => slow(state, buffer, action, sectors),
    }
}

// Any host action on any lent bytes over any memory.
pub fn host(state: &mut [u8], buffer: &mut [u8; 512], action: Action, sectors: &mut [u8]) -> Reply
    ensures { GivesBack (lent_step state.old buffer.old sectors.old action) result state.new buffer.new sectors.new }
{
    match lent::admission(state, sectors) {
        Answer::Done => step(state.as_mut_array().unwrap(), buffer, action, sectors),
        answer => lent::refused(answer),
    }
}

// The same for an action that the fast path never settles, so that it is not asked. A function over either step would take a
// contract on state, buffer and sectors for a few shared lines.
pub fn rare(state: &mut [u8], buffer: &mut [u8; 512], action: Action, sectors: &mut [u8]) -> Reply
    requires { (h : Hot) → (b : List ℕ) → quick_alone h b action ≡ None }
    ensures { GivesBack (lent_step state.old buffer.old sectors.old action) result state.new buffer.new sectors.new }
{
    match lent::admission(state, sectors) {
        Answer::Done => slow(state.as_mut_array().unwrap(), buffer, action, sectors),
        answer => lent::refused(answer),
    }
}

// A register is written. The fast path settles no Command, so that it is not asked.
pub fn write_register(
    state: &mut [u8],
    buffer: &mut [u8; 512],
    n: u8,
    v: u8,
    sectors: &mut [u8],
) -> Reply
    ensures { GivesBack (lent_step state.old buffer.old sectors.old (Action.WriteRegister n v)) result state.new buffer.new sectors.new }
{
    if n == 7 {
        return rare(state, buffer, Action::WriteRegister(n, v), sectors);
    }
    host(state, buffer, Action::WriteRegister(n, v), sectors)
}
