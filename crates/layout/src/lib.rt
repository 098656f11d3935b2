// A device as bytes that its host keeps: 163 bytes of state, beside the 512 of the sector buffer.
#![tactic(auto)]

ghost use Rattle.std.specs.Prelude.{◌≡◌, ◌+◌, ◌≤◌, length, take, drop, get_or, ◌%◌, ◌/◌, ◌∷◌, []};
ghost use Rattle.std.proofs.lemmas.List.Edits.{sets};
ghost use Rattle.layout.specs.Stored.{address_stored, registers_stored, signals_stored, run_stored, transfer_stored, hot_stored, pair_stored, geometry_stored, translation_stored, lock_stored, security_stored, identity_stored, settled_stored, marks_formed, no_run_stored, transfer_formed, formed_of};
ghost use Rattle.layout.specs.Bytes.{run_bytes, place_bytes, purpose_kind, transfer_bytes, hot_bytes, lock_byte, number_bytes, identity_bytes, front_bytes, secrets_bytes, state_of};

use address::AddressRegisters;
use device::Device;
use face::{Face, Front, Hot, PasswordBlock, Registers, Run, Signals, Transfer};
use geometry::{Geometry, Translation};
use lock::{Lock, Purpose, Secrets, Security};
use settled::{Identity, Settled};

// The state's bytes.
pub type State = [u8; 163];

// Bytes 3 to 6, or 12 to 15: registers 3 to 6 of the file, or of a transfer's current sector.
fn address_at(state: &State, at: usize) -> AddressRegisters
    requires { at + 4 ≤ 163 }
    ensures { result ≡ address_stored state.now at }
{
    AddressRegisters {
        sector: state[at],
        low: state[at + 1],
        high: state[at + 2],
        head: state[at + 3],
    }
}

fn registers_at(state: &State) -> Registers
    ensures { result ≡ registers_stored state.now }
{
    Registers {
        error: state[0],
        features: state[1],
        count: state[2],
        at: address_at(state, 3),
    }
}

// A mark is 1 where it is set.
fn signals_at(state: &State) -> Signals
    ensures { result ≡ signals_stored state.now }
{
    Signals {
        held: state[7] == 1,
        masked: state[8] == 1,
        raised: state[9] == 1,
        failed: state[10] == 1,
    }
}

fn run_at(state: &State) -> Run
    ensures { result ≡ run_stored state.now }
{
    Run {
        at: address_at(state, 12),
        after: state[16],
        word: state[17],
    }
}

// Byte 11: the kind of the transfer.
#[tactic(auto, unfolding(crate::specs::Stored::transfer_stored))]
fn transfer_at(state: &State) -> Transfer
    ensures { result ≡ transfer_stored state.now }
{
    let word = state[17];
    let block = |purpose| Transfer::TakingPassword(PasswordBlock { purpose, word });
    match state[11] {
        0 => Transfer::Idle,
        1 => Transfer::Reading(run_at(state)),
        2 => Transfer::Writing(run_at(state)),
        3 => Transfer::ReadingBuffer(word),
        4 => Transfer::WritingBuffer(word),
        5 => block(Purpose::Set),
        6 => block(Purpose::Unlock),
        7 => block(Purpose::Erase),
        _ => block(Purpose::Disable),
    }
}

// Bytes 0 to 17.
pub fn hot_at(state: &State) -> Hot
    ensures { result ≡ hot_stored state.now }
{
    Hot {
        regs: registers_at(state),
        signals: signals_at(state),
        transfer: transfer_at(state),
    }
}

// Cylinders, heads and sectors in four bytes, as both geometry and translation have them.
fn counts_at(state: &State, at: usize) -> (u16, u8, u8)
    requires { at + 4 ≤ 163 }
    ensures { (result.0 ≡ pair_stored state.now at) × (result.1 ≡ get_or state.now (at + 2) 0) × (result.2 ≡ get_or state.now (at + 3) 0) }
{
    (
        base::pair(state[at], state[at + 1]),
        state[at + 2],
        state[at + 3],
    )
}

// Geometry and translation are two types of the same counts (docs/DECISIONS.md, 3), so each has its literal.
fn geometry_at(state: &State) -> Geometry
    ensures { result ≡ geometry_stored state.now }
{
    let (cylinders, heads, sectors) = counts_at(state, 18);
    Geometry {
        cylinders,
        heads,
        sectors,
    }
}

fn translation_at(state: &State) -> Translation
    ensures { result ≡ translation_stored state.now }
{
    let (cylinders, heads, sectors) = counts_at(state, 22);
    Translation {
        cylinders,
        heads,
        sectors,
    }
}

#[tactic(auto, unfolding(crate::specs::Stored::lock_stored))]
fn lock_of(byte: u8) -> Lock
    ensures { result ≡ lock_stored byte }
{
    match byte {
        0 => Lock::Open,
        1 => Lock::Locked,
        _ => Lock::Frozen,
    }
}

fn security_at(state: &State) -> Security
    ensures { result ≡ security_stored state.now }
{
    Security {
        lock: lock_of(state[26]),
        enabled: state[27] == 1,
        maximum: state[28] == 1,
        attempts: state[29],
        prepared: state[30] == 1,
    }
}

// The bytes from `at` on, as many as the array holds. Places stand beside bytes here, since the definitions speak of bytes from a place on.
fn part_at<const N: usize>(bytes: &[u8], at: usize) -> [u8; N]
    requires { at + N ≤ length bytes.now }
    ensures { result ≡ take N (drop at bytes.now) }
{
    let mut part = [0; N];
    part.copy_from_slice(&bytes[at..at + N]);
    part
}

// Serial, firmware and model, one after the other.
pub fn identity_at(bytes: &[u8], at: usize) -> Identity
    requires { at + 68 ≤ length bytes.now }
    ensures { result ≡ identity_stored bytes.now at }
{
    Identity {
        serial: part_at(bytes, at),
        firmware: part_at(bytes, at + 20),
        model: part_at(bytes, at + 28),
    }
}

// Bytes 18 to 98.
pub fn settled_at(state: &State) -> Settled
    ensures { result ≡ settled_stored state.now }
{
    Settled {
        geometry: geometry_at(state),
        translation: translation_at(state),
        identity: identity_at(state, 31),
        security: security_at(state),
    }
}

// Bytes 0 to 98. Out of line it would write the whole front to memory, of which a call often reads few bytes (docs/SPEED.md).
#[inline(always)]
pub fn front_at(state: &State) -> Front
    ensures { (result.hot ≡ hot_stored state.now) × (result.settled ≡ settled_stored state.now) }
{
    Front {
        hot: hot_at(state),
        settled: settled_at(state),
    }
}

pub fn password_at(bytes: &[u8], at: usize) -> [u8; 32]
    requires { at + 32 ≤ length bytes.now }
    ensures { result ≡ take 32 (drop at bytes.now) }
{
    part_at(bytes, at)
}

fn marks_fit(state: &State) -> bool
    ensures { result ≡ marks_formed state.now }
{
    (state[7] < 2)
        & (state[8] < 2)
        & (state[9] < 2)
        & (state[10] < 2)
        & (state[27] < 2)
        & (state[28] < 2)
        & (state[30] < 2)
}

fn no_run(state: &State) -> bool
    ensures { result ≡ no_run_stored state.now }
{
    (state[12] == 0) & (state[13] == 0) & (state[14] == 0) & (state[15] == 0) & (state[16] == 0)
}

// Bytes that the transfer has no use for are 0.
#[tactic(auto, unfolding(crate::specs::Stored::transfer_formed))]
fn transfer_fits(state: &State) -> bool
    ensures { result ≡ transfer_formed state.now }
{
    match state[11] {
        0 => no_run(state) & (state[17] == 0),
        1 | 2 => true,
        _ => no_run(state) & (state[11] < 9),
    }
}

// Whether the bytes are those of a device: each has one way to be written.
#[tactic(auto, unfolding(crate::specs::Stored::formed_of))]
pub fn formed(state: &[u8]) -> bool
    ensures { result ≡ formed_of state.now }
{
    let Some(state) = state.as_array() else {
        return false;
    };
    marks_fit(state) & transfer_fits(state) & (state[26] < 3)
}

fn run_bytes(kind: u8, run: Run) -> [u8; 7]
    ensures { result ≡ run_bytes kind run }
{
    [
        kind,
        run.at.sector,
        run.at.low,
        run.at.high,
        run.at.head,
        run.after,
        run.word,
    ]
}

// A transfer that has no sector.
fn place_bytes(kind: u8, word: u8) -> [u8; 7]
    ensures { result ≡ place_bytes kind word }
{
    [kind, 0, 0, 0, 0, 0, word]
}

// The bytes of a purpose and a lock state are the layout's own, whatever the order of the variants.
fn purpose_kind(purpose: Purpose) -> u8
    ensures { result ≡ purpose_kind purpose }
{
    match purpose {
        Purpose::Set => 5,
        Purpose::Unlock => 6,
        Purpose::Erase => 7,
        Purpose::Disable => 8,
    }
}

fn transfer_bytes(transfer: Transfer) -> [u8; 7]
    ensures { result ≡ transfer_bytes transfer }
{
    match transfer {
        Transfer::Idle => place_bytes(0, 0),
        Transfer::Reading(r) => run_bytes(1, r),
        Transfer::Writing(r) => run_bytes(2, r),
        Transfer::ReadingBuffer(n) => place_bytes(3, n),
        Transfer::WritingBuffer(n) => place_bytes(4, n),
        Transfer::TakingPassword(b) => place_bytes(purpose_kind(b.purpose), b.word),
    }
}

// The bytes from `at` on become these.
fn put(state: &mut State, at: usize, bytes: &[u8])
    requires { at + length bytes.now ≤ 163 }
    ensures { state.new ≡ sets state.old at bytes.now }
{
    state[at..at + bytes.len()].copy_from_slice(bytes);
}

fn address_bytes(at: AddressRegisters) -> [u8; 4]
    ensures { result ≡ at.sector ∷ at.low ∷ at.high ∷ at.head ∷ [] }
{
    [at.sector, at.low, at.high, at.head]
}

// Bytes 0 to 17 become those of the hot part.
pub fn put_hot(state: &mut State, hot: Hot)
    ensures { state.new ≡ sets state.old 0 (hot_bytes hot) }
{
    let Hot {
        regs,
        signals,
        transfer,
    } = hot;
    let marks = [signals.held, signals.masked, signals.raised, signals.failed].map(u8::from);
    put(state, 0, &[regs.error, regs.features, regs.count]);
    put(state, 3, &address_bytes(regs.at));
    put(state, 7, &marks);
    put(state, 11, &transfer_bytes(transfer));
}

fn lock_byte(lock: Lock) -> u8
    ensures { result ≡ lock_byte lock }
{
    match lock {
        Lock::Open => 0,
        Lock::Locked => 1,
        Lock::Frozen => 2,
    }
}

// Cylinders, heads and sectors in four bytes.
fn count_bytes(cylinders: u16, heads: u8, sectors: u8) -> [u8; 4]
    ensures { result ≡ cylinders % 256 ∷ cylinders / 256 ∷ heads ∷ sectors ∷ [] }
{
    let [low, high] = cylinders.to_le_bytes();
    [low, high, heads, sectors]
}

fn put_numbers(state: &mut State, settled: Settled)
    ensures { state.new ≡ sets state.old 18 (number_bytes settled) }
{
    let Settled {
        geometry,
        translation,
        security,
        ..
    } = settled;
    put(
        state,
        18,
        &count_bytes(geometry.cylinders, geometry.heads, geometry.sectors),
    );
    put(
        state,
        22,
        &count_bytes(
            translation.cylinders,
            translation.heads,
            translation.sectors,
        ),
    );
    put(
        state,
        26,
        &[
            lock_byte(security.lock),
            u8::from(security.enabled),
            u8::from(security.maximum),
            security.attempts,
            u8::from(security.prepared),
        ],
    );
}

fn put_identity(state: &mut State, identity: Identity)
    ensures { (state.new ≡ sets state.old 31 (identity_bytes identity)) × (length (identity_bytes identity) ≡ 68) }
{
    put(state, 31, &identity.serial);
    put(state, 51, &identity.firmware);
    put(state, 59, &identity.model);
}

fn put_secrets(state: &mut State, secrets: Secrets)
    ensures { (state.new ≡ sets state.old 99 (secrets_bytes secrets)) × (length (secrets_bytes secrets) ≡ 64) }
{
    put(state, 99, &secrets.user);
    put(state, 131, &secrets.master);
}

// Bytes 0 to 98 become those of hot and settled part.
pub fn put_front(state: &mut State, front: Front)
    ensures { (state.new ≡ sets state.old 0 (front_bytes front.hot front.settled)) × (length (front_bytes front.hot front.settled) ≡ 99) }
{
    put_hot(state, front.hot);
    put_numbers(state, front.settled);
    put_identity(state, front.settled.identity);
}

// State and buffer become the device's. They stay two parameters here and above (docs/DECISIONS.md, 66).
pub fn put_device(state: &mut State, buffer: &mut [u8; 512], device: Device)
    ensures { (state.new ≡ state_of device) × (buffer.new ≡ device.face.buffer) }
{
    let Face {
        hot,
        settled,
        buffer: block,
    } = device.face;
    put_front(state, Front { hot, settled });
    put_secrets(state, device.secrets);
    *buffer = block;
}
