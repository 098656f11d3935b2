// A recording's records: the one that the bytes start with, and the bytes that answer it.
#![tactic(auto)]

ghost use Rattle.std.specs.Prelude.{◌≡◌, ◌+◌, ◌≤◌, length};
ghost use Rattle.std.proofs.lemmas.List.Edits.{sets};
ghost use Rattle.records.specs.Records.{one_byte, two_bytes, three_bytes, next_of};
ghost use Rattle.records.specs.Replies.{reply_bytes, fault_bytes};

use face::Action;

// A record, and how many bytes it takes.
#[derive(Clone, Copy)]
pub struct Record {
    pub action: Action,
    pub size: usize,
}

// Why the bytes start with no whole record.
#[derive(Clone, Copy)]
pub enum NoRecord {
    Nothing,
    Part,
    Malformed,
}

// A payload of one byte.
#[tactic(auto, unfolding(crate::specs::Records::one_byte))]
fn one_byte(kind: u8) -> Result<Record, NoRecord>
    ensures { result ≡ one_byte kind }
{
    let action = match kind {
        3 => Action::ReadWord,
        5 => Action::HardwareReset,
        6 => Action::PowerOn,
        7 => Action::Line,
        _ => return Err(NoRecord::Malformed),
    };
    Ok(Record { action, size: 3 })
}

// A payload of two bytes.
#[tactic(auto, unfolding(crate::specs::Records::two_bytes))]
fn two_bytes(kind: u8, register: u8) -> Result<Record, NoRecord>
    ensures { result ≡ two_bytes kind register }
{
    let action = match kind {
        1 => Action::ReadRegister(register),
        _ => return Err(NoRecord::Malformed),
    };
    Ok(Record { action, size: 4 })
}

// A payload of three bytes.
#[tactic(auto, unfolding(crate::specs::Records::three_bytes))]
fn three_bytes(kind: u8, first: u8, second: u8) -> Result<Record, NoRecord>
    ensures { result ≡ three_bytes kind first second }
{
    let action = match kind {
        2 => Action::WriteRegister(first, second),
        4 => Action::WriteWord(u16::from_be_bytes([first, second])),
        _ => return Err(NoRecord::Malformed),
    };
    Ok(Record { action, size: 5 })
}

// What the bytes start with.
#[tactic(auto, unfolding(crate::specs::Records::payload_of, crate::specs::Records::length_of, crate::specs::Records::next_of))]
pub fn next(bytes: &[u8]) -> Result<Record, NoRecord>
    ensures { result ≡ next_of bytes.now }
{
    match bytes {
        [] => Err(NoRecord::Nothing),
        [_] => Err(NoRecord::Part),
        [high, low, payload @ ..] => match (u16::from_be_bytes([*high, *low]), payload) {
            (1, [kind, ..]) => one_byte(*kind),
            (2, [kind, register, ..]) => two_bytes(*kind, *register),
            (3, [kind, first, second, ..]) => three_bytes(*kind, *first, *second),
            (1 | 2 | 3, _) => Err(NoRecord::Part),
            _ => Err(NoRecord::Malformed),
        },
    }
}

// The reply to one record, from `put` on: a reply stands in fixed memory that is lent, so its place stands beside it.
pub fn reply(out: &mut [u8], put: usize, answer: u8, value: u16)
    requires { put + 5 ≤ length out.old }
    ensures { out.new ≡ sets out.old put (reply_bytes answer value) }
{
    let [high, low] = value.to_be_bytes();
    out[put..put + 5].copy_from_slice(&[0, 3, answer, high, low]);
}

// Answer 5, from `put` on.
pub fn fault(out: &mut [u8], put: usize)
    requires { put + 3 ≤ length out.old }
    ensures { out.new ≡ sets out.old put fault_bytes }
{
    out[put..put + 3].copy_from_slice(&[0, 1, 5]);
}
