// What calls over a device as lent bytes have in common: the reply, how they are let in; and setup.
#![tactic(auto)]

ghost use Rattle.std.specs.Prelude.{◌≡◌};
ghost use Rattle.face.specs.Reads.{number_of};
ghost use Rattle.lent.specs.Lent.{host_reply, admission_of};
ghost use Rattle.lent.specs.Setup.{zero_lent, lent_setup, Sets};

use device::Device;
use face::Answer;
use layout::State;

// The answer's number, and its value, as the C header has them.
#[repr(C)]
#[derive(Clone, Copy)]
pub struct Reply {
    pub answer: u32,
    pub value: u32,
}

pub fn answered(number: u8, value: u32) -> Reply
    ensures { result ≡ host_reply number value }
{
    Reply {
        answer: number as u32,
        value,
    }
}

pub fn done(value: u32) -> Reply
    ensures { result ≡ host_reply (number_of Answer.Done) value }
{
    answered(Answer::Done.number(), value)
}

pub fn refused(answer: Answer) -> Reply
    ensures { result ≡ host_reply (number_of answer) 0 }
{
    answered(answer.number(), 0)
}

// Whether a call goes on: Done, or why it is turned away. At Done the state has its 163 bytes, so that callers unwrap the array.
#[tactic(auto, unfolding(crate::specs::Lent::admission_of))]
pub fn admission(state: &[u8], sectors: &[u8]) -> Answer
    ensures { result ≡ admission_of state.now sectors.now }
{
    let Some(state) = state.as_array() else {
        return Answer::OutOfShape;
    };
    if !layout::formed(state) {
        return Answer::OutOfShape;
    }
    let front = layout::front_at(state);
    if !device::fits(front) {
        return Answer::OutOfShape;
    }
    if sectors.len() != 512 * (front.settled.geometry.capacity() as usize) {
        return Answer::WrongLength;
    }
    Answer::Done
}

// State and buffer become all zero: what a refused setup hands back. Here and above they stay two parameters (docs/DECISIONS.md, 66).
fn refuse_setup(state: &mut State, buffer: &mut [u8; 512]) -> Reply
    ensures { Sets (zero_lent state.old) result state.new buffer.new }
{
    block::zero(state);
    *buffer = block::zeros();
    refused(Answer::SetupRefused)
}

// Setup: state and buffer become a disk's just powered on, or all zero where it is refused.
#[tactic(auto, unfolding(crate::specs::Setup::lent_setup))]
pub fn setup(
    state: &mut [u8],
    buffer: &mut [u8; 512],
    cylinders: u16,
    heads: u8,
    sectors: u8,
    identity: &[u8],
    master: &[u8],
) -> Reply
    ensures { Sets (lent_setup state.old buffer.old cylinders heads sectors identity.now master.now) result state.new buffer.new }
{
    let Some(state) = state.as_mut_array() else {
        return refused(Answer::OutOfShape);
    };
    if identity.len() != 68 || master.len() != 32 {
        return refuse_setup(state, buffer);
    }
    let identity = layout::identity_at(identity, 0);
    let master = layout::password_at(master, 0);
    let outcome = Device::setup(cylinders, heads, sectors, identity, master);
    layout::put_device(state, buffer, outcome.device);
    answered(outcome.number, 0)
}
