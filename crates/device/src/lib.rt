// The device: one disk alone on its cable. Setup, the host's actions with every refusal, and the rules for DEV.
#![tactic(auto)]

ghost use Rattle.std.specs.Prelude.{◌≡◌};
ghost use Rattle.transfers.specs.Sectors.{Memory};
ghost use Rattle.device.specs.Setup.{zero_device, fresh_of, setup_of};
ghost use Rattle.device.specs.Alone.{outcome, quick_outcome, told_of, acted_of, alone_of};
ghost use Rattle.device.specs.Host.{alone_fits, parts_shaped, shaped_of, step_of};

use effects::Acted;
use face::{Action, Answer, Face, Front, Hot, Shows};
use geometry::Geometry;
use lock::Secrets;
use settled::Identity;

#[derive(Clone, Copy)]
pub struct Device {
    pub face: Face,
    pub secrets: Secrets,
}

// The answer's number and value, and the device as the action left it: "number, value, device" are what document 01 settles, so the
// number stays a number (docs/DECISIONS.md, 62).
#[derive(Clone, Copy)]
pub struct Outcome {
    pub number: u8,
    pub value: u16,
    pub device: Device,
}

// The record that a refused setup hands back: every number 0, no mark set.
fn zero_device() -> Device
    ensures { result ≡ zero_device }
{
    let face = face::zero_face();
    let secrets = Secrets::fresh(lock::no_password());
    Device { face, secrets }
}

// A disk of this geometry, identity and master password, just powered on.
fn fresh(geometry: Geometry, identity: Identity, master: [u8; 32]) -> Device
    ensures { result ≡ fresh_of geometry identity master }
{
    let settled = settled::fresh(geometry, identity);
    let face = disk::powered_on(face::zero_face().with_settled(settled));
    let secrets = Secrets::fresh(master);
    Device { face, secrets }
}

// The clauses of answer 2 on DEV.
#[tactic(auto, unfolding(crate::specs::Host::alone_fits))]
fn alone_fits(hot: Hot) -> bool
    ensures { result ≡ alone_fits hot }
{
    !fastpath::dev_set(hot) || (!hot.signals.held && hot.idle())
}

// The clauses of answer 2, over the parts that they speak of.
pub fn fits(front: Front) -> bool
    ensures { result ≡ parts_shaped front.settled front.hot }
{
    shape::fits(front) && alone_fits(front.hot)
}

// What a disk's own action left.
fn told(left: Acted) -> Outcome
    ensures { result ≡ told_of left }
{
    let device = Device {
        face: left.face,
        secrets: left.secrets,
    };
    device.shows(left.answer, left.value)
}

impl Device {
    fn shows(self, answer: Answer, value: u16) -> Outcome
        ensures { result ≡ outcome self answer value }
    {
        Outcome {
            number: answer.number(),
            value: face::value_of(answer, value),
            device: self,
        }
    }

    // Setup: refused outside the limits, else a disk just powered on.
    #[tactic(auto, unfolding(crate::specs::Setup::setup_of))]
    pub fn setup(
        cylinders: u16,
        heads: u8,
        sectors: u8,
        identity: Identity,
        master: [u8; 32],
    ) -> Outcome
        ensures { result ≡ setup_of cylinders heads sectors identity master }
    {
        match Geometry::new(cylinders, heads, sectors) {
            Some(geometry) if identity.fits() => {
                fresh(geometry, identity, master).shows(Answer::Done, 0)
            }
            _ => zero_device().shows(Answer::SetupRefused, 0),
        }
    }

    // The clauses of answer 2.
    #[tactic(auto, unfolding(crate::specs::Host::shaped_of))]
    pub fn shaped(self) -> bool
        ensures { result ≡ shaped_of self }
    {
        fits(self.face.front())
    }

    // The disk's own action.
    // Memory is a clause and no type, which would take four structs (docs/DECISIONS.md, 65).
    fn acted(self, action: Action, sectors: &mut [u8]) -> Outcome
        requires { Memory self.face.settled.geometry self.face.settled.translation sectors.old }
        ensures { (result ≡ (acted_of self sectors.old action).outcome) × (sectors.new ≡ (acted_of self sectors.old action).sectors) }
    {
        let left = disk::act(self.face, self.secrets, action, sectors);
        told(left)
    }

    // An action over the disk's own memory, the long way.
    #[tactic(auto, unfolding(crate::specs::Alone::alone_of))]
    pub fn act(self, action: Action, sectors: &mut [u8]) -> Outcome
        requires { Memory self.face.settled.geometry self.face.settled.translation sectors.old }
        ensures { (result ≡ (alone_of self sectors.old action).outcome) × (sectors.new ≡ (alone_of self sectors.old action).sectors) }
    {
        if fastpath::ignored(self.face.hot, action) {
            return self.shows(Answer::Done, 0);
        }
        self.acted(action, sectors)
    }

    // What the fast path settled, put in place.
    fn settles(self, buffer: [u8; 512], seen: Shows<Hot>) -> Outcome
        ensures { result ≡ quick_outcome self buffer seen }
    {
        let face = self.face.with_buffer(buffer).with_hot(seen.left);
        Device { face, ..self }.shows(seen.answer, seen.value)
    }

    // The same action, by the fast path where it settles it.
    fn step(self, action: Action, sectors: &mut [u8]) -> Outcome
        requires { Memory self.face.settled.geometry self.face.settled.translation sectors.old }
        ensures { (result ≡ (alone_of self sectors.old action).outcome) × (sectors.new ≡ (alone_of self sectors.old action).sectors) }
    {
        let mut buffer = self.face.buffer;
        match fastpath::quick(self.face.hot, &mut buffer, action) {
            Some(seen) => self.settles(buffer, seen),
            None => self.act(action, sectors),
        }
    }

    // Any host action on any device over any memory.
    #[tactic(auto, unfolding(crate::specs::Host::step_of))]
    pub fn host(self, action: Action, sectors: &mut [u8]) -> Outcome
        ensures { (result ≡ (step_of self sectors.old action).outcome) × (sectors.new ≡ (step_of self sectors.old action).sectors) }
    {
        if !self.shaped() {
            return self.shows(Answer::OutOfShape, 0);
        }
        if sectors.len() != 512 * (self.face.settled.geometry.capacity() as usize) {
            return self.shows(Answer::WrongLength, 0);
        }
        self.step(action, sectors)
    }

    // The host's seven calls: each is `host` with its action.
    pub fn read_register(self, n: u8, sectors: &mut [u8]) -> Outcome
        ensures { (result ≡ (step_of self sectors.old (Action.ReadRegister n)).outcome) × (sectors.new ≡ (step_of self sectors.old (Action.ReadRegister n)).sectors) }
    {
        self.host(Action::ReadRegister(n), sectors)
    }

    pub fn write_register(self, n: u8, v: u8, sectors: &mut [u8]) -> Outcome
        ensures { (result ≡ (step_of self sectors.old (Action.WriteRegister n v)).outcome) × (sectors.new ≡ (step_of self sectors.old (Action.WriteRegister n v)).sectors) }
    {
        self.host(Action::WriteRegister(n, v), sectors)
    }

    pub fn read_word(self, sectors: &mut [u8]) -> Outcome
        ensures { (result ≡ (step_of self sectors.old Action.ReadWord).outcome) × (sectors.new ≡ (step_of self sectors.old Action.ReadWord).sectors) }
    {
        self.host(Action::ReadWord, sectors)
    }

    pub fn write_word(self, w: u16, sectors: &mut [u8]) -> Outcome
        ensures { (result ≡ (step_of self sectors.old (Action.WriteWord w)).outcome) × (sectors.new ≡ (step_of self sectors.old (Action.WriteWord w)).sectors) }
    {
        self.host(Action::WriteWord(w), sectors)
    }

    pub fn hardware_reset(self, sectors: &mut [u8]) -> Outcome
        ensures { (result ≡ (step_of self sectors.old Action.HardwareReset).outcome) × (sectors.new ≡ (step_of self sectors.old Action.HardwareReset).sectors) }
    {
        self.host(Action::HardwareReset, sectors)
    }

    pub fn power_on(self, sectors: &mut [u8]) -> Outcome
        ensures { (result ≡ (step_of self sectors.old Action.PowerOn).outcome) × (sectors.new ≡ (step_of self sectors.old Action.PowerOn).sectors) }
    {
        self.host(Action::PowerOn, sectors)
    }

    pub fn line(self, sectors: &mut [u8]) -> Outcome
        ensures { (result ≡ (step_of self sectors.old Action.Line).outcome) × (sectors.new ≡ (step_of self sectors.old Action.Line).sectors) }
    {
        self.host(Action::Line, sectors)
    }
}
