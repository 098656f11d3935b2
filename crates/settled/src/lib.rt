// What commands seldom touch: geometry, translation, identity and security settings; their limits, and what resets leave of them.
#![tactic(auto)]

ghost use Rattle.std.specs.Prelude.{◌≡◌};
ghost use Rattle.settled.specs.Identity.{plain, printable, identity_fits};
ghost use Rattle.settled.specs.Settled.{with_translation, with_security, settled_fits, settled_unprepared, settled_powered_on, settled_reset};
ghost use Rattle.settled.specs.Setup.{zero_identity, zero_settled, fresh_settled};

use geometry::{Geometry, Translation};
use lock::Security;

// What IDENTIFY tells of the disk by name.
#[derive(Clone, Copy)]
pub struct Identity {
    pub serial: [u8; 20],
    pub firmware: [u8; 8],
    pub model: [u8; 40],
}

#[derive(Clone, Copy)]
pub struct Settled {
    pub geometry: Geometry,
    pub translation: Translation,
    pub identity: Identity,
    pub security: Security,
}

#[tactic(auto, unfolding(base::specs::Choice::within))]
fn plain(byte: u8) -> bool
    ensures { result ≡ plain byte }
{
    matches!(byte, 0x20..=0x7E)
}

// Whether each byte is from 20h to 7Eh. All are looked at, which lets several be looked at at once.
fn printable(text: &[u8]) -> bool
    ensures { result ≡ printable text.now }
{
    text.iter().fold(true, |all, byte| all & plain(*byte))
}

impl Identity {
    // Whether serial, firmware and model are printable.
    #[tactic(auto, unfolding(crate::specs::Identity::identity_fits))]
    pub fn fits(self) -> bool
        ensures { result ≡ identity_fits self }
    {
        printable(&self.serial) && printable(&self.firmware) && printable(&self.model)
    }
}

// As in `face`, a `with_` is one field's update.
impl Settled {
    pub fn with_translation(self, translation: Translation) -> Self
        ensures { result ≡ with_translation self translation }
    {
        Settled {
            translation,
            ..self
        }
    }

    pub fn with_security(self, security: Security) -> Self
        ensures { result ≡ with_security self security }
    {
        Settled { security, ..self }
    }

    // The clauses of answer 2 on geometry, identity, translation, attempts and lock.
    #[tactic(auto, unfolding(crate::specs::Settled::settled_fits))]
    pub fn fits(self) -> bool
        ensures { result ≡ settled_fits self }
    {
        self.geometry.fits()
            && self.identity.fits()
            && self.translation.allowed(self.geometry)
            && self.security.fits()
    }

    // The preparation ended.
    pub fn unprepare(self) -> Self
        ensures { result ≡ settled_unprepared self }
    {
        self.with_security(self.security.unprepare())
    }

    // Power-on and hardware reset.
    pub fn power_on(self) -> Self
        ensures { result ≡ settled_powered_on self }
    {
        Settled {
            translation: self.geometry.factory(),
            security: self.security.power_on(),
            ..self
        }
    }

    // Software reset.
    pub fn reset(self) -> Self
        ensures { result ≡ settled_reset self }
    {
        self.with_translation(self.geometry.factory()).unprepare()
    }
}

#[tactic(auto, unfolding(crate::specs::Setup::zero_identity))]
fn zero_identity() -> Identity
    ensures { result ≡ zero_identity }
{
    Identity {
        serial: [0; 20],
        firmware: [0; 8],
        model: [0; 40],
    }
}

// The settled part of a new disk, before its power-on.
pub fn fresh(geometry: Geometry, identity: Identity) -> Settled
    ensures { result ≡ fresh_settled geometry identity }
{
    Settled {
        geometry,
        translation: geometry.factory(),
        identity,
        security: Security::default(),
    }
}

// The settled part of a record all zero.
pub fn zero_settled() -> Settled
    ensures { result ≡ zero_settled }
{
    fresh(Geometry::default(), zero_identity())
}
