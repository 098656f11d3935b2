// What an action leaves of a disk and shows, the passwords included.
#![tactic(auto)]

ghost use Rattle.std.specs.Prelude.{◌≡◌};
ghost use Rattle.effects.specs.Effects.{acted};

use face::{Answer, Face};
use lock::Secrets;

// What an action leaves of a disk, and what it shows: as in face::Shows, any answer beside any value.
#[derive(Clone, Copy)]
pub struct Acted {
    pub face: Face,
    pub secrets: Secrets,
    pub answer: Answer,
    pub value: u16,
}

// Face and passwords stay two parameters, here and in `password` and `disk`: a struct of both would be device::Device again (docs/DECISIONS.md, 66).
pub fn acts(face: Face, secrets: Secrets, answer: Answer, value: u16) -> Acted
    ensures { result ≡ acted face secrets answer value }
{
    Acted {
        face,
        secrets,
        answer,
        value,
    }
}

// An action that is done and shows no value.
pub fn done(face: Face, secrets: Secrets) -> Acted
    ensures { result ≡ acted face secrets Answer.Done 0 }
{
    acts(face, secrets, Answer::Done, 0)
}
