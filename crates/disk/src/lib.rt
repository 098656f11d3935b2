// One disk's actions, whichever device of its cable is selected: nothing here looks at DEV.
#![tactic(auto)]

ghost use Rattle.std.specs.Prelude.{◌≡◌};
ghost use Rattle.face.specs.Face.{with_hot};
ghost use Rattle.face.specs.Reads.{read_register, line_of};
ghost use Rattle.face.specs.Writes.{put_register};
ghost use Rattle.resets.specs.Resets.{powered_on_face};
ghost use Rattle.resets.specs.Control.{control_of};
ghost use Rattle.transfers.specs.Sectors.{Memory};
ghost use Rattle.transfers.specs.Words.{told};
ghost use Rattle.commands.specs.Gate.{command_of};
ghost use Rattle.effects.specs.Effects.{acted, seen_acted};
ghost use Rattle.disk.specs.Actions.{told_acted, write_register_of, write_word_of, act_of};

use effects::Acted;
use face::{Action, Answer, Face, Shows, Transfer};
use lock::Secrets;

// A data word with no transfer that way.
fn refused(face: Face, secrets: Secrets) -> Acted
    ensures { result ≡ acted face secrets Answer.NoTransfer 0 }
{
    effects::acts(face, secrets, Answer::NoTransfer, 0)
}

// A data word is written.
// Memory is a clause and no type, which would take four structs (docs/DECISIONS.md, 65).
#[tactic(auto, unfolding(crate::specs::Actions::write_word_of))]
fn write_word(face: Face, secrets: Secrets, w: u16, sectors: &mut [u8]) -> Acted
    requires { Memory face.settled.geometry face.settled.translation sectors.old }
    ensures { (result ≡ (write_word_of face secrets sectors.old w).acted) × (sectors.new ≡ (write_word_of face secrets sectors.old w).sectors) }
{
    match face.hot.transfer {
        Transfer::Writing(r) => effects::done(writing::write_run(face, r, w, sectors), secrets),
        Transfer::WritingBuffer(n) => effects::done(
            transfers::write_buffer_word(face, n, w),
            secrets,
        ),
        Transfer::TakingPassword(b) => password::password_word(face, secrets, b, w, sectors),
        _ => refused(face, secrets),
    }
}

// One of registers 1 to 6 is written.
fn register_put(face: Face, n: u8, v: u8) -> Face
    ensures { result ≡ with_hot face (put_register face.hot n v) }
{
    face.with_hot(face.hot.put_register(n, v))
}

// A write that is done leaves this face.
fn written(face: Face) -> Shows<Face>
    ensures { result ≡ told face Answer.Done 0 }
{
    face::tells(face, Answer::Done, 0)
}

// The Command register is written.
fn command_written(face: Face, code: u8, sectors: &[u8]) -> Face
    requires { Memory face.settled.geometry face.settled.translation sectors.now }
    ensures { result ≡ command_of face sectors.now code }
{
    let mut buffer = face.buffer;
    let front = commands::command(face.front(), code, &mut buffer, sectors);
    front.with_buffer(buffer)
}

// Device Control is written.
fn control_written(face: Face, v: u8) -> Face
    ensures { result ≡ control_of face v }
{
    let mut buffer = face.buffer;
    let front = resets::control(face.front(), v, &mut buffer);
    front.with_buffer(buffer)
}

// Power-on and hardware reset.
pub fn powered_on(face: Face) -> Face
    ensures { result ≡ powered_on_face face }
{
    let mut buffer = face.buffer;
    let front = resets::powered_on(face.settled, &mut buffer);
    front.with_buffer(buffer)
}

// A register is written.
#[tactic(auto, unfolding(crate::specs::Actions::write_register_of, base::specs::Choice::within))]
fn write_register(face: Face, n: u8, v: u8, sectors: &[u8]) -> Shows<Face>
    requires { Memory face.settled.geometry face.settled.translation sectors.now }
    ensures { result ≡ write_register_of face sectors.now n v }
{
    match n {
        1..=6 => written(register_put(face, n, v)),
        7 => written(command_written(face, v, sectors)),
        8 => written(control_written(face, v)),
        _ => face::tells(face, Answer::NoRegister, 0),
    }
}

// A register is read.
fn register_read(face: Face, secrets: Secrets, n: u8) -> Acted
    ensures { result ≡ seen_acted face secrets (read_register face.hot n) }
{
    let seen = face.hot.read_register(n);
    effects::acts(face.with_hot(seen.left), secrets, seen.answer, seen.value)
}

// The interrupt line is read.
fn line_read(face: Face, secrets: Secrets) -> Acted
    ensures { result ≡ acted face secrets Answer.Done (line_of face.hot) }
{
    effects::acts(face, secrets, Answer::Done, face.hot.line())
}

// An action that leaves the passwords.
fn told_acts(secrets: Secrets, told: Shows<Face>) -> Acted
    ensures { result ≡ told_acted secrets told }
{
    effects::acts(told.left, secrets, told.answer, told.value)
}

// A host action over the disk's own memory.
#[tactic(auto, unfolding(crate::specs::Actions::act_of))]
pub fn act(face: Face, secrets: Secrets, action: Action, sectors: &mut [u8]) -> Acted
    requires { Memory face.settled.geometry face.settled.translation sectors.old }
    ensures { (result ≡ (act_of face secrets sectors.old action).acted) × (sectors.new ≡ (act_of face secrets sectors.old action).sectors) }
{
    match action {
        Action::ReadRegister(n) => register_read(face, secrets, n),
        Action::WriteRegister(n, v) => told_acts(secrets, write_register(face, n, v, &sectors[..])),
        Action::ReadWord => told_acts(secrets, reading::read_word(face, &sectors[..])),
        Action::WriteWord(w) => write_word(face, secrets, w, sectors),
        Action::HardwareReset | Action::PowerOn => effects::done(powered_on(face), secrets),
        Action::Line => line_read(face, secrets),
    }
}
