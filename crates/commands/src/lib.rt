// The commands that are no sector transfers, each behind its own definition, and the one gate that every Command write goes through.
// Only the drop of a password block, READ SECTORS and IDENTIFY touch the buffer: it is lent to them, and stays where it is for the others.
#![tactic(auto)]

ghost use Rattle.std.specs.Prelude.{◌≡◌, List, ℕ};
ghost use Rattle.settled.specs.Settled.{with_security};
ghost use Rattle.settled.specs.declared.Settled.{Settled};
ghost use Rattle.face.specs.Face.{face_with};
ghost use Rattle.face.specs.Ends.{finish_of};
ghost use Rattle.transfers.specs.Sectors.{Memory};
ghost use Rattle.commands.specs.Others.{seek_of, recalibrated_at, recalibrate_of, initialize_parameters_of, diagnostic_of, identify_device_of, read_buffer_of, write_buffer_of, take_password_of, erase_prepare_of, freeze_lock_of};
ghost use Rattle.commands.specs.Gate.{begun_of, abort_at_once, run_of, stations_of, command_of};

use address::{Address, AddressRegisters};
use codes::Command;
use face::{Front, Hot, PasswordBlock, Transfer};
use lock::{Purpose, Security};

// What a command leaves that touches the hot part alone.
fn leaves(front: Front, hot: Hot) -> Front
    ensures { (result.hot ≡ hot) × (result.settled ≡ front.settled) }
{
    Front { hot, ..front }
}

// SEEK (70h to 7Fh).
#[tactic(auto, unfolding(crate::specs::Others::seek_of))]
fn seek(front: Front) -> Hot
    ensures { (b : List ℕ) → face_with result front.settled b ≡ seek_of (face_with front.hot front.settled b) }
{
    let Address::Names(_) = transfers::located(front.settled, front.hot.regs.at) else {
        return front.hot.fail(0x10);
    };
    front.hot.finish()
}

#[tactic(auto, unfolding(crate::specs::Others::recalibrated_at))]
fn recalibrated_at(at: AddressRegisters) -> AddressRegisters
    ensures { result ≡ recalibrated_at at }
{
    let sector = if at.lba_selected() { 0 } else { 1 };
    AddressRegisters {
        sector,
        ..at.with_cylinder(0).with_head(0)
    }
}

// RECALIBRATE (10h to 1Fh).
#[tactic(auto, unfolding(crate::specs::Others::recalibrate_of))]
fn recalibrate(hot: Hot) -> Hot
    ensures { (s : Settled) → (b : List ℕ) → face_with result s b ≡ recalibrate_of (face_with hot s b) }
{
    let at = recalibrated_at(hot.regs.at);
    hot.ended_at(at, hot.regs.count).finish()
}

// INITIALIZE DEVICE PARAMETERS (91h).
#[tactic(auto, unfolding(crate::specs::Others::initialize_parameters_of))]
fn initialize_parameters(front: Front) -> Front
    ensures { (b : List ℕ) → face_with result.hot result.settled b ≡ initialize_parameters_of (face_with front.hot front.settled b) }
{
    let regs = front.hot.regs;
    let Some(translation) = front.settled.geometry.initialize(regs.count, regs.at.head) else {
        return leaves(front, front.hot.abort());
    };
    Front {
        hot: front.hot.finish(),
        settled: front.settled.with_translation(translation),
    }
}

// EXECUTE DEVICE DIAGNOSTIC (90h).
#[tactic(auto, unfolding(crate::specs::Others::diagnostic_of))]
fn diagnostic(hot: Hot) -> Hot
    ensures { (s : Settled) → (b : List ℕ) → face_with result s b ≡ diagnostic_of (face_with hot s b) }
{
    hot.restarted().finish()
}

// IDENTIFY DEVICE (ECh).
#[tactic(auto, unfolding(crate::specs::Others::identify_device_of))]
fn identify_device(front: Front, buffer: &mut [u8; 512]) -> Hot
    ensures { face_with result front.settled buffer.new ≡ identify_device_of (face_with front.hot front.settled buffer.old) }
{
    *buffer = identify::identify(front.settled);
    front.hot.raised(Transfer::ReadingBuffer(0))
}

// READ BUFFER (E4h). Each command has its function, however short, since it has its definition.
#[tactic(auto, unfolding(crate::specs::Others::read_buffer_of))]
fn read_buffer(hot: Hot) -> Hot
    ensures { (s : Settled) → (b : List ℕ) → face_with result s b ≡ read_buffer_of (face_with hot s b) }
{
    hot.raised(Transfer::ReadingBuffer(0))
}

// WRITE BUFFER (E8h).
#[tactic(auto, unfolding(crate::specs::Others::write_buffer_of))]
fn write_buffer(hot: Hot) -> Hot
    ensures { (s : Settled) → (b : List ℕ) → face_with result s b ≡ write_buffer_of (face_with hot s b) }
{
    hot.with_transfer(Transfer::WritingBuffer(0))
}

// F1h, F2h, F4h and F6h take a password block.
#[tactic(auto, unfolding(crate::specs::Others::take_password_of))]
fn take_password(hot: Hot, purpose: Purpose) -> Hot
    ensures { (s : Settled) → (b : List ℕ) → face_with result s b ≡ take_password_of (face_with hot s b) purpose }
{
    let block = PasswordBlock { purpose, word: 0 };
    hot.with_transfer(Transfer::TakingPassword(block))
}

// A command that ends well and leaves these security settings.
fn secured(front: Front, security: Security) -> Front
    ensures { (result.hot ≡ finish_of front.hot) × (result.settled ≡ with_security front.settled security) }
{
    Front {
        hot: front.hot.finish(),
        settled: front.settled.with_security(security),
    }
}

// SECURITY ERASE PREPARE (F3h).
#[tactic(auto, unfolding(crate::specs::Others::erase_prepare_of))]
fn erase_prepare(front: Front) -> Front
    ensures { (b : List ℕ) → face_with result.hot result.settled b ≡ erase_prepare_of (face_with front.hot front.settled b) }
{
    secured(front, front.settled.security.prepare())
}

// SECURITY FREEZE LOCK (F5h).
#[tactic(auto, unfolding(crate::specs::Others::freeze_lock_of))]
fn freeze_lock(front: Front) -> Front
    ensures { (b : List ℕ) → face_with result.hot result.settled b ≡ freeze_lock_of (face_with front.hot front.settled b) }
{
    secured(front, front.settled.security.freeze())
}

// A command that nothing bars.
// Memory is a clause and no type, which would take four structs (docs/DECISIONS.md, 65).
fn run(front: Front, command: Command, buffer: &mut [u8; 512], sectors: &[u8]) -> Front
    requires { Memory front.settled.geometry front.settled.translation sectors.now }
    ensures { face_with result.hot result.settled buffer.new ≡ run_of (face_with front.hot front.settled buffer.old) sectors.now command }
{
    let hot = front.hot;
    match command {
        Command::Unknown => leaves(front, hot.abort()),
        Command::Recalibrate => leaves(front, recalibrate(hot)),
        Command::ReadSectors => leaves(front, reading::read_sectors(front, buffer, sectors)),
        Command::WriteSectors => leaves(front, writing::write_sectors(front)),
        Command::VerifySectors => leaves(front, reading::verify_sectors(front)),
        Command::Seek => leaves(front, seek(front)),
        Command::ExecuteDiagnostic => leaves(front, diagnostic(hot)),
        Command::InitializeParameters => initialize_parameters(front),
        Command::ReadBuffer => leaves(front, read_buffer(hot)),
        Command::WriteBuffer => leaves(front, write_buffer(hot)),
        Command::IdentifyDevice => leaves(front, identify_device(front, buffer)),
        Command::SecuritySetPassword => leaves(front, take_password(hot, Purpose::Set)),
        Command::SecurityUnlock => leaves(front, take_password(hot, Purpose::Unlock)),
        Command::SecurityErasePrepare => erase_prepare(front),
        Command::SecurityEraseUnit => leaves(front, take_password(hot, Purpose::Erase)),
        Command::SecurityFreezeLock => freeze_lock(front),
        Command::SecurityDisablePassword => leaves(front, take_password(hot, Purpose::Disable)),
    }
}

// The transfer dropped, Error and interrupt cleared.
fn begun(front: Front, buffer: &mut [u8; 512]) -> Front
    ensures { face_with result.hot result.settled buffer.new ≡ begun_of (face_with front.hot front.settled buffer.old) }
{
    let dropped = resets::drop_transfer(front, buffer);
    leaves(dropped, dropped.hot.cleared())
}

// A command that may not run; F4h's abort ends the preparation.
#[tactic(auto, unfolding(crate::specs::Gate::abort_at_once))]
fn abort_at_once(front: Front, code: u8) -> Front
    ensures { (b : List ℕ) → face_with result.hot result.settled b ≡ abort_at_once (face_with front.hot front.settled b) code }
{
    let hot = front.hot.abort();
    if code == 0xF4 {
        return Front {
            hot,
            settled: front.settled.unprepare(),
        };
    }
    leaves(front, hot)
}

// Lock state, then attempts and preparation, then the command.
#[tactic(auto, unfolding(crate::specs::Gate::stations_of))]
fn stations(front: Front, code: u8, buffer: &mut [u8; 512], sectors: &[u8]) -> Front
    requires { Memory front.settled.geometry front.settled.translation sectors.now }
    ensures { face_with result.hot result.settled buffer.new ≡ stations_of (face_with front.hot front.settled buffer.old) sectors.now code }
{
    let security = front.settled.security;
    let command = codes::decode(code);
    if codes::may_run(code, security.lock) && !command.barred(security) {
        return run(front, command, buffer, sectors);
    }
    abort_at_once(front, code)
}

// The gate: a write to the Command register, but for DEV.
#[tactic(auto, unfolding(crate::specs::Gate::command_of))]
pub fn command(front: Front, code: u8, buffer: &mut [u8; 512], sectors: &[u8]) -> Front
    requires { Memory front.settled.geometry front.settled.translation sectors.now }
    ensures { face_with result.hot result.settled buffer.new ≡ command_of (face_with front.hot front.settled buffer.old) sectors.now code }
{
    if front.hot.signals.held {
        return front;
    }
    let begun = begun(front, buffer);
    stations(begun, code, buffer, sectors)
}
