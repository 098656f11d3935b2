// Command codes: which command a code is, in which lock state it may run, and what bars it besides.
#![tactic(auto)]

ghost use Rattle.std.specs.Prelude.{◌≡◌};
ghost use Rattle.codes.specs.Commands.{decode_of};
ghost use Rattle.codes.specs.MayRun.{runs_in, may_run_of, barred_of};

use lock::{Lock, Security};

// The commands of the device; Unknown is any other code.
#[derive(Clone, Copy)]
pub enum Command {
    Unknown,
    Recalibrate,
    ReadSectors,
    WriteSectors,
    VerifySectors,
    Seek,
    ExecuteDiagnostic,
    InitializeParameters,
    ReadBuffer,
    WriteBuffer,
    IdentifyDevice,
    SecuritySetPassword,
    SecurityUnlock,
    SecurityErasePrepare,
    SecurityEraseUnit,
    SecurityFreezeLock,
    SecurityDisablePassword,
}

// The command of a code.
#[tactic(auto, unfolding(crate::specs::Commands::decode_of, crate::specs::Commands::coded_of))]
pub fn decode(code: u8) -> Command
    ensures { result ≡ decode_of code }
{
    match code {
        0x10..=0x1F => Command::Recalibrate,
        0x20 | 0x21 => Command::ReadSectors,
        0x30 | 0x31 => Command::WriteSectors,
        0x40 | 0x41 => Command::VerifySectors,
        0x70..=0x7F => Command::Seek,
        0x90 => Command::ExecuteDiagnostic,
        0x91 => Command::InitializeParameters,
        0xE4 => Command::ReadBuffer,
        0xE8 => Command::WriteBuffer,
        0xEC => Command::IdentifyDevice,
        0xF1 => Command::SecuritySetPassword,
        0xF2 => Command::SecurityUnlock,
        0xF3 => Command::SecurityErasePrepare,
        0xF4 => Command::SecurityEraseUnit,
        0xF5 => Command::SecurityFreezeLock,
        0xF6 => Command::SecurityDisablePassword,
        _ => Command::Unknown,
    }
}

impl Command {
    // Whether the command runs in this lock state, or aborts at once.
    fn runs_in(self, lock: Lock) -> bool
        ensures { result ≡ runs_in self lock }
    {
        match self {
            Command::Unknown => false,
            Command::ReadSectors
            | Command::WriteSectors
            | Command::VerifySectors
            | Command::SecurityFreezeLock => !lock.locked(),
            Command::SecurityUnlock | Command::SecurityEraseUnit => !lock.frozen(),
            Command::SecuritySetPassword | Command::SecurityDisablePassword => lock.open(),
            _ => true,
        }
    }

    // Whether attempts or preparation bar a command that may run.
    pub fn barred(self, security: Security) -> bool
        ensures { result ≡ barred_of self security }
    {
        match self {
            Command::SecurityUnlock => security.exhausted(),
            Command::SecurityEraseUnit => security.cannot_erase(),
            _ => false,
        }
    }
}

// Whether a code may run in a lock state, or aborts at once: the one place that says so.
#[tactic(auto, unfolding(crate::specs::MayRun::may_run_of))]
pub fn may_run(code: u8, lock: Lock) -> bool
    ensures { result ≡ may_run_of code lock }
{
    decode(code).runs_in(lock)
}
