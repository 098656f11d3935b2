// All that a guest's answers may depend on: the register file and the transfer (hot), what commands seldom touch (settled), the buffer.
#![tactic(auto)]

ghost use Rattle.std.specs.Prelude.{◌≡◌, ◌<◌};
ghost use Rattle.face.specs.Registers.{start_registers};
ghost use Rattle.face.specs.Face.{start_hot, with_regs, with_transfer, face_with, with_hot, with_settled, with_buffer, next_word, next_password_word};
ghost use Rattle.face.specs.Reads.{number_of, value_of, is_idle, status_of, showing, quiet_of, read_register, line_of};
ghost use Rattle.face.specs.Writes.{busy_of, store_register, put_register};
ghost use Rattle.face.specs.Ends.{cleared_of, raised_of, finish_of, fail_of, abort_of, ended_at};
ghost use Rattle.face.specs.Setup.{zero_face};

use address::AddressRegisters;
use lock::Purpose;
use settled::Settled;

// Registers 1 to 6: Error as read, Features as written, Sector Count, and the address.
#[derive(Clone, Copy, Default)]
pub struct Registers {
    pub error: u8,
    pub features: u8,
    pub count: u8,
    pub at: AddressRegisters,
}

// Reset held (SRST), interrupt masked (nIEN), interrupt raised, and whether the last command failed.
#[derive(Clone, Copy, Default)]
pub struct Signals {
    pub held: bool,
    pub masked: bool,
    pub raised: bool,
    pub failed: bool,
}

// A sector transfer: the place of the next word, how many sectors come after the current one, and that one's address.
// The place is the first byte of every transfer that has one: so they share their bytes and stay in registers.
#[derive(Clone, Copy)]
pub struct Run {
    pub word: u8,
    pub after: u8,
    pub at: AddressRegisters,
}

// A password block on its way: the place of the next word, and what the block is for.
#[derive(Clone, Copy)]
pub struct PasswordBlock {
    pub word: u8,
    pub purpose: Purpose,
}

// The transfer that is open. READ BUFFER and IDENTIFY both hand the buffer out.
#[derive(Clone, Copy, Default)]
pub enum Transfer {
    #[default]
    Idle,
    Reading(Run),
    Writing(Run),
    ReadingBuffer(u8),
    WritingBuffer(u8),
    TakingPassword(PasswordBlock),
}

// The register file and the transfer: no arrays.
#[derive(Clone, Copy, Default)]
pub struct Hot {
    pub regs: Registers,
    pub signals: Signals,
    pub transfer: Transfer,
}

#[derive(Clone, Copy)]
pub struct Face {
    pub hot: Hot,
    pub settled: Settled,
    pub buffer: [u8; 512],
}

// The face but for its buffer, which is lent to what may change it.
#[derive(Clone, Copy)]
pub struct Front {
    pub hot: Hot,
    pub settled: Settled,
}

// The host's actions.
#[derive(Clone, Copy)]
pub enum Action {
    ReadRegister(u8),
    WriteRegister(u8, u8),
    ReadWord,
    WriteWord(u16),
    HardwareReset,
    PowerOn,
    Line,
}

// The answers, by the paper's numbers; 5 is the replay's alone.
#[derive(Clone, Copy)]
pub enum Answer {
    Done = 0,
    NoRegister = 1,
    OutOfShape = 2,
    WrongLength = 3,
    NoTransfer = 4,
    SetupRefused = 6,
}

// What an action leaves, the hot part alone or the whole face, and what it shows. An answer stands beside a value, as in effects::Acted:
// `tells`, `acts` and `value_of` take any of either, which a Result could not hold (docs/DECISIONS.md, 62).
#[derive(Clone, Copy)]
pub struct Shows<T> {
    pub left: T,
    pub answer: Answer,
    pub value: u16,
}

pub fn tells<T>(left: T, answer: Answer, value: u16) -> Shows<T>
    ensures { result ≡ showing left answer value }
{
    Shows {
        left,
        answer,
        value,
    }
}

impl Answer {
    // The paper's number.
    pub fn number(self) -> u8
        ensures { result ≡ number_of self }
    {
        self as u8
    }
}

// Only an action that is done has a value.
pub fn value_of(answer: Answer, value: u16) -> u16
    ensures { result ≡ value_of answer value }
{
    match answer {
        Answer::Done => value,
        _ => 0,
    }
}

fn start_registers() -> Registers
    ensures { result ≡ start_registers }
{
    Registers {
        error: 1,
        features: 0,
        count: 1,
        at: AddressRegisters {
            sector: 1,
            ..AddressRegisters::default()
        },
    }
}

impl Hot {
    // Start values, nothing signalled, no transfer.
    pub fn start() -> Hot
        ensures { result ≡ start_hot }
    {
        Hot {
            regs: start_registers(),
            ..Hot::default()
        }
    }

    pub fn with_transfer(self, transfer: Transfer) -> Hot
        ensures { result ≡ with_transfer self transfer }
    {
        Hot { transfer, ..self }
    }

    fn with_regs(self, regs: Registers) -> Hot
        ensures { result ≡ with_regs self regs }
    {
        Hot { regs, ..self }
    }

    pub fn idle(self) -> bool
        ensures { result ≡ is_idle self.transfer }
    {
        matches!(self.transfer, Transfer::Idle)
    }

    // Status, but for DEV.
    #[tactic(auto, unfolding(crate::specs::Reads::status_of))]
    pub fn status(self) -> u8
        ensures { result ≡ status_of self }
    {
        if self.signals.held {
            0x80
        } else if !self.idle() {
            0x58
        } else if self.signals.failed {
            0x51
        } else {
            0x50
        }
    }

    fn quiet(mut self) -> Hot
        ensures { result ≡ quiet_of self }
    {
        self.signals.raised = false;
        self
    }

    // A register is read, but for DEV.
    #[tactic(auto, unfolding(crate::specs::Reads::read_register))]
    pub fn read_register(self, n: u8) -> Shows<Hot>
        ensures { result ≡ read_register self n }
    {
        match n {
            1 => tells(self, Answer::Done, self.regs.error as u16),
            2 => tells(self, Answer::Done, self.regs.count as u16),
            3 => tells(self, Answer::Done, self.regs.at.sector as u16),
            4 => tells(self, Answer::Done, self.regs.at.low as u16),
            5 => tells(self, Answer::Done, self.regs.at.high as u16),
            6 => tells(self, Answer::Done, self.regs.at.head as u16),
            7 => tells(self.quiet(), Answer::Done, self.status() as u16),
            8 => tells(self, Answer::Done, self.status() as u16),
            _ => tells(self, Answer::NoRegister, 0),
        }
    }

    // The interrupt line: raised and not masked.
    #[tactic(auto, unfolding(crate::specs::Reads::line_of))]
    pub fn line(self) -> u16
        ensures { result ≡ line_of self }
    {
        u16::from(self.signals.raised && !self.signals.masked)
    }

    // Reset held, or a transfer open: writes to registers 1 to 6 do nothing.
    #[tactic(auto, unfolding(crate::specs::Writes::busy_of))]
    fn busy(self) -> bool
        ensures { result ≡ busy_of self }
    {
        self.signals.held || !self.idle()
    }

    #[tactic(auto, unfolding(crate::specs::Writes::store_register))]
    fn store_register(mut self, n: u8, v: u8) -> Hot
        ensures { result ≡ store_register self n v }
    {
        match n {
            1 => self.regs.features = v,
            2 => self.regs.count = v,
            3 => self.regs.at.sector = v,
            4 => self.regs.at.low = v,
            5 => self.regs.at.high = v,
            _ => self.regs.at.head = v,
        }
        self
    }

    // One of registers 1 to 6 is written.
    #[tactic(auto, unfolding(crate::specs::Writes::put_register))]
    pub fn put_register(self, n: u8, v: u8) -> Hot
        ensures { result ≡ put_register self n v }
    {
        if self.busy() {
            return self;
        }
        self.store_register(n, v)
    }

    // A command starts.
    pub fn cleared(mut self) -> Hot
        ensures { result ≡ cleared_of self }
    {
        self.regs.error = 0;
        self.signals.raised = false;
        self.signals.failed = false;
        self
    }

    // A block is ready to be read, or the next one to be written is wanted.
    pub fn raised(mut self, transfer: Transfer) -> Hot
        ensures { result ≡ raised_of self transfer }
    {
        self.signals.raised = true;
        self.with_transfer(transfer)
    }

    // A command ends well.
    pub fn finish(self) -> Hot
        ensures { result ≡ finish_of self }
    {
        self.raised(Transfer::Idle)
    }

    // A command ends with an error.
    pub fn fail(mut self, error: u8) -> Hot
        ensures { result ≡ fail_of self error }
    {
        self.regs.error = error;
        self.signals.failed = true;
        self.raised(Transfer::Idle)
    }

    // A command aborts.
    pub fn abort(self) -> Hot
        ensures { result ≡ abort_of self }
    {
        self.fail(0x04)
    }

    // Registers 2 to 6 where a sector command ends.
    pub fn ended_at(self, at: AddressRegisters, count: u8) -> Hot
        ensures { result ≡ ended_at self at count }
    {
        self.with_regs(Registers {
            count,
            at,
            ..self.regs
        })
    }

    // EXECUTE DEVICE DIAGNOSTIC's register values.
    pub fn restarted(self) -> Hot
        ensures { result ≡ with_regs self start_registers }
    {
        self.with_regs(start_registers())
    }
}

impl Run {
    pub fn next_word(self) -> Run
        requires { self.word < 255 }
        ensures { result ≡ next_word self }
    {
        Run {
            word: self.word + 1,
            ..self
        }
    }
}

// As a run's: a trait for the two would need more lines than this one field's update.
impl PasswordBlock {
    pub fn next_word(self) -> PasswordBlock
        requires { self.word < 255 }
        ensures { result ≡ next_password_word self }
    {
        PasswordBlock {
            word: self.word + 1,
            ..self
        }
    }
}

impl Front {
    pub fn with_buffer(self, buffer: [u8; 512]) -> Face
        ensures { result ≡ face_with self.hot self.settled buffer }
    {
        Face {
            hot: self.hot,
            settled: self.settled,
            buffer,
        }
    }
}

// A `with_` is one field's update; a function over any field would be the update itself.
impl Face {
    // The face but for its buffer.
    pub fn front(self) -> Front
        ensures { (result.hot ≡ self.hot) × (result.settled ≡ self.settled) }
    {
        let Face { hot, settled, .. } = self;
        Front { hot, settled }
    }

    pub fn with_hot(self, hot: Hot) -> Face
        ensures { result ≡ with_hot self hot }
    {
        Face { hot, ..self }
    }

    pub fn with_settled(self, settled: Settled) -> Face
        ensures { result ≡ with_settled self settled }
    {
        Face { settled, ..self }
    }

    pub fn with_buffer(self, buffer: [u8; 512]) -> Face
        ensures { result ≡ with_buffer self buffer }
    {
        Face { buffer, ..self }
    }
}

// The face of a record all zero.
pub fn zero_face() -> Face
    ensures { result ≡ zero_face }
{
    Face {
        hot: Hot::default(),
        settled: settled::zero_settled(),
        buffer: block::zeros(),
    }
}
