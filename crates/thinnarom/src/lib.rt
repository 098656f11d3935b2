// The symbols of the static library, as include/thinnarom.h declares them.
#![tactic(auto)]

ghost use Rattle.std.specs.Prelude.{◌/◌, length};
ghost use Rattle.lent.specs.Lent.{lent_step, GivesBack};
ghost use Rattle.lent.specs.Setup.{lent_setup, Sets};
ghost use Rattle.words.specs.Words.{words_in};
ghost use Rattle.bulk.specs.Bulk.{read_lent, words_lent, ReadsLent, write_lent};

use face::Action;
use lent::Reply;

#[unsafe(no_mangle)]
pub extern "C" fn thinnarom_setup(
    state: &mut [u8],
    buffer: &mut [u8; 512],
    cylinders: u16,
    heads: u8,
    sectors: u8,
    identity: &[u8],
    master: &[u8],
) -> Reply
    ensures { Sets (lent_setup state.old buffer.old cylinders heads sectors identity.now master.now) result state.new buffer.new }
{
    lent::setup(state, buffer, cylinders, heads, sectors, identity, master)
}

#[unsafe(no_mangle)]
pub extern "C" fn thinnarom_read_register(
    state: &mut [u8],
    buffer: &mut [u8; 512],
    sectors: &mut [u8],
    n: u8,
) -> Reply
    ensures { GivesBack (lent_step state.old buffer.old sectors.old (Action.ReadRegister n)) result state.new buffer.new sectors.new }
{
    single::host(state, buffer, Action::ReadRegister(n), sectors)
}

#[unsafe(no_mangle)]
pub extern "C" fn thinnarom_write_register(
    state: &mut [u8],
    buffer: &mut [u8; 512],
    sectors: &mut [u8],
    n: u8,
    v: u8,
) -> Reply
    ensures { GivesBack (lent_step state.old buffer.old sectors.old (Action.WriteRegister n v)) result state.new buffer.new sectors.new }
{
    single::write_register(state, buffer, n, v, sectors)
}

#[unsafe(no_mangle)]
pub extern "C" fn thinnarom_read_word(
    state: &mut [u8],
    buffer: &mut [u8; 512],
    sectors: &mut [u8],
) -> Reply
    ensures { GivesBack (lent_step state.old buffer.old sectors.old Action.ReadWord) result state.new buffer.new sectors.new }
{
    single::host(state, buffer, Action::ReadWord, sectors)
}

#[unsafe(no_mangle)]
pub extern "C" fn thinnarom_write_word(
    state: &mut [u8],
    buffer: &mut [u8; 512],
    sectors: &mut [u8],
    w: u16,
) -> Reply
    ensures { GivesBack (lent_step state.old buffer.old sectors.old (Action.WriteWord w)) result state.new buffer.new sectors.new }
{
    single::host(state, buffer, Action::WriteWord(w), sectors)
}

#[unsafe(no_mangle)]
pub extern "C" fn thinnarom_read_words(
    state: &mut [u8],
    buffer: &mut [u8; 512],
    sectors: &[u8],
    out: &mut [u8],
) -> Reply
    ensures { ReadsLent (read_lent state.old buffer.old sectors.now (length out.old / 2)) (words_lent state.old buffer.old sectors.now (length out.old / 2)) out.old result state.new buffer.new sectors.now out.new }
{
    bulk::read_words(state, buffer, sectors, out)
}

#[unsafe(no_mangle)]
pub extern "C" fn thinnarom_write_words(
    state: &mut [u8],
    buffer: &mut [u8; 512],
    sectors: &mut [u8],
    bytes: &[u8],
) -> Reply
    ensures { GivesBack (write_lent state.old buffer.old sectors.old (words_in bytes.now)) result state.new buffer.new sectors.new }
{
    bulk::write_words(state, buffer, sectors, bytes)
}

#[unsafe(no_mangle)]
pub extern "C" fn thinnarom_hardware_reset(
    state: &mut [u8],
    buffer: &mut [u8; 512],
    sectors: &mut [u8],
) -> Reply
    ensures { GivesBack (lent_step state.old buffer.old sectors.old Action.HardwareReset) result state.new buffer.new sectors.new }
{
    single::rare(state, buffer, Action::HardwareReset, sectors)
}

#[unsafe(no_mangle)]
pub extern "C" fn thinnarom_power_on(
    state: &mut [u8],
    buffer: &mut [u8; 512],
    sectors: &mut [u8],
) -> Reply
    ensures { GivesBack (lent_step state.old buffer.old sectors.old Action.PowerOn) result state.new buffer.new sectors.new }
{
    single::rare(state, buffer, Action::PowerOn, sectors)
}

#[unsafe(no_mangle)]
pub extern "C" fn thinnarom_line(
    state: &mut [u8],
    buffer: &mut [u8; 512],
    sectors: &mut [u8],
) -> Reply
    ensures { GivesBack (lent_step state.old buffer.old sectors.old Action.Line) result state.new buffer.new sectors.new }
{
    single::host(state, buffer, Action::Line, sectors)
}
