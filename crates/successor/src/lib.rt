// The registers of the next address.
#![tactic(auto)]

ghost use Rattle.std.specs.Prelude.{◌≡◌};
ghost use Rattle.address.specs.Registers.{with_lba};
ghost use Rattle.successor.specs.Successor.{lba_successor, chs_successor, successor_of};

use address::AddressRegisters;
use geometry::Translation;

// The lowest 28 bits of n as LBA; the high nibble of Device/Head stays.
fn with_lba(registers: AddressRegisters, n: u32) -> AddressRegisters
    ensures { result ≡ with_lba registers n }
{
    let [sector, low, high, top] = n.to_le_bytes();
    AddressRegisters {
        sector,
        low,
        high,
        head: registers.head / 16 * 16 + top % 16,
    }
}

#[tactic(auto, unfolding(address::specs::Registers::lba_of, address::specs::Registers::head_of, crate::specs::Successor::lba_successor))]
fn lba_successor(registers: AddressRegisters) -> AddressRegisters
    ensures { result ≡ lba_successor registers }
{
    with_lba(registers, registers.lba() + 1)
}

#[tactic(auto, unfolding(address::specs::Registers::head_of, crate::specs::Successor::chs_successor))]
fn chs_successor(registers: AddressRegisters, t: Translation) -> AddressRegisters
    ensures { result ≡ chs_successor t registers }
{
    if registers.sector < t.sectors {
        return AddressRegisters {
            sector: registers.sector + 1,
            ..registers
        };
    }
    let first = AddressRegisters {
        sector: 1,
        ..registers
    };
    let head = registers.head_number() + 1;
    if head < t.heads {
        return first.with_head(head);
    }
    let cylinder = u32::from(registers.cylinder()) + 1;
    first.with_head(0).with_cylinder(cylinder)
}

// The registers of the next address, good or bad.
#[tactic(auto, unfolding(crate::specs::Successor::successor_of))]
pub fn successor(registers: AddressRegisters, t: Translation) -> AddressRegisters
    ensures { result ≡ successor_of t registers }
{
    if registers.lba_selected() {
        lba_successor(registers)
    } else {
        chs_successor(registers, t)
    }
}
