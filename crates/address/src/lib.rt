// Registers 3 to 6 as an address: the sector that they name or that they fault.
#![tactic(auto)]

ghost use Rattle.std.specs.Prelude.{◌≡◌};
ghost use Rattle.address.specs.Registers.{lba_selected, lba_of, cylinder_of, head_of, with_cylinder, with_head};
ghost use Rattle.address.specs.Address.{lba_address, chs_address, address_of};

use geometry::{Geometry, Translation};

// Sector Number (3), Cylinder Low (4), Cylinder High (5), and all eight bits of Device/Head (6).
#[derive(Clone, Copy, Default)]
pub struct AddressRegisters {
    pub sector: u8,
    pub low: u8,
    pub high: u8,
    pub head: u8,
}

// A sector that an address names.
#[derive(Clone, Copy)]
pub struct Sector {
    pub number: u32,
}

// Either an address names a sector or it faults (IDNF): an enum of its own, the form that document 01 names (docs/DECISIONS.md, 2).
#[derive(Clone, Copy)]
pub enum Address {
    Names(Sector),
    Faults,
}

impl AddressRegisters {
    // Device/Head bit 6: LBA, else CHS.
    #[tactic(auto, unfolding(crate::specs::Registers::lba_selected))]
    pub fn lba_selected(self) -> bool
        ensures { result ≡ lba_selected self }
    {
        self.head / 64 % 2 == 1
    }

    // The 28 bits of an LBA, Sector Number lowest, head nibble highest.
    #[tactic(auto, unfolding(crate::specs::Registers::lba_of, crate::specs::Registers::head_of))]
    pub fn lba(self) -> u32
        ensures { result ≡ lba_of self }
    {
        u32::from_le_bytes([self.sector, self.low, self.high, self.head_number()])
    }

    // Cylinder Low and Cylinder High.
    #[tactic(auto, unfolding(crate::specs::Registers::cylinder_of))]
    pub fn cylinder(self) -> u16
        ensures { result ≡ cylinder_of self }
    {
        u16::from_le_bytes([self.low, self.high])
    }

    // The head nibble.
    #[tactic(auto, unfolding(crate::specs::Registers::head_of))]
    pub fn head_number(self) -> u8
        ensures { result ≡ head_of self }
    {
        self.head % 16
    }

    // The lowest 16 bits of c as cylinder.
    pub fn with_cylinder(self, c: u32) -> Self
        ensures { result ≡ with_cylinder self c }
    {
        let [low, high, ..] = c.to_le_bytes();
        AddressRegisters { low, high, ..self }
    }

    // The lowest 4 bits of h as head nibble; the high nibble of Device/Head stays.
    pub fn with_head(self, h: u8) -> Self
        ensures { result ≡ with_head self h }
    {
        AddressRegisters {
            head: self.head / 16 * 16 + h % 16,
            ..self
        }
    }

    #[tactic(auto, unfolding(crate::specs::Address::lba_address))]
    fn lba_address(self, capacity: u32) -> Address
        ensures { result ≡ lba_address capacity self }
    {
        let number = self.lba();
        if number < capacity {
            Address::Names(Sector { number })
        } else {
            Address::Faults
        }
    }

    #[tactic(auto, unfolding(crate::specs::Address::chs_address, crate::specs::Address::chs_number))]
    fn chs_address(self, t: Translation) -> Address
        ensures { result ≡ chs_address t self }
    {
        let c = self.cylinder();
        let h = self.head_number();
        if base::within(1, t.sectors as u16, self.sector as u16) && h < t.heads && c < t.cylinders {
            let track = (c as u32) * (t.heads as u32) + (h as u32);
            let number = track * (t.sectors as u32) + (self.sector as u32) - 1;
            return Address::Names(Sector { number });
        }
        Address::Faults
    }

    // The sector that the registers name, in LBA below the geometry's capacity, in CHS by the translation in force.
    #[tactic(auto, unfolding(crate::specs::Address::address_of))]
    pub fn address(self, g: Geometry, t: Translation) -> Address
        ensures { result ≡ address_of g t self }
    {
        if self.lba_selected() {
            return self.lba_address(g.capacity());
        }
        self.chs_address(t)
    }
}
