// The factory geometry, and the translation that CHS addresses go by: the factory's or 91h's.
#![tactic(auto)]

ghost use Rattle.std.specs.Prelude.{◌≡◌, ◌<◌};
ghost use Rattle.geometry.specs.Geometry.{geometry_fits, checked_of, capacity_of};
ghost use Rattle.geometry.specs.Translation.{factory_of, initialized_of, cylinders_for, translation_allowed, product_of};

// The factory's three counts. A record of this type may hold any counts: `fits` says whether it is a geometry.
#[derive(Clone, Copy, Default)]
pub struct Geometry {
    pub cylinders: u16,
    pub heads: u8,
    pub sectors: u8,
}

// How CHS addresses are counted: cylinders, heads and sectors per track in force.
#[derive(Clone, Copy)]
pub struct Translation {
    pub cylinders: u16,
    pub heads: u8,
    pub sectors: u8,
}

impl Geometry {
    pub const MAX_CYLINDERS: u16 = 1024;

    pub const MAX_HEADS: u8 = 16;

    pub const MAX_SECTORS: u8 = 63;

    // Whether each count is from 1 to its ceiling.
    #[tactic(auto, unfolding(crate::specs::Geometry::geometry_fits, crate::specs::Geometry::max_cylinders, crate::specs::Geometry::max_heads, crate::specs::Geometry::max_sectors, base::specs::Choice::within))]
    pub fn fits(self) -> bool
        ensures { result ≡ geometry_fits self }
    {
        matches!(self.cylinders, 1..=Self::MAX_CYLINDERS)
            && matches!(self.heads, 1..=Self::MAX_HEADS)
            && matches!(self.sectors, 1..=Self::MAX_SECTORS)
    }

    // The geometry of three counts, where they are within the limits.
    #[tactic(auto, unfolding(crate::specs::Geometry::checked_of))]
    pub fn new(cylinders: u16, heads: u8, sectors: u8) -> Option<Geometry>
        ensures { result ≡ checked_of cylinders heads sectors }
    {
        let geometry = Geometry {
            cylinders,
            heads,
            sectors,
        };
        geometry.fits().then_some(geometry)
    }

    // How many sectors the disk has.
    #[tactic(auto, unfolding(crate::specs::Geometry::capacity_of, crate::specs::Translation::product_of))]
    pub fn capacity(self) -> u32
        ensures { result ≡ capacity_of self }
    {
        self.factory().product()
    }

    // The translation that power-on and every reset bring.
    pub fn factory(self) -> Translation
        ensures { result ≡ factory_of self }
    {
        Translation {
            cylinders: self.cylinders,
            heads: self.heads,
            sectors: self.sectors,
        }
    }

    // The most cylinders of so many heads and sectors that the capacity holds, as far as the registers count them.
    #[tactic(auto, unfolding(crate::specs::Translation::cylinders_for))]
    fn cylinders_for(self, heads: u8, sectors: u8) -> u16
        requires { (0 < heads) × (0 < sectors) }
        ensures { result ≡ cylinders_for self heads sectors }
    {
        let whole = self.capacity() / ((heads as u32) * (sectors as u32));
        whole.min(65535) as u16
    }

    // What INITIALIZE DEVICE PARAMETERS (91h) makes of Sector Count and Device/Head; else it aborts.
    #[tactic(auto, unfolding(crate::specs::Translation::initialized_of))]
    pub fn initialize(self, count: u8, head: u8) -> Option<Translation>
        ensures { result ≡ initialized_of self count head }
    {
        if count == 0 {
            return None;
        }
        let heads = head % 16 + 1;
        let cylinders = self.cylinders_for(heads, count);
        if cylinders == 0 {
            return None;
        }
        Some(Translation {
            cylinders,
            heads,
            sectors: count,
        })
    }
}

impl Translation {
    // Whether 91h could have made this translation on a disk of that geometry; the factory's is one such.
    #[tactic(auto, unfolding(crate::specs::Translation::translation_allowed, base::specs::Choice::within))]
    pub fn allowed(self, geometry: Geometry) -> bool
        ensures { result ≡ translation_allowed geometry self }
    {
        matches!(self.heads, 1..=16)
            && geometry
                .initialize(self.sectors, self.heads - 1)
                .is_some_and(|made| made.cylinders == self.cylinders)
    }

    // How many sectors CHS addresses reach.
    #[tactic(auto, unfolding(crate::specs::Translation::product_of))]
    pub fn product(self) -> u32
        ensures { result ≡ product_of self }
    {
        (self.cylinders as u32) * (self.heads as u32) * (self.sectors as u32)
    }
}
