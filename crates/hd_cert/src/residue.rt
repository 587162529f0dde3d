// In how many steps a point is reached, modulo 3.
ghost use Rattle.std.specs.Prelude.{◌≡◌};
ghost use Rattle.hd_cert.specs.Residues.{residue_after};

use hd_reach::FloodMark;

/// In how many steps, modulo 3, a point is reached.
#[derive(Clone, Copy, PartialEq, Eq)]
pub enum Residue {
    /// It is not reached.
    Unreached,
    /// In a number of steps that 3 divides.
    Zero,
    /// In one step more than such a number.
    One,
    /// In two steps more than such a number.
    Two,
}

const _: () = prove!(size_of::<Residue>() == 1);

impl FloodMark for Residue {
    ghost use Rattle.hd_cert.specs.Residues.{after-reached, residue_after};
    ghost use Rattle.hd_cert.specs.declared.residue.Residue.TheVariants.{Unreached};

    ghost blank = { Unreached };

    ghost after = { residue_after };

    #[inline]
    fn is_blank(self) -> bool {
        self == Residue::Unreached
    }

    #[inline]
    fn after(self) -> Residue {
        match self {
            Residue::Unreached => Residue::Unreached,
            Residue::Zero => Residue::One,
            Residue::One => Residue::Two,
            Residue::Two => Residue::Zero,
        }
    }

    ghost marks = { after-reached };
}

impl Residue {
    /// The residue of one step less.
    #[inline]
    pub fn residue_before(self) -> Residue
        ensures { residue_after result ≡ self }
    {
        match self {
            Residue::Unreached => Residue::Unreached,
            Residue::Zero => Residue::Two,
            Residue::One => Residue::Zero,
            Residue::Two => Residue::One,
        }
    }
}
