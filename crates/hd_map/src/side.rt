// The two sides of a map: dales, and hills with the order of ranks reversed.
ghost use Rattle.std.specs.Prelude.{◌≡◌};
ghost use Rattle.hd_map.specs.Order.{IsStrictOrder};
ghost use Rattle.hd_map.specs.Passes.{higher_by};
ghost use Rattle.hd_map.specs.Rank.{below_by};
ghost use Rattle.hd_map.specs.SideLaws.{below_by-order};

use crate::{Rank, SideName};

/// A side of a map: which of two points is below the other. Lowest, highest and pit follow from it.
pub trait Side {
    ghost use Rattle.hd_map.specs.declared.types.SideName.{SideName};

    /// The name of the side, in contracts.
    ghost NAME: { SideName };

    /// The name of the side.
    const NAME: SideName;

    /// Whether a is below b: by height, and at one height by index, in the order of the side.
    fn below(a: Rank, b: Rank) -> bool
        ensures { result ≡ below_by NAME a b };

    /// No rank is below itself, what is below what is below a rank is below that rank, and of two
    /// different ranks one is below the other.
    ghost order: { IsStrictOrder (below_by NAME) };
}

/// The side of the dales: lower is below, and at one height the lesser index.
#[derive(Clone, Copy, Debug)]
pub struct Down;

impl Side for Down {
    ghost use Rattle.hd_map.specs.declared.types.SideName.TheVariants.{Dales};

    ghost NAME = { Dales };

    const NAME: SideName = SideName::Dales;

    #[inline]
    fn below(a: Rank, b: Rank) -> bool {
        (a.height < b.height) | ((a.height == b.height) & (a.index < b.index))
    }

    ghost order = { below_by-order Dales };
}

/// The side of the hills: higher is below, and at one height the greater index.
#[derive(Clone, Copy, Debug)]
pub struct Up;

impl Side for Up {
    ghost use Rattle.hd_map.specs.declared.types.SideName.TheVariants.{Hills};

    ghost NAME = { Hills };

    const NAME: SideName = SideName::Hills;

    #[inline]
    fn below(a: Rank, b: Rank) -> bool {
        (b.height < a.height) | ((a.height == b.height) & (b.index < a.index))
    }

    ghost order = { below_by-order Hills };
}

/// The higher of two ranks in the order of a side.
#[inline]
pub fn higher_of<S: Side>(a: Rank, b: Rank) -> Rank
    ensures { result ≡ higher_by S.NAME a b }
{
    if S::below(a, b) { b } else { a }
}
