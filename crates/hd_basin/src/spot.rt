// Nodes by their tiles and their numbers.
ghost use Rattle.std.specs.Prelude.{◌<◌, ℕ, Contains, length};
ghost use Rattle.hd_basin.specs.Known.{AreNoted};

/// A node by its tile, and its number among the nodes of the tile.
#[derive(Clone, Copy, Debug, PartialEq, Eq)]
pub struct Spot {
    /// The number of the tile.
    pub tile: usize,
    /// The number of the node.
    pub number: usize,
}

/// Writes a number at places.
pub fn note(numbers: &mut Vec<u32>, places: &[usize], number: u32)
    requires { (place : ℕ) → Contains places.now place → place < length numbers.old.items }
    ensures { AreNoted places.now number numbers.old.items numbers.new.items }
{
    'places: for place in places {
        numbers[*place] = number;
    }
}
