// The passes between the regions of pits, as links.
ghost use Rattle.std.specs.Prelude.{◌≡◌, ◌++◌, OnOk};
ghost use Rattle.hd_basin.specs.Between.{link_between};

use hd_list::Memory;
use hd_map::{Link, Rank};

/// Adds the link of two pits by their numbers, unless they are one.
pub fn push_link(links: &mut Vec<Link>, a: u32, b: u32, at: Rank) -> Result<(), Memory>
    ensures { OnOk result (links.new.items ≡ links.old.items ++ link_between a b at) }
{
    if a != b {
        links.push(Link { a, b, at })?;
    }
    Ok(())
}
