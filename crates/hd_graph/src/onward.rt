// The links by which the water goes on.
ghost use Rattle.std.specs.Prelude.{◌≡◌, ◌<◌, ◌^◌, ℕ, IfOk, All, Some, length, slice_get};
ghost use Rattle.hd_graph.specs.Links.{HasEnds};
ghost use Rattle.hd_graph.specs.Onward.{AreOnward};

use crate::classes::Classes;
use crate::order::InOrder;
use hd_list::Memory;
use std::alloc::Global;

/// By part, the place of the first link that leads on from it, and how many links there are where none does. The
/// parts are the lows, each alone, and then, by link, what it joins where those before it leave its ends apart.
pub fn links_onward(alloc: Global, links: &InOrder, count: usize) -> Result<Vec<usize>, Memory>
    requires within { All (HasEnds count) links.now }
    requires few { count < 2 ^ 32 }
    ensures { IfOk result (λ onward. AreOnward links.now count onward.items) }
{
    let none = links.len();
    let mut classes = Classes::new(alloc, count)?;
    // By the least number of each class, its part.
    let mut parts = lows_alone(alloc, count)?;
    let mut onward = vec![in alloc; none; count]?;
    for place in 0..none {
        let link = links.at(place);
        onward.push(none)?;
        let (first, second) = classes.leasts_of(link.a, link.b);
        if first == second {
            continue;
        }
        onward[parts[first as usize]] = place;
        onward[parts[second as usize]] = place;
        let least = classes.unite(first, second);
        parts[least as usize] = count + place;
    }
    Ok(onward)
}

// By low, the part that it is alone.
fn lows_alone(alloc: Global, count: usize) -> Result<Vec<usize>, Memory>
    ensures long { IfOk result (λ parts. length parts.items ≡ count) }
    ensures own { IfOk result (λ parts. (x e : ℕ) → slice_get parts.items x ≡ Some e → e ≡ x) }
{
    let mut parts = Vec::with_capacity(alloc, count)?;
    for low in 0..count {
        parts.push(low)?;
    }
    Ok(parts)
}
