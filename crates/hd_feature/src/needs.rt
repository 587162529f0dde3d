// What a notation asks for of the regions.
ghost use Rattle.std.specs.Prelude.{◌≡◌};
ghost use Rattle.hd_feature.specs.HeightsAlone.{asks_for_edges, asks_for_points, heights_serve};

use crate::{Attribute, Notation, Significance};

/// Whether the pits and the local heights of the regions serve a notation: it asks neither for their
/// edge points nor for the number of their points.
pub fn heights_serve(notation: &Notation) -> bool
    ensures { result ≡ heights_serve notation.now }
{
    !asks_for_edges(notation.significance) && !asks_for_points(notation.attribute)
}

// Whether a significance asks for edge points.
fn asks_for_edges(significance: Significance) -> bool
    ensures { result ≡ asks_for_edges significance }
{
    match significance {
        Significance::All | Significance::Top(_) | Significance::Bot(_) => false,
        Significance::Closed(_) | Significance::Open(_) => true,
    }
}

// Whether an attribute asks for the number of points.
fn asks_for_points(attribute: Attribute) -> bool
    ensures { result ≡ asks_for_points attribute }
{
    match attribute {
        Attribute::Lpvh | Attribute::Count => false,
        Attribute::AreaE => true,
    }
}
