// The value of a notation.
ghost use Rattle.std.specs.Prelude.{◌≡◌, ◌≤◌, ◌++◌, ◌∷◌, [], All, IfOk, OnOk, if◌then◌else◌};
ghost use Rattle.hd_feature.specs.Cut.{IsCut, significant_by};
ghost use Rattle.hd_feature.specs.Value.{IsValue, attribute, attributes};

use crate::significance::{RegionKey, cut_of, is_significant};
use crate::statistic::statistic_of;
use crate::{Attribute, Notation, Region};
use hd_list::{List, Memory};
use hd_num::Frac;
use std::alloc::Global;

/// The value of a notation, after the feature parameters of ISO 25178-2, over the regions of its side
/// after its pruning, in position order, on a surface with `area` present points: a fraction of steps,
/// points or features. No region has more than 4,194,304 points. None comes exactly where no region is
/// significant or the area is 0.
pub fn evaluate(
    alloc: Global,
    notation: &Notation,
    regions: &List<Region>,
    area: u64,
) -> Result<Option<Frac>, Memory>
    requires { All (λ r. r.points ≤ 4194304) regions.now }
    ensures { IfOk result (IsValue notation.now regions.now area) }
{
    if area == 0 {
        return Ok(None);
    }
    let values = attributes(alloc, notation, regions.as_slice())?;
    if values.is_empty() {
        return Ok(None);
    }
    Ok(Some(statistic_of(notation.statistic, values.as_slice(), area)))
}

/// The attributes of the regions that are significant to a notation, in their order, in steps, points
/// or features. No region has more than 4,194,304 points.
pub fn attributes(
    alloc: Global,
    notation: &Notation,
    regions: &[Region],
) -> Result<Vec<i64>, Memory>
    requires { All (λ r. r.points ≤ 4194304) regions.now }
    ensures { IfOk result (λ values. values.items ≡ attributes notation.now regions.now) }
{
    let cut = cut_of(alloc, notation.significance, regions)?;
    let mut values = Vec::new(alloc);
    'regions: for region in regions {
        add_significant(&mut values, notation, cut, region)?;
    }
    Ok(values)
}

// Adds the attribute of a region, where that is significant.
fn add_significant(
    values: &mut Vec<i64>,
    notation: &Notation,
    cut: Option<RegionKey>,
    region: &Region,
) -> Result<(), Memory>
    requires { region.now.points ≤ 4194304 }
    ensures { OnOk result (values.new.items ≡ values.old.items
        ++ (if significant_by notation.now.kind notation.now.significance cut
        region.now then (attribute notation.now.attribute region.now ∷ []) else [])) }
{
    if is_significant(notation.kind, notation.significance, cut, region) {
        values.push(attribute(notation.attribute, region))?;
        return Ok(());
    }
    Ok(())
}

// What an attribute takes of a region.
fn attribute(of: Attribute, region: &Region) -> i64
    requires { region.now.points ≤ 4194304 }
    ensures { result ≡ attribute of region.now }
{
    match of {
        Attribute::Lpvh => region.lpvh,
        Attribute::Count => 1,
        Attribute::AreaE => region.points as i64,
    }
}
