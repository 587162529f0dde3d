// The values of feature parameters.
ghost use Rattle.std.specs.Prelude.{◌≡◌, ◌≤◌, length, All, IfOk, unsigned_abs};
ghost use Rattle.std.specs.Option.{ForSome};
ghost use Rattle.hd_feature.specs.declared.notation.Attribute.TheVariants.{Lpvh};
ghost use Rattle.hd_feature.specs.declared.notation.Statistic.TheVariants.{Mean};
ghost use Rattle.hd_map.specs.Presence.{IsPresence, present_heights};
ghost use Rattle.hd_map.specs.HeightRange.{range_of};
ghost use Rattle.hd_survey.specs.Heights.{farthest_apart};
ghost use Rattle.hd_survey.specs.Findings.{AreFeaturesAt, AreFindings, AreKeptFeatures};
ghost use Rattle.hd_survey.specs.Survey.{IsSurvey};
ghost use Rattle.hd_survey.specs.Sums.{IsSmall, IsSumOfMeans};
ghost use Rattle.hd_survey.specs.Values.{AreServing, IsNotationValue, IsParameterValue, IsSum, side_of};

use crate::features::{features, heights_alone};
use crate::findings::Findings;
use crate::grid_view::GridView;
use crate::survey::Survey;
use hd_feature::{
    Kind, Notation, Parameter, Region, evaluate, heights_alone_serve, heights_serve,
    mean_height_is_small,
};
use hd_list::{List, Memory};
use hd_map::{Down, HeightRange, Heights, Presence, Side, Up};
use hd_num::{Frac, Percent};
use std::alloc::Global;

/// The value of a parameter of a grid, which is none where no region is significant or no point is
/// present. If it is a sum, then one of two means of local heights.
pub fn parameter_value<G: Heights>(
    alloc: Global,
    grid: &G,
    survey: &mut Survey,
    parameter: &Parameter,
) -> Result<Option<Frac>, Memory>
    requires survey { IsSurvey (G.map grid.now) survey.old }
    requires sum { IsSumOfMeans parameter.now }
    ensures value { IfOk result (IsParameterValue (G.map grid.now) parameter.now) }
    ensures survey { IsSurvey (G.map grid.now) survey.new }
{
    let presence = survey.find_presence(alloc, grid)?;
    match parameter {
        Parameter::One(notation) => value_among(alloc, grid, survey, notation, presence),
        Parameter::Sum(first, second) => {
            let first = value_among(alloc, grid, survey, first, presence)?;
            let second = value_among(alloc, grid, survey, second, presence)?;
            Ok(sum_of(first, second))
        }
    }
}

/// The value of a notation of a grid, which is none where no region is significant or no point is
/// present.
pub fn notation_value<G: Heights>(
    alloc: Global,
    grid: &G,
    survey: &mut Survey,
    notation: &Notation,
) -> Result<Option<Frac>, Memory>
    requires { IsSurvey (G.map grid.now) survey.old }
    ensures value { IfOk result (IsNotationValue (G.map grid.now) notation.now) }
    ensures survey { IsSurvey (G.map grid.now) survey.new }
{
    let presence = survey.find_presence(alloc, grid)?;
    value_among(alloc, grid, survey, notation, presence)
}

/// The regions of the notation's type after its pruning, in position order; where its significance and its
/// attribute ask for neither points nor edges, these may be as if the regions had no points.
pub fn notation_regions<G: Heights>(
    alloc: Global,
    grid: &G,
    survey: &mut Survey,
    notation: &Notation,
) -> Result<List<Region>, Memory>
    requires { IsSurvey (G.map grid.now) survey.old }
    ensures survey { IsSurvey (G.map grid.now) survey.new }
    ensures are { IfOk result (AreServing (G.map grid.now) notation.now) }
    ensures points { IfOk result (All (λ r. r.points ≤ 4194304)) }
    ensures heights { IfOk result (All (λ r. unsigned_abs r.lpvh ≤ farthest_apart)) }
    ensures few { IfOk result (λ list. length list ≤ 4194304) }
{
    let range = survey.find_presence(alloc, grid)?.range;
    kind_features(alloc, grid, survey, notation, range)
}

// The sum of two values, and none where one of them is none.
fn sum_of(first: Option<Frac>, second: Option<Frac>) -> Option<Frac>
    requires first { ForSome first IsSmall }
    requires second { ForSome second IsSmall }
    ensures { IsSum first second result }
{
    match (first, second) {
        (Some(first), Some(second)) => Some(first.add(second)),
        _ => None,
    }
}

// The value of a notation, where the presence is that of the grid.
fn value_among<G: Heights>(
    alloc: Global,
    grid: &G,
    survey: &mut Survey,
    notation: &Notation,
    presence: Presence,
) -> Result<Option<Frac>, Memory>
    requires survey { IsSurvey (G.map grid.now) survey.old }
    requires presence { IsPresence (present_heights (G.map grid.now)) presence }
    ensures survey { IsSurvey (G.map grid.now) survey.new }
    ensures is { IfOk result (IsNotationValue (G.map grid.now) notation.now) }
    ensures small { notation.now.attribute ≡ Lpvh → notation.now.statistic ≡ Mean
        → IfOk result (λ value. ForSome value IsSmall) }
{
    mean_height_is_small();
    heights_alone_serve();
    let regions = kind_features(alloc, grid, survey, notation, presence.range)?;
    evaluate(alloc, notation, &regions, u64::from(presence.count))
}

// The regions of the notation's type after its pruning, as far as they serve it.
fn kind_features<G: Heights>(
    alloc: Global,
    grid: &G,
    survey: &mut Survey,
    notation: &Notation,
    range: Option<HeightRange>,
) -> Result<List<Region>, Memory>
    requires survey { IsSurvey (G.map grid.now) survey.old }
    requires range { range ≡ range_of (present_heights (G.map grid.now)) }
    ensures survey { IsSurvey (G.map grid.now) survey.new }
    ensures are { IfOk result (AreServing (G.map grid.now) notation.now) }
    ensures points { IfOk result (All (λ r. r.points ≤ 4194304)) }
    ensures heights { IfOk result (All (λ r. unsigned_abs r.lpvh ≤ farthest_apart)) }
    ensures few { IfOk result (λ list. length list ≤ 4194304) }
{
    match notation.kind {
        Kind::Hill | Kind::Peak => {
            let hills = &mut survey.hills;
            side_features::<Up, G>(alloc, grid, hills, notation, range)
        }
        Kind::Dale | Kind::Pit => {
            let dales = &mut survey.dales;
            side_features::<Down, G>(alloc, grid, dales, notation, range)
        }
    }
}

// The same of the side that is the notation's.
fn side_features<S: Side, G: Heights>(
    alloc: Global,
    grid: &G,
    findings: &mut Findings<S>,
    notation: &Notation,
    range: Option<HeightRange>,
) -> Result<List<Region>, Memory>
    requires findings { AreFindings (G.map grid.now) S.NAME findings.old }
    requires side { S.NAME ≡ side_of notation.now.kind }
    requires range { range ≡ range_of (present_heights (G.map grid.now)) }
    ensures are { IfOk result (AreServing (G.map grid.now) notation.now) }
    ensures points { IfOk result (All (λ r. r.points ≤ 4194304)) }
    ensures heights { IfOk result (All (λ r. unsigned_abs r.lpvh ≤ farthest_apart)) }
    ensures few { IfOk result (λ list. length list ≤ 4194304) }
    ensures findings { AreFindings (G.map grid.now) S.NAME findings.new }
{
    if heights_serve(notation) {
        return heights_alone::<S, G>(alloc, grid, findings, notation.percent, range);
    }
    if findings.has_features(notation.percent) {
        return known_features(alloc, grid, findings, notation.percent);
    }
    let view = GridView::<S, G>::new(alloc, grid)?;
    features::<S, G, GridView<'_, S, G>>(alloc, grid, &view, findings, notation.percent, range)
}

// The regions after the pruning at a percent, which were found.
fn known_features<S: Side, G: Heights>(
    alloc: Global,
    _grid: &G,
    findings: &Findings<S>,
    percent: Percent,
) -> Result<List<Region>, Memory>
    requires findings { AreFindings (G.map _grid.now) S.NAME findings.now }
    requires found { AreFeaturesAt percent.thousandths findings.now.features }
    ensures { IfOk result (AreKeptFeatures (G.map _grid.now) S.NAME percent.thousandths) }
{
    let known = findings.features();
    let list = List::from_slice(alloc, known.list.as_slice())?;
    Ok(list)
}
