// The texts of values on a map: of parameters and notations, of heights, and how attributes are distributed.
ghost use Rattle.std.specs.Prelude.{◌≡◌, ◌≤◌, IfOk};
ghost use Rattle.hd_report.specs.Distributions.{hist_line, perc_line};
ghost use Rattle.hd_report.specs.Values.{feature_line, height_line, param_line};
ghost use Rattle.hd_stats.specs.Heights.{IsHeightValue};
ghost use Rattle.hd_survey.specs.Survey.{IsSurvey};
ghost use Rattle.hd_survey.specs.Sums.{IsSumOfMeans};
ghost use Rattle.hd_regions.specs.Values.{IsNotationValue, IsParameterValue};
ghost use Rattle.hd_session.specs.Distributions.{AreNotationCounts, IsNotationShare};

use hd_feature::{Notation, Parameter};
use hd_list::{List, Memory};
use hd_map::Heights;
use hd_report::{tell_distribution, tell_feature, tell_height, tell_parameter, tell_share};
use hd_stats::{HeightName, height_value_by, heights_alone_serve_distributions, hist, perc};
use hd_survey::{Survey, notation_regions, notation_value, parameter_value};
use std::alloc::Global;

/// The value of a parameter by its name, with its height in steps where it has one.
pub(crate) fn report_parameter<G: Heights>(
    alloc: Global,
    grid: &G,
    survey: &mut Survey,
    name: &[u8],
    height: Option<i64>,
    parameter: &Parameter,
) -> Result<List<u8>, Memory>
    requires survey { IsSurvey (G.map grid.now) survey.old }
    requires sum { IsSumOfMeans parameter.now }
    ensures survey { IsSurvey (G.map grid.now) survey.new }
    ensures text { IfOk result (λ text. (value : _)
        × IsParameterValue (G.map grid.now) parameter.now value
        × (text ≡ param_line name.now height value)) }
{
    let value = parameter_value(alloc, grid, survey, parameter)?;
    let text = tell_parameter(alloc, name, height, value)?;
    Ok(text)
}

/// The value of a notation by its word.
pub(crate) fn report_feature<G: Heights>(
    alloc: Global,
    grid: &G,
    survey: &mut Survey,
    word: &[u8],
    notation: &Notation,
) -> Result<List<u8>, Memory>
    requires { IsSurvey (G.map grid.now) survey.old }
    ensures survey { IsSurvey (G.map grid.now) survey.new }
    ensures text { IfOk result (λ text. (value : _)
        × IsNotationValue (G.map grid.now) notation.now value
        × (text ≡ feature_line word.now value)) }
{
    let value = notation_value(alloc, grid, survey, notation)?;
    let text = tell_feature(alloc, word, value)?;
    Ok(text)
}

/// The value of a height parameter by its name, with its height in steps where it has one.
pub(crate) fn report_height<G: Heights>(
    alloc: Global,
    grid: &G,
    survey: &mut Survey,
    name: &[u8],
    c: Option<i64>,
    parameter: HeightName,
) -> Result<List<u8>, Memory>
    requires { IsSurvey (G.map grid.now) survey.old }
    ensures survey { IsSurvey (G.map grid.now) survey.new }
    ensures text { IfOk result (λ text. (value : _) × IsHeightValue (G.map grid.now) parameter value
        × (text ≡ height_line name.now c value)) }
{
    let sums = survey.height_sums(grid);
    let value = height_value_by(grid, &sums, parameter);
    let text = tell_height(alloc, name, c, value)?;
    Ok(text)
}

/// The distribution of the attributes of a notation over so many bins, by its word.
pub(crate) fn report_distribution<G: Heights>(
    alloc: Global,
    grid: &G,
    survey: &mut Survey,
    bins: u32,
    word: &[u8],
    notation: &Notation,
) -> Result<List<u8>, Memory>
    requires survey { IsSurvey (G.map grid.now) survey.old }
    requires some { 1 ≤ bins }
    requires few { bins ≤ 64 }
    ensures survey { IsSurvey (G.map grid.now) survey.new }
    ensures text { IfOk result (λ text. (counts : _)
        × AreNotationCounts (G.map grid.now) notation.now bins counts
        × (text ≡ hist_line bins word.now counts)) }
{
    heights_alone_serve_distributions();
    let regions = notation_regions(alloc, grid, survey, notation)?;
    let counts = hist(alloc, notation, &regions, bins)?;
    let text = tell_distribution(alloc, bins, word, &counts)?;
    Ok(text)
}

/// The share of the attributes of a notation above a value, by its word.
pub(crate) fn report_share<G: Heights>(
    alloc: Global,
    grid: &G,
    survey: &mut Survey,
    above: i64,
    word: &[u8],
    notation: &Notation,
) -> Result<List<u8>, Memory>
    requires { IsSurvey (G.map grid.now) survey.old }
    ensures survey { IsSurvey (G.map grid.now) survey.new }
    ensures text { IfOk result (λ text. (share : _)
        × IsNotationShare (G.map grid.now) notation.now above share
        × (text ≡ perc_line above word.now share)) }
{
    heights_alone_serve_distributions();
    let regions = notation_regions(alloc, grid, survey, notation)?;
    let share = perc(alloc, notation, &regions, above)?;
    let text = tell_share(alloc, above, word, share)?;
    Ok(text)
}
