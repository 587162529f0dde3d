// The four filters, of plain numbers and by any element.
ghost use Rattle.std.specs.Prelude.{IfOk};
ghost use Rattle.hd_map.specs.Map.{IsSize};
ghost use Rattle.hd_map.specs.Encoding.{most_between, most_filtered};
ghost use Rattle.hd_morph.specs.Element.{IsElement};
ghost use Rattle.hd_morph.specs.declared.filter.Filter.TheVariants.{Erosion, Opening, Closing};
ghost use Rattle.hd_morph.specs.Plain.{ArePlain, IsPlain, HasNumbersWithin};
ghost use Rattle.hd_morph.specs.Raised.{ArePlainlyFiltered};
ghost use Rattle.hd_morph.specs.Turned.{AreNegated};

use crate::Element;
use crate::element::turned;
use crate::offsets::dilate_by_offsets;
use crate::plain::negate;
use crate::raise::Raise;
use hd_list::Memory;
use hd_map::{Lane, Size};
use std::alloc::Global;

/// One of the four filters.
#[derive(Clone, Copy, Debug)]
pub enum Filter {
    Dilation,
    Erosion,
    Opening,
    Closing,
}

/// A filter of heights.
pub fn filtered<L: Raise>(
    alloc: Global,
    heights: Vec<L>,
    size: Size,
    element: &Element,
    filter: Filter,
) -> Result<Vec<L>, Memory>
    requires size { IsSize size }
    requires heights { ArePlain L.code size L.code.most_height heights.items }
    requires numbers { HasNumbersWithin L.code.most_number element.now }
    requires element { IsElement element.now }
    ensures { IfOk result (λ g. ArePlainlyFiltered L.code filter size element.now heights.items g.items) }
{
    let mut heights = heights;
    match filter {
        Filter::Dilation => dilate_by_offsets(Vec::new(alloc), &heights, size, element),
        Filter::Erosion => eroded(alloc, Vec::new(alloc), &mut heights, size, element),
        Filter::Opening => opened(alloc, heights, size, element),
        Filter::Closing => closed(alloc, heights, size, element),
    }
}

// The erosion of heights, in the memory of `room` where that suffices: the negative of the dilation
// of the negatives by the turned element. The heights are left negated.
fn eroded<L: Raise>(
    alloc: Global,
    room: Vec<L>,
    heights: &mut [L],
    size: Size,
    element: &Element,
) -> Result<Vec<L>, Memory>
    requires size { IsSize size }
    requires heights { ArePlain L.code size (most_between L.code) heights.old }
    requires numbers { HasNumbersWithin L.code.most_number element.now }
    requires element { IsElement element.now }
    ensures { IfOk result (λ w. ArePlainlyFiltered L.code Erosion size element.now heights.old w.items) }
{
    let turned = turned(alloc, element)?;
    negate(heights);
    let lowered = dilate_by_offsets(room, heights, size, &turned)?;
    Ok(all_negated(lowered))
}

// The heights, each negated.
fn all_negated<L: Lane>(heights: Vec<L>) -> Vec<L>
    requires { IsPlain L.code (most_filtered L.code) heights.items }
    ensures { AreNegated L.code heights.items result.items }
{
    let mut heights = heights;
    negate(&mut heights);
    heights
}

// The opening of heights: an erosion, and then a dilation. It takes the memory of one more list.
fn opened<L: Raise>(
    alloc: Global,
    heights: Vec<L>,
    size: Size,
    element: &Element,
) -> Result<Vec<L>, Memory>
    requires size { IsSize size }
    requires heights { ArePlain L.code size L.code.most_height heights.items }
    requires numbers { HasNumbersWithin L.code.most_number element.now }
    requires element { IsElement element.now }
    ensures { IfOk result (λ g. ArePlainlyFiltered L.code Opening size element.now heights.items g.items) }
{
    let mut room = heights;
    let between = eroded(alloc, Vec::new(alloc), &mut room, size, element)?;
    dilate_by_offsets(room, &between, size, element)
}

// The closing of heights: a dilation, and then an erosion. It takes the memory of one more list.
fn closed<L: Raise>(
    alloc: Global,
    heights: Vec<L>,
    size: Size,
    element: &Element,
) -> Result<Vec<L>, Memory>
    requires size { IsSize size }
    requires heights { ArePlain L.code size L.code.most_height heights.items }
    requires numbers { HasNumbersWithin L.code.most_number element.now }
    requires element { IsElement element.now }
    ensures { IfOk result (λ g. ArePlainlyFiltered L.code Closing size element.now heights.items g.items) }
{
    let mut between = dilate_by_offsets(Vec::new(alloc), &heights, size, element)?;
    eroded(alloc, heights, &mut between, size, element)
}
