// The cells of decimals, in steps of the last of the most decimal places among them.
ghost use Rattle.std.specs.Prelude.{◌≡◌, ◌<◌, ◌≤◌, ◌*◌, ◌^◌, MatchOption, true};
ghost use Rattle.hd_map.specs.declared.types.Cell.TheVariants.{Height};
ghost use Rattle.hd_map.specs.Cells.{wide_cells_in};
ghost use Rattle.hd_num.specs.Whole.{signed_number};
ghost use Rattle.hd_sdf_read.specs.Decimals.{greatest_in, most_places, most_steps};
ghost use Rattle.hd_sdf_read.specs.Keys.{has_decimals, with_places};

use crate::SdfError;
use crate::keys::with_places;
use hd_list::Memory;
use hd_map::{Cell, DataType, WideCells};
use std::alloc::Global;

/// A datum of a type of decimals.
#[derive(Clone, Copy)]
pub enum Datum {
    /// None was measured.
    Unmeasured,
    /// So many units of the last decimal place, with a sign.
    Measured {
        negative: bool,
        units: u64,
        places: u8,
    },
}

/// The most decimal places of a datum.
pub const MOST_PLACES: u8 = 18;

/// The most steps that a height is from 0.
pub const MOST_STEPS: u64 = 9_007_199_254_740_992;

/// The data of decimals that were read, as cells in steps of the last of the most decimal places
/// among them.
#[derive(Drop)]
pub struct Scaled {
    cells: WideCells,
    places: u8,
    greatest: u64,
    ghost decimals: { has_decimals cells.data_type ≡ true },
    ghost places_are: { cells.data_type ≡ with_places cells.data_type places },
    ghost few: { places ≤ most_places },
    ghost greatest_is: { greatest ≡ greatest_in (wide_cells_in cells) },
    ghost small: { greatest ≤ most_steps },
}

impl Scaled {
    ghost use Rattle.std.specs.Prelude.{◌∷◌, ◌++◌, [], IfOk, IsTrue, OnOk, length};
    ghost use Rattle.hd_sdf_read.specs.Decimals.{IsSmall, size_of};
    ghost use Rattle.hd_sdf_read.specs.Scaling.{Grows, Pushes, Refines, IsScaled};

    /// No data of a type of decimals, and the memory for this many.
    pub fn with_capacity(
        alloc: Global,
        data_type: DataType,
        capacity: usize,
    ) -> Result<Scaled, Memory>
        requires { has_decimals data_type ≡ true }
        ensures { IfOk result (λ scaled. IsScaled scaled data_type []) }
    {
        let cells = WideCells::with_capacity(alloc, with_places(data_type, 0), capacity)?;
        Ok(Scaled {
            cells,
            places: 0,
            greatest: 0,
        })
    }

    /// Adds the datum of this number, which alone is in range. `DatumRange` comes where the data with
    /// this one are not.
    #[inline]
    pub fn push(&mut self, number: u64, datum: Datum) -> Result<(), SdfError>
        requires { IsSmall datum }
        ensures { Pushes self.old self.new number datum result }
    {
        match datum {
            Datum::Unmeasured => Ok(self.push_cell(Cell::Bad, 0)?),
            Datum::Measured {
                negative,
                units,
                places,
            } => {
                if !self.refine(places) {
                    return Err(SdfError::DatumRange(number));
                }
                match multiplied(units, self.places - places) {
                    Some(steps) => Ok(self.push_cell(height_of(negative, steps), steps)?),
                    None => Err(SdfError::DatumRange(number)),
                }
            }
        }
    }

    /// How many data there are.
    pub fn len(&self) -> usize
        ensures { result ≡ length (wide_cells_in self.now.cells) }
    {
        self.cells.len()
    }

    /// The cells of the data.
    pub fn into_cells(self) -> WideCells
        ensures { result ≡ self.cells }
    {
        let Scaled { cells, .. } = self;
        cells
    }

    // Adds a cell that is so many steps from 0.
    #[inline]
    fn push_cell(&mut self, cell: Cell, steps: u64) -> Result<(), Memory>
        requires size { size_of cell ≡ steps }
        requires small { steps ≤ most_steps }
        ensures places { self.new.places ≡ self.old.places }
        ensures data_type { self.new.cells.data_type ≡ self.old.cells.data_type }
        ensures ok { OnOk result (wide_cells_in self.new.cells ≡ wide_cells_in self.old.cells ++ cell ∷ []) }
    {
        self.cells.push(cell)?;
        self.greatest = self.greatest.max(steps);
        Ok(())
    }

    // Takes steps of at least so many places, if the heights so far stay in range.
    #[inline]
    fn refine(&mut self, places: u8) -> bool
        requires { places ≤ most_places }
        ensures reached { IsTrue result → places ≤ self.new.places }
        ensures heights { Refines self.old self.new places result }
    {
        if places <= self.places {
            return true;
        }
        self.grow(places)
    }

    // Takes smaller steps, and multiplies the heights so far, if they stay in range.
    fn grow(&mut self, places: u8) -> bool
        requires more { self.old.places < places }
        requires few { places ≤ most_places }
        ensures { Grows self.old self.new places result }
    {
        let power = places - self.places;
        match multiplied(self.greatest, power) {
            Some(greatest) => {
                let data_type = with_places(self.cells.data_type(), places);
                self.cells.multiply(data_type, ten_to(power) as i64);
                self.places = places;
                self.greatest = greatest;
                true
            }
            None => false,
        }
    }
}

// So many units times ten to a power, if these are steps in range.
#[inline]
pub fn multiplied(units: u64, power: u8) -> Option<u64>
    requires { power ≤ most_places }
    ensures { MatchOption result (most_steps < units * 10 ^ power)
        (λ steps. (steps ≡ units * 10 ^ power) × (steps ≤ most_steps)) }
{
    if power == 0 {
        return if units <= MOST_STEPS {
            Some(units)
        } else {
            None
        };
    }
    let factor = ten_to(power);
    if units <= MOST_STEPS / factor {
        Some(units * factor)
    } else {
        None
    }
}

// Ten to a power.
fn ten_to(power: u8) -> u64
    requires { power ≤ most_places }
    ensures { result ≡ 10 ^ power }
{
    10u64.pow(u32::from(power))
}

// The cell of so many steps with a sign.
#[inline]
fn height_of(negative: bool, steps: u64) -> Cell
    requires { steps ≤ most_steps }
    ensures { result ≡ Height (signed_number negative steps) }
{
    if negative {
        Cell::Height(-(steps as i64))
    } else {
        Cell::Height(steps as i64)
    }
}
