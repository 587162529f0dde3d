// What an SDF file holds.
ghost use Rattle.hd_map.specs.Surface.{map_of};
ghost use Rattle.hd_sdf_read.specs.File.{HasForms};

use hd_list::List;
use hd_map::Surface;
use hd_num::Decimal;

/// The version that line 1 names.
#[derive(Clone, Copy, Debug, PartialEq, Eq)]
pub enum Version {
    /// `aBCR-1.0`.
    Bcr,
    /// `aISO-1.0`.
    Iso,
}

/// A key that the format does not know, and its value, as read. The type itself holds any two texts;
/// an [`SdfFile`] keeps that these two have their forms and that the key is no known one.
#[derive(Debug, Drop)]
pub struct Extra {
    /// The key. In an `SdfFile` it has 1 to 64 bytes from 0x20 to 0x7E.
    pub key: List<u8>,
    /// The value. In an `SdfFile` it has at most 896 bytes.
    pub value: List<u8>,
}

/// A surface with the texts of its file. Heights are in steps; the scales say how many metres a
/// point, a profile and a step are, as the file writes them.
///
/// The texts have the forms of the grammar, there are at most 240 extra keys, none of them a known
/// key or twice there without regard to case, and each decimal is the reading of its literal.
#[derive(Debug, Drop)]
pub struct SdfFile {
    /// The version.
    pub version: Version,
    /// The value of ManufacID, or nothing.
    pub manufac_id: List<u8>,
    /// The value of CreateDate, or nothing.
    pub create_date: List<u8>,
    /// The value of ModDate, or nothing.
    pub mod_date: List<u8>,
    /// The distance of two columns in metres.
    pub x_scale: Decimal,
    /// The distance of two profiles in metres.
    pub y_scale: Decimal,
    /// A height step in metres.
    pub z_scale: Decimal,
    /// The value of Zresolution, or -1.
    pub z_resolution: Decimal,
    /// The keys that the format does not know, in their order.
    pub extra: List<Extra>,
    /// The size, the type and the heights.
    pub surface: Surface,
    /// What follows the end of the data, without the blanks and LFs at its ends.
    pub trailer: List<u8>,
    ghost forms: { HasForms (record {
      version = version;
      manufac_id = manufac_id;
      create_date = create_date;
      mod_date = mod_date;
      x_scale = x_scale;
      y_scale = y_scale;
      z_scale = z_scale;
      z_resolution = z_resolution;
      extra = extra;
      map = map_of surface;
      trailer = trailer;
    }) },
}
