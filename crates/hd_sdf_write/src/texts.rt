// The texts of a file.
ghost use Rattle.std.specs.Prelude.{◌≡◌};
ghost use Rattle.hd_map.specs.Surface.{map_of};
ghost use Rattle.hd_sdf_read.specs.FileOf.{file_of};
ghost use Rattle.hd_sdf_write.specs.Texts.{file_with};

use hd_num::Decimal;
use hd_sdf_read::{Extra, SdfFile, Version};

/// The texts of a file, without its surface.
#[derive(Clone, Copy)]
pub struct SdfTexts<'a> {
    /// The version.
    pub version: Version,
    /// The value of ManufacID, or nothing.
    pub manufac_id: &'a [u8],
    /// The value of CreateDate, or nothing.
    pub create_date: &'a [u8],
    /// The value of ModDate, or nothing.
    pub mod_date: &'a [u8],
    /// The distance of two columns in metres.
    pub x_scale: &'a Decimal,
    /// The distance of two profiles in metres.
    pub y_scale: &'a Decimal,
    /// A height step in metres.
    pub z_scale: &'a Decimal,
    /// The value of Zresolution.
    pub z_resolution: &'a Decimal,
    /// The keys that the format does not know, in their order.
    pub extra: &'a [Extra],
    /// What follows the end of the data.
    pub trailer: &'a [u8],
}

impl<'a> SdfTexts<'a> {
    /// The texts of a file.
    pub fn of(file: &'a SdfFile) -> SdfTexts<'a>
        ensures { file_with result (map_of file.now.surface) ≡ file_of file.now }
    {
        SdfTexts {
            version: file.version,
            manufac_id: file.manufac_id.as_slice(),
            create_date: file.create_date.as_slice(),
            mod_date: file.mod_date.as_slice(),
            x_scale: &file.x_scale,
            y_scale: &file.y_scale,
            z_scale: &file.z_scale,
            z_resolution: &file.z_resolution,
            extra: file.extra.as_slice(),
            trailer: file.trailer.as_slice(),
        }
    }
}
