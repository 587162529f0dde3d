// The texts of a file, apart from its surface.
ghost use Rattle.hd_map.specs.Map.{Map};
ghost use Rattle.hd_sdf_read.specs.File.{HasForms};

use hd_list::List;
use hd_num::Decimal;
use hd_sdf_read::{Extra, Version};
use hd_sdf_write::SdfTexts;

/// The texts of a file, which have the forms of the grammar beside every surface.
#[derive(Drop)]
pub(crate) struct Texts {
    pub(crate) version: Version,
    pub(crate) manufac_id: List<u8>,
    pub(crate) create_date: List<u8>,
    pub(crate) mod_date: List<u8>,
    pub(crate) x_scale: Decimal,
    pub(crate) y_scale: Decimal,
    pub(crate) z_scale: Decimal,
    pub(crate) z_resolution: Decimal,
    pub(crate) extra: List<Extra>,
    pub(crate) trailer: List<u8>,
    ghost forms: { (m : Map) → HasForms (record {
      version = version;
      manufac_id = manufac_id;
      create_date = create_date;
      mod_date = mod_date;
      x_scale = x_scale;
      y_scale = y_scale;
      z_scale = z_scale;
      z_resolution = z_resolution;
      extra = extra;
      map = m;
      trailer = trailer;
    }) },
}

impl Texts {
    ghost use Rattle.std.specs.Prelude.{◌≡◌};
    ghost use Rattle.hd_session.specs.State.{file_with};
    ghost use Rattle.hd_engine.specs.Texts.{texts_view};
    ghost use Rattle.hd_sdf_write.specs.Texts.{file_with as written_with};

    /// The same texts, borrowed.
    pub(crate) fn borrowed(&self) -> SdfTexts<'_>
        ensures { (m : Map) → written_with result m ≡ file_with (texts_view self.now) m }
    {
        SdfTexts {
            version: self.version,
            manufac_id: self.manufac_id.as_slice(),
            create_date: self.create_date.as_slice(),
            mod_date: self.mod_date.as_slice(),
            x_scale: &self.x_scale,
            y_scale: &self.y_scale,
            z_scale: &self.z_scale,
            z_resolution: &self.z_resolution,
            extra: self.extra.as_slice(),
            trailer: self.trailer.as_slice(),
        }
    }
}
