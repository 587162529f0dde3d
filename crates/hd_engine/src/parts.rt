// A file as its texts and its surface, and the file of these.
ghost use Rattle.std.specs.Prelude.{◌≡◌, IfOk};
ghost use Rattle.hd_map.specs.Surface.{map_of};
ghost use Rattle.hd_sdf_read.specs.FileOf.{file_of};
ghost use Rattle.hd_session.specs.State.{file_with, texts_of};
ghost use Rattle.hd_engine.specs.Texts.{texts_view};

use crate::copies::{copied, decimal, extras};
use crate::texts::Texts;
use hd_list::{List, Memory};
use hd_map::Surface;
use hd_num::Decimal;
use hd_sdf_read::SdfFile;
use std::alloc::Global;

/// The texts and the surface of a file.
pub(crate) fn parted(file: SdfFile) -> (Texts, Surface)
    ensures texts { texts_view result.0 ≡ texts_of (file_of file) }
    ensures surface { map_of result.1 ≡ map_of file.surface }
{
    let SdfFile {
        version,
        manufac_id,
        create_date,
        mod_date,
        x_scale,
        y_scale,
        z_scale,
        z_resolution,
        extra,
        surface,
        trailer,
    } = file;
    let texts = Texts {
        version,
        manufac_id,
        create_date,
        mod_date,
        x_scale,
        y_scale,
        z_scale,
        z_resolution,
        extra,
        trailer,
    };
    (texts, surface)
}

/// The file of a copy of these texts and a surface.
pub(crate) fn joined(alloc: Global, texts: &Texts, surface: Surface) -> Result<SdfFile, Memory>
    ensures { IfOk result (λ file. file_of file ≡ file_with (texts_view texts.now) (map_of surface)) }
{
    let texts = copied_texts(alloc, texts)?;
    Ok(whole(texts, surface))
}

// The file of these texts and a surface.
fn whole(texts: Texts, surface: Surface) -> SdfFile
    ensures { file_of result ≡ file_with (texts_view texts) (map_of surface) }
{
    let Texts {
        version,
        manufac_id,
        create_date,
        mod_date,
        x_scale,
        y_scale,
        z_scale,
        z_resolution,
        extra,
        trailer,
    } = texts;
    SdfFile {
        version,
        manufac_id,
        create_date,
        mod_date,
        x_scale,
        y_scale,
        z_scale,
        z_resolution,
        extra,
        surface,
        trailer,
    }
}

// A copy of the texts of a file.
fn copied_texts(alloc: Global, texts: &Texts) -> Result<Texts, Memory>
    ensures { IfOk result (λ copy. texts_view copy ≡ texts_view texts.now) }
{
    let extra = extras(alloc, texts.extra.as_slice())?;
    let trailer = copied(alloc, &texts.trailer)?;
    let origin = copied_origin(alloc, texts)?;
    let scales = copied_scales(alloc, texts)?;
    Ok(Texts {
        version: texts.version,
        manufac_id: origin.manufac_id,
        create_date: origin.create_date,
        mod_date: origin.mod_date,
        x_scale: scales.x,
        y_scale: scales.y,
        z_scale: scales.z,
        z_resolution: scales.z_resolution,
        extra,
        trailer,
    })
}

// Who made a file, and when.
#[derive(Drop)]
struct Origin {
    manufac_id: List<u8>,
    create_date: List<u8>,
    mod_date: List<u8>,
}

// A copy of who made a file, and when.
fn copied_origin(alloc: Global, texts: &Texts) -> Result<Origin, Memory>
    ensures { IfOk result (λ origin. (origin.manufac_id ≡ texts.now.manufac_id)
        × (origin.create_date ≡ texts.now.create_date) × (origin.mod_date ≡ texts.now.mod_date)) }
{
    let manufac_id = copied(alloc, &texts.manufac_id)?;
    let create_date = copied(alloc, &texts.create_date)?;
    let mod_date = copied(alloc, &texts.mod_date)?;
    Ok(Origin {
        manufac_id,
        create_date,
        mod_date,
    })
}

// The three scales of a file, and its resolution.
#[derive(Drop)]
struct Scales {
    x: Decimal,
    y: Decimal,
    z: Decimal,
    z_resolution: Decimal,
}

// A copy of the scales of a file.
fn copied_scales(alloc: Global, texts: &Texts) -> Result<Scales, Memory>
    ensures { IfOk result (λ scales. (scales.x ≡ texts.now.x_scale) × (scales.y ≡ texts.now.y_scale)
        × (scales.z ≡ texts.now.z_scale) × (scales.z_resolution ≡ texts.now.z_resolution)) }
{
    let x = decimal(alloc, &texts.x_scale)?;
    let y = decimal(alloc, &texts.y_scale)?;
    let z = decimal(alloc, &texts.z_scale)?;
    let z_resolution = decimal(alloc, &texts.z_resolution)?;
    Ok(Scales {
        x,
        y,
        z,
        z_resolution,
    })
}
