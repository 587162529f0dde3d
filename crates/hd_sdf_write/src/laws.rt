// What the canonical text of a file says.
ghost use Rattle.std.specs.Prelude.{◌≡◌, Ok};
ghost use Rattle.hd_map.specs.Map.{IsMap};
ghost use Rattle.hd_map.specs.Unmasked.{unmasked};
ghost use Rattle.hd_sdf_read.specs.File.{File, HasForms};
ghost use Rattle.hd_sdf_read.specs.Grammar.{file_in};
ghost use Rattle.hd_sdf_write.specs.Canonical.{as_read, canonical};

/// The canonical text of a file is read as this file, with no mask and with eight neighbours; where
/// its data are decimals and no point is measured, with no decimal places.
pub fn canonical_text_reads_back()
    ensures { (file : File) → IsMap file.map → HasForms file → file_in (canonical file) ≡ Ok (as_read file) }
{}

/// The file that a canonical text is read as has the same canonical text.
pub fn canonical_text_stays()
    ensures { (file again : File) → IsMap file.map → HasForms file
        → file_in (canonical file) ≡ Ok again → canonical again ≡ canonical file }
{}

/// The canonical text of a file does not tell the masks of its map, nor which points are neighbours.
pub fn masks_are_not_written()
    ensures { (file : File) → canonical (record file { map = unmasked file.map }) ≡ canonical file }
{}
