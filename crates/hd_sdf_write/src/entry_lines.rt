// Lines of a text.
ghost use Rattle.std.specs.Prelude.{◌≡◌, ◌++◌, OnOk};
ghost use Rattle.hd_sdf_write.specs.Canonical.{end_lines, entry_line, extra_lines, line};

use hd_list::{List, Memory};
use hd_num::push_text;
use hd_sdf_read::Extra;

/// Adds a text and an LF.
pub fn push_line(out: &mut List<u8>, text: &[u8]) -> Result<(), Memory>
    ensures { OnOk result (out.new ≡ out.old ++ line text.now) }
{
    push_text(out, text)?;
    push_text(out, b"\n")
}

/// Adds the line of a key and its value.
#[tactic(auto, unfolding(crate::specs::Canonical::entry_line))]
pub fn push_entry(out: &mut List<u8>, key: &[u8], value: &[u8]) -> Result<(), Memory>
    ensures { OnOk result (out.new ≡ out.old ++ entry_line key.now value.now) }
{
    push_text(out, key)?;
    if value.is_empty() {
        return push_line(out, b" =");
    }
    push_text(out, b" = ")?;
    push_line(out, value)
}

/// Adds the lines of extra keys.
pub fn push_extra(out: &mut List<u8>, extra: &[Extra]) -> Result<(), Memory>
    ensures { OnOk result (out.new ≡ out.old ++ extra_lines extra.now) }
{
    'entries: for entry in extra {
        push_entry(out, entry.key.as_slice(), entry.value.as_slice())?;
    }
    Ok(())
}

/// Adds the end of the data, and the trailer where there is one.
#[tactic(auto, unfolding(crate::specs::Canonical::end_lines))]
pub fn push_end(out: &mut List<u8>, trailer: &[u8]) -> Result<(), Memory>
    ensures { OnOk result (out.new ≡ out.old ++ end_lines trailer.now) }
{
    push_line(out, b"*")?;
    if trailer.is_empty() {
        return Ok(());
    }
    push_line(out, trailer)
}
