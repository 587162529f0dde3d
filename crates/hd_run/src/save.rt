// Saving the file that a script leaves.
ghost use Rattle.std.specs.Prelude.{◌≡◌, IsTrue, OnErr, OnOk};
ghost use Rattle.std.specs.Io.KnownBytes.{Appends};
ghost use Rattle.hd_base.specs.Causes.{HasCause};
ghost use Rattle.hd_base.specs.Told.{AppendsPart};
ghost use Rattle.hd_sdf_write.specs.Canonical.{canonical};
ghost use Rattle.hd_session.specs.State.{saved_file};
ghost use Rattle.hd_run.specs.FaultCounts.{over};
ghost use Rattle.hd_run.specs.Saving.{Saves, saving};

use crate::stop::Stop;
use hd_base::{Sink, WriteFault, write_all};
use hd_session::{FilePieces, SurfaceSession};

/// Saves the file of a session under a name: the canonical text of the present surface, flushed.
///
/// All memory is taken before the sink is opened, so that want of it leaves what stands there.
pub fn save_file<E: SurfaceSession, V: Sink>(
    session: &E,
    name: &str,
    saved: &mut V,
) -> Result<(), Stop>
    requires { IsTrue (V.allows saved.old name.now) }
    ensures { Saves (canonical (saved_file (E.state session.now))) (saved.new ≡ saved.old) result
        (saving (V.written saved.old) (V.written saved.new) (V.flushed saved.new)
        (over (V.faults saved.old) (V.faults saved.new))) }
{
    let Ok(mut pieces) = session.pieces() else {
        return Err(Stop::Memory);
    };
    if saved.open(name).is_err() {
        return Err(Stop::WriteFault);
    }
    if write_pieces(&mut pieces, saved).is_err() {
        return Err(Stop::WriteFault);
    }
    if saved.flush().is_err() {
        return Err(Stop::WriteFault);
    }
    Ok(())
}

// Writes what is left of a text.
fn write_pieces<V: Sink>(pieces: &mut FilePieces<'_>, saved: &mut V) -> Result<(), WriteFault>
    requires { IsTrue (V.is_open saved.old) }
    ensures open { IsTrue (V.is_open saved.new) }
    ensures all { OnOk result (Appends (V.written saved.old) (V.written saved.new) pieces.old.left) }
    ensures part { OnErr result (AppendsPart (V.written saved.old) (V.written saved.new) pieces.old.left) }
    ensures cause { HasCause (V.faults saved.old) (V.faults saved.new) result }
{
    'pieces: while pieces.advance() {
        write_all(saved, pieces.piece())?;
    }
    Ok(())
}
