//! Writing the outputs.

ghost use Rattle.std.specs.Prelude.{◌≡◌, [], map, option_map, OnOk, IfErr};
ghost use Rattle.ix_shelf.specs.Shelf.{NoneFalls};
ghost use Rattle.ix_job.specs.Job.{with_files};
ghost use Rattle.ix_job.specs.Steps.{IsUnwrittenAt};

use ix_rec::{Bytes, Items};
use ix_shelf::{Shelf, write_file};

/// An output that wasn't written.
#[derive(Clone, Copy)]
pub(crate) struct Unwritten {
    /// Its place.
    pub(crate) place: usize,
}

/// Makes the files of these names the outputs, one after another. It takes no memory.
pub(crate) fn write_outputs<S: Shelf>(
    shelf: &mut S,
    names: &[&str],
    outputs: &Items<Bytes>,
) -> Result<(), Unwritten>
    ensures read_faults { S.read_faults shelf.new ≡ S.read_faults shelf.old }
    ensures write_faults { NoneFalls (S.write_faults shelf.old) (S.write_faults shelf.new) }
    ensures untried { outputs.now ≡ [] → S.write_faults shelf.new ≡ S.write_faults shelf.old }
    ensures all { OnOk result (S.files shelf.new
        ≡ option_map (with_files (map (λ name. name.now) names.now) outputs.now)
        (S.files shelf.old)) }
    ensures unwritten { IfErr result (λ e. IsUnwrittenAt (S.files shelf.old) (S.files shelf.new)
        (S.write_faults shelf.old) (S.write_faults shelf.new) (map (λ name. name.now) names.now)
        outputs.now e.place) }
{
    for i in 0..names.len().min(outputs.len()) {
        match write_file(shelf, names[i], outputs.at(i).as_slice()) {
            Ok(()) => {}
            Err(_) => return Err(Unwritten { place: i }),
        }
    }
    Ok(())
}
