//! The seats of the cell.

ghost use Rattle.std.specs.Prelude.{◌≡◌, IfOk, IfErr};
ghost use Rattle.std.specs.Option.{ForSome};
ghost use Rattle.std.specs.Arc.{arc_value};
ghost use mathlib.Core.List.{IsPrefix};
ghost use Rattle.left_right.specs.Sides.{view};
ghost use Rattle.snapshot_cell.specs.Knowing.{knowing};

use crate::history::Front;
use crate::kept::{Kept, Sees, Tie};
use crate::knowledge::Knowledge;
use crate::refusal::TakeRefusal;
use crate::writer::Told;
use left_right::reader;
use std::sync::Arc;
use world_state::Snapshot;

/// A seat. Contracts see the list of whole blocks that it has seen or was told of (`seen_list`),
/// and which cell it is of; both are changed by its methods alone.
#[derive(Drop)]
pub struct Reader {
    pub(crate) inner: Option<reader::Reader<Kept, Knowledge, Tie>>,
    pub(crate) front: Front,
    pub ghost knows: { ForSome inner (λ r. view r.place ≡ knowing front.seen.book) },
}

impl Reader {
    ghost use Rattle.std.specs.Prelude.{◌⊎◌};
    ghost use Rattle.snapshot_cell.specs.Seats.{seen_list, told_list, cell_of_reader, cell_of_told};

    /// The newest snapshot. Its blocks begin with all that this seat has seen or was told of, and
    /// are what it has seen afterwards. A refusal leaves what it has seen as it was.
    ///
    /// Refused where the cell was not entered, as after its writer's end (432), and where one more
    /// owner of the snapshot was refused (9).
    pub fn take(&mut self) -> Result<Arc<Snapshot>, TakeRefusal>
        ensures taken { IfOk result
            (λ s. IsPrefix (seen_list self.old) (arc_value s) ×
            (seen_list self.new ≡ arc_value s)) }
        ensures refused { IfErr result (λ _. seen_list self.new ≡ seen_list self.old) }
        ensures same { cell_of_reader self.new ≡ cell_of_reader self.old }
    {
        let Some(reader) = self.inner.take() else {
            return Err(TakeRefusal::NotEntered);
        };
        match reader.enter_as::<Sees>() {
            Ok(reading) => {
                let answer = look(&mut self.front, reading.get());
                self.inner = Some(reading.leave());
                answer
            }
            Err(reader) => {
                self.inner = Some(reader);
                Err(TakeRefusal::NotEntered)
            }
        }
    }

    /// What this seat has seen or was told of, for others to learn. It takes no memory.
    pub fn told(&self) -> Told
        ensures { (cell_of_told result ≡ cell_of_reader self.now) ×
            (told_list result ≡ seen_list self.now) }
    {
        Told {
            front: self.front.again(),
        }
    }

    /// Takes in what the writer or a seat told. One of the two lists begins with the other, and the
    /// seat has then seen the longer one. It takes no memory.
    pub fn learn(&mut self, told: &Told)
        requires { cell_of_told told.now ≡ cell_of_reader self.old }
        ensures longer { (IsPrefix (seen_list self.old) (told_list told.now) ×
            (seen_list self.new ≡ told_list told.now)) ⊎
            (IsPrefix (told_list told.now) (seen_list self.old) ×
            (seen_list self.new ≡ seen_list self.old)) }
        ensures same { cell_of_reader self.new ≡ cell_of_reader self.old }
    {
        if self.front.begins(&told.front) {
            self.front = told.front.again();
        }
    }
}

/// The snapshot that lies in the copy, if it is no older than what is known.
fn look(front: &mut Front, kept: &Kept) -> Result<Arc<Snapshot>, TakeRefusal>
    requires { kept.now.front.seen.book ≡ front.old.seen.book }
    ensures taken { IfOk result
        (λ s. IsPrefix front.old.seen.log (arc_value s) × (front.new.seen.log ≡ arc_value s)) }
    ensures refused { IfErr result (λ _. front.new.seen.log ≡ front.old.seen.log) }
    ensures same { front.new.seen.book ≡ front.old.seen.book }
{
    if !kept.whole || !front.begins(&kept.front) {
        return Err(TakeRefusal::NotEntered);
    }
    let snapshot = Arc::try_clone(&kept.snapshot)?;
    *front = kept.front.again();
    Ok(snapshot)
}
