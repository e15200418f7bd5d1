//! Where bytes go.
ghost use Rattle.std.specs.Prelude.{◌≡◌, ◌≢◌, ◌≤◌, ℕ, List, [], ◌++◌, take, Some, IsOk, IfOk, OnOk, OnErr};
ghost use Rattle.shelf_io.specs.Rising.{Rose};
ghost use Rattle.shelf_io.specs.Sink.{Appends, FrontOf, SinkTold, TakesPart, appended};

/// A put took nothing of its piece.
#[derive(Clone, Copy, Debug, PartialEq, Eq, Drop)]
pub struct PutFailed;

/// A device that takes bytes, piece by piece.
pub trait Sink {
    /// What was written so far, where it tells that, and its count of failures.
    ghost told: { Self → SinkTold };

    /// Takes a front of the piece, and says how many bytes that was.
    fn put(&mut self, bytes: &[u8]) -> Result<usize, PutFailed>
        ensures part { IfOk result (λ taken. TakesPart taken bytes.now) }
        ensures appended { IfOk result (λ taken. (told self.new).written ≡ appended (told self.old).written (take taken bytes.now)) }

        // A failure is counted and appends nothing. An empty piece never fails.
        ensures failed { OnErr result (Rose (told self.old).faults (told self.new).faults) }
        ensures unchanged { OnErr result ((told self.new).written ≡ (told self.old).written) }
        ensures empty { bytes.now ≡ [] → IsOk result }
        ensures faults { (told self.old).faults ≤ (told self.new).faults };
}

/// Puts until the whole piece is taken. It takes no memory.
pub fn write_out<O: Sink>(out: &mut O, bytes: &[u8]) -> Result<(), PutFailed>
    ensures ok { OnOk result ((O.told out.new).written ≡ appended (O.told out.old).written bytes.now) }

    // After a failure a front of the piece was appended, and not all of it.
    ensures front { OnErr result (Appends (FrontOf (λ text. text ≡ bytes.now)) (O.told out.old).written (O.told out.new).written) }
    ensures not_all { OnErr result ((all : List ℕ) → (O.told out.old).written ≡ Some all
        → (O.told out.new).written ≢ Some (all ++ bytes.now)) }
    ensures failed { OnErr result (Rose (O.told out.old).faults (O.told out.new).faults) }
    ensures faults { (O.told out.old).faults ≤ (O.told out.new).faults }
{
    let mut done = 0;
    while done < bytes.len() {
        done += out.put(&bytes[done..])?;
    }
    Ok(())
}
