//! Files by name that are read one after another.
ghost use Rattle.std.specs.Prelude.{◌≡◌, ◌+◌, ◌<◌, ◌≤◌, ◌||◌, false, None, Some, length, is_err, IfOk, IsOk, IsErr, OnOk};
ghost use Rattle.std.specs.Io.KnownBytes.{ReadConsumes};
ghost use Rattle.wl_files.specs.Causes.{CountsFaults};
ghost use Rattle.wl_files.specs.Files.{FilesState, BeginsAt, IsKnown, HasNoFile, count_of};

/// A call to the world outside failed.
#[derive(Clone, Copy, PartialEq, Eq)]
pub struct Failed;

/// Files by name, one of them open at a time.
///
/// A caller begins a file by its name, and reads on in it until a read gives nothing.
pub trait Files<'n> {
    /// How the files stand.
    ghost state: { Self → FilesState };

    /// Where it is known: no call is to fail.
    ghost is_calm: { Self → Type 0 } = { λ _. ⊥ };

    /// Goes to the front of the file of this name, and closes the one before it.
    ///
    /// It fails where there is no such file, or where the world outside does.
    fn begin(&mut self, name: &'n str) -> Result<(), Failed>
        ensures begun { (state self.new).begun ≡ Some name.now }
        ensures closed { (state self.new).closed ≡ is_err result }
        ensures failed { (state self.new).failed ≡ is_err result }
        ensures given { (state self.new).given ≡ 0 }

        // What the names hold stays, and an open file begins at its first byte.
        ensures names { (state self.new).names ≡ (state self.old).names }
        ensures rest { OnOk result
            (BeginsAt (state self.old).names name.now (state self.new).rest) }

        // A call that fails counts as a fault, and no other does.
        ensures cause { CountsFaults (state self.old).faults (state self.new).faults result }
        ensures clean { OnOk result ((state self.new).faults ≡ (state self.old).faults) }

        ensures stays_calm { is_calm self.old → is_calm self.new }
        ensures calm { is_calm self.old → IsKnown (state self.old).names name.now → IsOk result };

    /// Reads on in the current file, and says how many bytes it gave.
    ///
    /// No bytes into a buffer with room are the file's end. Before any begin there is nothing to
    /// read, and after a begin that failed a read that could give bytes fails.
    fn read(&mut self, buf: &mut [u8]) -> Result<usize, Failed>
        ensures begun { (state self.new).begun ≡ (state self.old).begun }
        ensures closed { (state self.new).closed ≡ (state self.old).closed }
        ensures failed { (state self.new).failed ≡ ((state self.old).failed || is_err result) }
        ensures given { (state self.new).given ≡ (state self.old).given + count_of result }

        // The bytes are the next ones of the file.
        ensures names { (state self.new).names ≡ (state self.old).names }
        ensures rest { ReadConsumes (state self.old).rest (state self.new).rest result buf.new }
        ensures bound { IfOk result (λ n. n ≤ length buf.old) }

        ensures nothing_begun { (state self.old).begun ≡ None
            → ((state self.old).closed ≡ false) × IfOk result (λ n. n ≡ 0) }
        ensures nothing_open { HasNoFile (state self.old) buf.old → IsErr result }

        ensures cause { CountsFaults (state self.old).faults (state self.new).faults result }
        ensures clean { OnOk result ((state self.new).faults ≡ (state self.old).faults) }
        ensures stays_calm { is_calm self.old → is_calm self.new }
        ensures calm { is_calm self.old → ¬ HasNoFile (state self.old) buf.old → IsOk result };
}
