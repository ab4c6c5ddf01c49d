//! The two traits. A device counts its faults, so that a caller can show that a fault was there.
ghost use Rattle.std.specs.Prelude.{◌≡◌, ◌<◌, ◌≤◌, ℕ, List, Option, length, take, IfOk, OnOk, OnErr};
ghost use Rattle.std.specs.Io.KnownBytes.{Appends, Consumes, IsAtEnd, Keeps};
ghost use Rattle.abc_io.specs.Devices.{Rose, counted_on};

/// A device failed. Its count of faults rose in that call.
#[derive(Clone, Copy, Debug, PartialEq, Eq)]
pub struct Failed;

/// A device that bytes are read from.
pub trait Source {
    /// How many faults there were. It never falls, and stands still at the greatest `u64`.
    ghost fault_count: { Self → ℕ };

    /// The bytes left, first one first, where the device tells them.
    ghost left: { Self → Option (List ℕ) };

    /// The count of faults, which begins at 0.
    fn faults(&self) -> u64
        ensures { result ≡ fault_count self.now };

    /// Moves the first bytes left into the front of `into`, and answers their number. At a
    /// non-empty `into`, 0 means the end. After `Failed` the bytes left are as before. The count of
    /// faults rises with `Failed` alone.
    fn read(&mut self, into: &mut [u8]) -> Result<usize, Failed>
        ensures never_falls { fault_count self.old ≤ fault_count self.new }
        ensures within { IfOk result (λ n. n ≤ length into.new) }
        ensures moved { IfOk result (λ n. Consumes (left self.old) (left self.new) (take n into.new)) }
        ensures ended { IfOk result (λ n. n ≡ 0 → 0 < length into.new → IsAtEnd (left self.new)) }
        ensures sound { OnOk result (fault_count self.new ≡ fault_count self.old) }
        ensures failed { OnErr result (Rose (fault_count self.old) (fault_count self.new)) }
        ensures stays { OnErr result (Keeps (left self.old) (left self.new)) };
}

/// A device that bytes are written to.
pub trait Sink {
    /// How many faults there were. It never falls, and stands still at the greatest `u64`.
    ghost fault_count: { Self → ℕ };

    /// The bytes written, first one first, where the device tells them.
    ghost told: { Self → Option (List ℕ) };

    /// The count of faults, which begins at 0.
    fn faults(&self) -> u64
        ensures { result ≡ fault_count self.now };

    /// Appends a non-empty front of a non-empty piece, and answers its length. After `Failed`
    /// nothing was appended. A device that takes nothing of a non-empty piece has failed. The count
    /// of faults rises with `Failed` alone.
    fn write(&mut self, bytes: &[u8]) -> Result<usize, Failed>
        ensures never_falls { fault_count self.old ≤ fault_count self.new }
        ensures within { IfOk result (λ n. n ≤ length bytes.now) }
        ensures takes_some { IfOk result (λ n. 0 < length bytes.now → 0 < n) }
        ensures appended { IfOk result (λ n. Appends (told self.old) (told self.new) (take n bytes.now)) }
        ensures sound { OnOk result (fault_count self.new ≡ fault_count self.old) }
        ensures failed { OnErr result (Rose (fault_count self.old) (fault_count self.new)) }
        ensures stays { OnErr result (Keeps (told self.old) (told self.new)) };
}

/// One more, but for the greatest `u64`, which stands still.
pub(crate) fn count_on(count: u64) -> u64
    ensures counted { result ≡ counted_on count }
    ensures never_falls { count ≤ result }
{
    count.saturating_add(1)
}
