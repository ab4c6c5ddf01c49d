//! A source read to its end, and a text written whole.
ghost use Rattle.std.specs.Prelude.{◌≡◌, ◌<◌, ◌≤◌, ◌++◌, ◌↔◌, ◌⊎◌, [], length, take, IfOk, IfErr, IfSome, OnOk, OnErr, IsErrOf};
ghost use Rattle.std.specs.Io.KnownBytes.{Appends, IsAtEnd};
ghost use Rattle.abc_io.specs.Devices.{Rose};
ghost use Rattle.abc_io.specs.Whole.{HasRead};

use crate::devices::{Failed, Sink, Source};
use abc_value::{List, NoMemory};
use std::alloc::Global;

/// The bytes that are read from a source at once.
const READ_PIECE: usize = 4096;

/// Why a source was not read to its end.
#[derive(Clone, Copy, Debug, PartialEq, Eq)]
pub enum ReadRefusal {
    /// The source failed.
    Fault,
    /// There are more bytes than the limit.
    TooLong,
    /// Memory ran out.
    NoMemory,
}

/// The sink failed after it had taken `written` bytes of the text, which are fewer than all.
#[derive(Clone, Copy, Debug, PartialEq, Eq)]
pub struct WriteFault {
    /// How many bytes were taken, a number below the text's length.
    pub written: usize,
}

/// All bytes up to the end of the source, at most `max`. `Fault` comes where a read failed, and none
/// follows; `TooLong` where a byte past `max` was read, `NoMemory` at the growth of the list. After
/// a refusal the source stands where the last read left it.
pub fn read_all<S: Source>(
    alloc: Global,
    source: &mut S,
    max: usize,
) -> Result<List<u8>, ReadRefusal>
    // For every source.
    ensures never_falls { S.fault_count source.old ≤ S.fault_count source.new }
    ensures fault { IsErrOf result ReadRefusal.Fault → Rose (S.fault_count source.old) (S.fault_count source.new) }
    ensures sound { IsErrOf result ReadRefusal.Fault ⊎ (S.fault_count source.new ≡ S.fault_count source.old) }
    ensures within { IfOk result (λ bytes. length bytes ≤ max) }

    // Where the source tells its bytes.
    ensures whole { IfOk result (λ bytes. IfSome (S.left source.old) (λ all. bytes ≡ all)) }
    ensures at_end { OnOk result (IsAtEnd (S.left source.new)) }
    ensures too_long { HasRead (S.left source.old) (S.left source.new) (λ read. IsErrOf result ReadRefusal.TooLong ↔ (max < length read)) }
{
    let mut bytes = List::new(alloc);
    let mut piece = [0u8; READ_PIECE];
    loop {
        let n = match source.read(&mut piece) {
            Ok(n) => n,
            Err(Failed) => return Err(ReadRefusal::Fault),
        };
        if n == 0 {
            return Ok(bytes);
        }
        if n > max - bytes.len() {
            return Err(ReadRefusal::TooLong);
        }
        if let Err(NoMemory) = append(&mut bytes, &piece[..n]) {
            return Err(ReadRefusal::NoMemory);
        }
    }
}

/// Appends all of `more`.
fn append(bytes: &mut List<u8>, more: &[u8]) -> Result<(), NoMemory>
    ensures { OnOk result (bytes.new ≡ bytes.old ++ more.now) }
{
    for byte in more {
        bytes.push(*byte)?;
    }
    Ok(())
}

/// Writes all of `bytes`, or says how many the sink took before it failed; no write follows. A text
/// of no bytes is not written. It takes no memory.
pub fn write_whole<K: Sink>(sink: &mut K, bytes: &[u8]) -> Result<(), WriteFault>
    // For every sink.
    ensures never_falls { K.fault_count sink.old ≤ K.fault_count sink.new }
    ensures fault { OnErr result (Rose (K.fault_count sink.old) (K.fault_count sink.new)) }
    ensures sound { OnOk result (K.fault_count sink.new ≡ K.fault_count sink.old) }
    ensures proper { IfErr result (λ fault. fault.written < length bytes.now) }
    ensures unwritten { bytes.now ≡ [] → sink.new ≡ sink.old }

    // Where the sink tells its bytes.
    ensures whole { OnOk result (Appends (K.told sink.old) (K.told sink.new) bytes.now) }
    ensures front { IfErr result (λ fault. Appends (K.told sink.old) (K.told sink.new) (take fault.written bytes.now)) }
{
    let mut written = 0;
    while written < bytes.len() {
        match sink.write(&bytes[written..]) {
            Ok(n) => written += n,
            Err(Failed) => return Err(WriteFault { written }),
        }
    }
    Ok(())
}
