use thiserror::Error;

/// Why a text is read as no trace.
#[derive(Clone, Copy, Debug, PartialEq, Eq, Error)]
pub enum TraceRefusal {
    /// No text of a trace goes on with the line that begins at this byte.
    #[error("no trace goes on with the line that begins at byte {place}")]
    BadLine { place: u32 },
    /// The lines begin the text of a trace and end, at this byte, before it does.
    #[error("the trace breaks off at byte {place}")]
    Missing { place: u32 },
    #[error("want of memory")]
    NoMemory,
}
