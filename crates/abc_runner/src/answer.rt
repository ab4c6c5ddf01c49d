use crate::status::Status;
use abc_moves::Label;
use abc_record_text::Record;
use abc_value::List;

/// What the words and the source give, before a byte is written.
#[derive(Drop)]
pub enum Answer {
    /// What the command prints.
    Text(List<u8>),
    /// What the command prints of a record, and this record.
    Trace(List<u8>, Record<Label>),
    /// A refusal, whose line is due.
    Refusal(Status),
    /// A refusal whose line has numbers, and this line.
    Line(Status, List<u8>),
}
