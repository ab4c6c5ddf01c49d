/// What the drawing of a number answers.
#[derive(Clone, Copy, Debug, PartialEq, Eq)]
pub enum Grant {
    /// This number is drawn.
    Number(u32),
    /// All numbers up to the limit are drawn.
    Closed,
}
