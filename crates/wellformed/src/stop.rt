//! Where bytes stop being the beginning of a text.

/// Why bytes do not begin with a text, and how many of them are left from the byte on that cannot stand there.
#[derive(Clone, Copy)]
pub enum Stop {
    /// They end before the text does.
    Ends,
    /// No item begins with the first byte of those that are left.
    Initial(usize),
    /// The first byte of those that are left makes an argument that has a shorter form.
    Argument(usize),
}
