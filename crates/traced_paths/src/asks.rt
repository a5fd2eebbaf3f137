//! What is asked for.

/// What one chain asks for: the plain names of its two ports, as far as it names some, and the line of its statement.
#[derive(Clone, Copy)]
pub struct Ask<'a> {
    pub input: Option<&'a [u8]>,
    pub output: Option<&'a [u8]>,
    pub line: u64,
}
