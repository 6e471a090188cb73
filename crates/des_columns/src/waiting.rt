//! Values whose blocks go through the cipher together: which of their answers wait in a buffer.

/// How many of the next values have their answers in the buffer, and where these begin.
#[derive(Clone, Copy)]
pub(crate) struct Waiting {
    pub count: usize,
    pub first: usize,
}
