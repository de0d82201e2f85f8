// Why a file is not written.

// There is more of something than a file may hold, or the buffer is shorter than the file.
#[derive(Clone, Copy, PartialEq, Eq, Debug)]
pub enum WriteFault {
    OverLimit,
    ShortBuffer,
}
