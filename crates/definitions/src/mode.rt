/// How a walk goes: as the Rust's, or strictly, with the strict patterns alone and without marks.
#[derive(Clone, Copy)]
pub enum Mode {
    Standard,
    Strict,
}
