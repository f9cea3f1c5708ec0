//! Bytes that were taken.
ghost use Rattle.std.specs.Prelude.{◌≤◌, vec_len};

/// Bytes that were taken and are not read yet. Nothing is taken after the end was met.
#[derive(Drop)]
pub struct HeldInput {
    pub buffer: Vec<u8>,
    pub at: usize,
    pub end: usize,
    /// Whether a call gave no byte.
    pub over: bool,
    pub ghost has_room: { 1 ≤ vec_len buffer },
    pub ghost is_piece: { vec_len buffer ≤ 4096 },
    pub ghost within: { end ≤ vec_len buffer },
}
