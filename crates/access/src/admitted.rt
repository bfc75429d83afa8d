// An access that is admitted.
ghost use Rattle.std.specs.Prelude.{◌≡◌, ◌+◌, ◌%◌, ◌<◌};

// The dword at `offset`, one of the 64, and which of its bytes are enabled.
#[derive(Clone, Copy, Debug, PartialEq, Eq)]
pub struct Admitted {
    pub offset: usize,
    pub lanes: u32,
    pub ghost within: { offset + 3 < 256 },
    pub ghost aligned: { offset % 4 ≡ 0 },
    pub ghost laned: { lanes < 16 },
}
