// A lifting stage as the code has it.
ghost use Rattle.std.specs.Prelude.{◌≡◌, ◌≤◌, length, IsTrue};
ghost use Rattle.wavelet.specs.Code.Count.{is_count};

// A stage: to is 0 where it goes to the even places and 1 where it goes to the odd ones; the standard's D is ahead less
// back; the first count of the taps are its own.
#[derive(Clone, Copy)]
pub(crate) struct LiftStage {
    pub to: usize,
    pub adds: bool,
    pub shift: u32,
    pub ahead: usize,
    pub back: usize,
    pub count: usize,
    pub taps: [i64; 8],
    ghost side: { to ≤ 1 },
    ghost shift_le: { shift ≤ 12 },
    ghost ahead_le: { ahead ≤ 1 },
    ghost back_le: { back ≤ 3 },
    ghost counts: { IsTrue (is_count count) },
    ghost long: { length taps ≡ 8 },
}
