// A run within a row.
ghost use Rattle.std.specs.Prelude.{◌≡◌, ◌≤◌, ◌^◌};

// So many samples of a row, from one on: at most all of a grid with the numbers 0 to u32::MAX.
#[derive(Clone, Copy)]
pub struct Run {
    pub from: u32,
    pub count: u64,
    pub ghost few: { count ≤ 2 ^ 32 },
}

impl Run {
    ghost use Rattle.step_scan.specs.State.{last_of};

    // The last sample but one.
    pub fn last_pair(self) -> usize
        ensures { result ≡ last_of self }
    {
        if self.count < 2 {
            return self.from as usize;
        }
        self.from as usize + (self.count - 2) as usize
    }
}
