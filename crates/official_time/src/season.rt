// Winter and summer time.
ghost use Rattle.std.specs.Prelude.{◌≡◌};
ghost use Rattle.official_time.specs.Hours.{season_flag};

#[derive(Clone, Copy, PartialEq, Eq, Debug)]
pub enum Season {
    Winter,
    Summer,
}

impl Season {
    // The flag beside a label: 0 in winter, 1 in summer.
    pub fn flag(self) -> u32
        ensures { result ≡ season_flag self }
    {
        match self {
            Season::Winter => 0,
            Season::Summer => 1,
        }
    }
}
