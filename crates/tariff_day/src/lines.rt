// Lines of bytes.
ghost use Rattle.std.specs.Prelude.{◌≡◌, ℕ, ◌<◌, ◌≤◌, ◌⊎◌, [], ◌∷◌, ◌++◌, length, MatchOption, ◌≢◌, slice_index};
ghost use Rattle.std.specs.Iterator.{at_most};

// Hands out the lines of lent bytes, each without its line break; the last may have none.
#[derive(Drop)]
pub struct Lines<'a> {
    rest: &'a [u8],
}

impl<'a> Lines<'a> {
    pub fn new(bytes: &'a [u8]) -> Lines<'a>
        ensures { result.rest.now ≡ bytes.now }
    {
        Lines { rest: bytes }
    }
}

// Where the first line ends: at its line break, or at the end of all.
fn line_end(bytes: &[u8]) -> usize
    ensures high_bound { result ≤ length bytes.now }
    ensures before { (k : ℕ) → k < result → slice_index bytes.now k ≢ 10 }
    ensures found { result < length bytes.now → slice_index bytes.now result ≡ 10 }
{
    bytes
        .iter()
        .position(|byte| *byte == b'\n')
        .unwrap_or(bytes.len())
}

impl<'a> Iterator for Lines<'a> {
    type Item = &'a [u8];

    ghost next_gives = { λ s r t. MatchOption r ((s.rest.now ≡ []) × (t.rest.now ≡ [])) (λ line. ((k : ℕ) → k < length line.now → slice_index line.now k ≢ 10) × ((s.rest.now ≡ line.now ++ 10 ∷ t.rest.now) ⊎ ((s.rest.now ≡ line.now) × (t.rest.now ≡ [])))) };

    ghost remaining = { λ s. at_most (length s.rest.now) };

    fn next(&mut self) -> Option<&'a [u8]> {
        if self.rest.is_empty() {
            return None;
        }
        let (line, behind) = self.rest.split_at(line_end(self.rest));
        self.rest = match behind {
            [_, others @ ..] => others,
            [] => behind,
        };
        Some(line)
    }
}
