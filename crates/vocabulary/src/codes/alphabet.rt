// The bytes that codes, and the numbers beside them in names and lines, are made of.
ghost use Rattle.std.specs.Prelude.{◌≡◌};
ghost use Rattle.std.specs.List.{list_all};
ghost use Rattle.vocabulary.specs.Alphabets.{has};

#[derive(Clone, Copy, Debug)]
pub enum Alphabet {
    Digits,
    // digits and capital letters
    Code,
    // visible ASCII without `;`
    Visible,
}

impl Alphabet {
    pub fn has(self, b: u8) -> bool
        ensures { result ≡ has self b }
    {
        match self {
            Alphabet::Digits => b.is_ascii_digit(),
            Alphabet::Code => matches!(b, b'0'..=b'9' | b'A'..=b'Z'),
            Alphabet::Visible => matches!(b, b'!'..=b'~') && b != b';',
        }
    }

    pub fn has_all(self, text: &[u8]) -> bool
        ensures { result ≡ list_all (has self) text.now }
    {
        text.iter().all(|b| self.has(*b))
    }
}
