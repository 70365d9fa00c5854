// Writing texts one behind the other over the front of a lent buffer.
ghost use Rattle.std.specs.Prelude.{◌≡◌, ℕ, ◌+◌, ◌≤◌, List, ◌∷◌, ◌++◌, length};
ghost use Rattle.f5d.specs.Buffers.{over};

use vocabulary::ParticipantCode;

// A lent buffer, and the place where the next text goes.
#[derive(Drop)]
pub(crate) struct Pen<'a> {
    into: &'a mut [u8],
    at: usize,
}

impl<'a> Pen<'a> {
    // A pen at the front of the buffer.
    pub(crate) fn new(into: &'a mut [u8]) -> Pen<'a>
        ensures buffer { result.into.ghost_name ≡ into.entry.ghost_name }
        ensures same { result.into.now ≡ into.old }
        ensures value { result.at ≡ 0 }
    {
        Pen { into, at: 0 }
    }

    // How many bytes are written.
    pub(crate) fn written(&self) -> usize
        ensures { result ≡ self.now.at }
    {
        self.at
    }

    // Puts a text behind what is written.
    pub(crate) fn put(&mut self, text: &[u8])
        requires { self.old.at + length text.now ≤ length self.old.into.now }
        ensures buffer { self.new.into.ghost_name ≡ self.old.into.ghost_name }
        ensures value { self.new.at ≡ self.old.at + length text.now }
        ensures bytes { (done was : List ℕ) → length done ≡ self.old.at → self.old.into.now ≡ over done was → (length (done ++ text.now) ≡ self.new.at) × (self.new.into.now ≡ over (done ++ text.now) was) }
        ensures len { length self.new.into.now ≡ length self.old.into.now }
    {
        let end = self.at + text.len();
        self.into[self.at..end].copy_from_slice(text);
        self.at = end;
    }

    // Puts a code, and `_` before it, behind what is written.
    pub(crate) fn put_code(&mut self, code: &ParticipantCode)
        requires { self.old.at + 5 ≤ length self.old.into.now }
        ensures buffer { self.new.into.ghost_name ≡ self.old.into.ghost_name }
        ensures value { self.new.at ≡ self.old.at + 5 }
        ensures bytes { (done was : List ℕ) → length done ≡ self.old.at → self.old.into.now ≡ over done was → (length (done ++ 95 ∷ code.now.bytes) ≡ self.new.at) × (self.new.into.now ≡ over (done ++ 95 ∷ code.now.bytes) was) }
        ensures len { length self.new.into.now ≡ length self.old.into.now }
    {
        self.put(b"_");
        self.put(code.as_bytes());
    }
}
