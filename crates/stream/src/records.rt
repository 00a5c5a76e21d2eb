// A record, as much of it as arrived. It has a file of its own, since a struct with a ghost field imports all that its file
// cites at the top, and lib.rt cites definitions that speak of this struct.

ghost use Rattle.std.specs.Prelude.{◌≤◌, ◌≡◌};

// A record's kind, which is the byte that arrived and may be no kind at all, and what arrived of its body: the first `count`
// bytes. Not an ArrayVec, which cannot be copied.
#[derive(Clone, Copy)]
pub struct Record {
    pub kind: u8,
    pub body: [u8; 7],
    pub count: usize,
    pub ghost few: { count ≤ 7 },
}

impl Record {
    ghost use Rattle.stream.specs.Arrival.{body_of};

    // What arrived of its body.
    pub fn arrived(&self) -> &[u8]
        ensures { result.now ≡ body_of self.now }
    {
        &self.body[..self.count]
    }
}
