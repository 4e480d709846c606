//! What takes the bytes of a text part by part: a writer, which puts them behind others, and a counter.
ghost use Rattle.std.specs.Prelude.{◌++◌, List, ℕ, []};

/// What takes the bytes of a text, part by part.
pub trait Output {
    /// What the output may be after it took these bytes.
    ghost took: { Self → List ℕ → Self → Type 0 };

    /// Takes bytes. An output that cannot take them all keeps that in mind, and takes no more.
    fn put(&mut self, bytes: &[u8])
        ensures { took self.old bytes.now self.new };

    /// Takes nothing more, since what was to come could not be made.
    fn refuse(&mut self)
        ensures { (text : List ℕ) → took self.old text self.new };

    /// To take no bytes changes nothing.
    ghost nothing: { (s : Self) → took s [] s };

    /// The bytes of a text may come in parts.
    ghost parts: { (s t u : Self) (a b : List ℕ) → took s a t → took t b u → took s (a ++ b) u };
}

/// Puts bytes behind others, until memory is refused.
#[derive(Drop)]
pub struct Writer {
    pub bytes: Vec<u8>,
    pub refused: bool,
}

impl Output for Writer {
    ghost use Rattle.cert_writing.specs.Written.{IsWritten};
    ghost use Rattle.cert_writing.specs.WrittenLaws.{written_nothing, written_parts};

    ghost took = { λ s text t. IsWritten s.bytes.items s.refused text t.bytes.items t.refused };

    ghost nothing = { λ s. written_nothing s.bytes.items s.refused };

    ghost parts = { λ s t u a b. written_parts s.bytes.items s.refused t.bytes.items t.refused u.bytes.items u.refused a b };

    fn put(&mut self, bytes: &[u8]) {
        if !self.refused {
            self.refused = self.bytes.extend_from_slice(bytes).is_err();
        }
    }

    fn refuse(&mut self) {
        self.refused = true;
    }
}

/// Counts bytes, and stops at the greatest number; the count says nothing where memory was refused.
#[derive(Drop)]
pub struct Counter {
    pub count: u64,
    pub refused: bool,
}

impl Output for Counter {
    ghost use Rattle.cert_writing.specs.Written.{IsCounted};
    ghost use Rattle.cert_writing.specs.WrittenLaws.{counted_nothing, counted_parts};

    ghost took = { λ s text t. IsCounted s.count s.refused text t.count t.refused };

    ghost nothing = { λ s. counted_nothing s.count s.refused };

    ghost parts = { λ s t u a b. counted_parts s.count s.refused t.count t.refused u.count u.refused a b };

    fn put(&mut self, bytes: &[u8]) {
        self.count = self.count.saturating_add(bytes.len() as u64);
    }

    fn refuse(&mut self) {
        self.refused = true;
    }
}
