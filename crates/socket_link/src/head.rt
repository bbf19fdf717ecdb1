// Whether an empty line has come on a connection.

/// How far the bytes of a connection are from an empty line behind another line.
#[derive(Clone, Copy, Debug, PartialEq, Eq)]
pub(crate) enum Head {
    /// Nothing has come but ends of lines.
    Before,
    /// The last byte is within a line.
    Within,
    /// The last byte ended a line.
    LineEnd,
    /// The last byte is a CR behind the end of a line.
    Return,
    /// An empty line has come.
    Whole,
}

impl Head {
    pub(crate) fn is_whole(self) -> bool {
        self == Head::Whole
    }

    // The same, after these bytes more.
    pub(crate) fn after(self, bytes: &[u8]) -> Head {
        let mut head = self;
        for byte in bytes {
            head = head.after_one(*byte);
        }
        head
    }

    fn after_one(self, byte: u8) -> Head {
        match (self, byte) {
            (Head::Whole, _) | (Head::LineEnd | Head::Return, b'\n') => Head::Whole,
            (Head::Before, b'\r' | b'\n') => Head::Before,
            (Head::LineEnd, b'\r') => Head::Return,
            (Head::Within, b'\n') => Head::LineEnd,
            _ => Head::Within,
        }
    }
}
