//! A place in a JSON text that moves on.

ghost use Rattle.std.specs.Prelude.{◌≡◌, ◌≤◌, ◌<◌, ◌+◌, ◌^◌, suc, length, IfSome, slice_get};
ghost use Rattle.json_places.specs.Values.{AreBlank, StandsBehind, is_blank as is_blank_byte};

/// A place in a JSON text. Past the end there is nothing to be seen.
#[derive(Clone, Copy)]
pub(crate) struct Cursor<'a> {
    pub(crate) text: &'a [u8],
    pub(crate) place: usize,
}

/// Whether a byte stands between the parts of a text.
fn is_blank(byte: u8) -> bool
    ensures { result ≡ is_blank_byte byte }
{
    byte == b' ' || byte == b'\t' || byte == b'\n' || byte == b'\r'
}

/// Whether a byte ends a number or a word.
fn ends_word(byte: u8) -> bool {
    is_blank(byte) || byte == b',' || byte == b']' || byte == b'}' || byte == b':'
}

impl<'a> Cursor<'a> {
    /// The byte at the place.
    fn byte(self) -> Option<u8>
        ensures { result ≡ slice_get self.entry.text.now self.entry.place }
    {
        self.text.get(self.place).copied()
    }

    /// One byte further.
    fn next(self) -> Cursor<'a>
        ensures text { result.text.now ≡ self.entry.text.now }
        ensures place { self.entry.place + 1 < 2 ^ 64 → result.place ≡ self.entry.place + 1 }
    {
        Cursor {
            text: self.text,
            place: self.place.saturating_add(1),
        }
    }

    /// Past blanks.
    pub(crate) fn skip_blanks(self) -> Cursor<'a>
        ensures text { result.text.now ≡ self.entry.text.now }
        ensures onward { self.entry.place ≤ result.place }
        ensures blank { AreBlank self.entry.text.now self.entry.place result.place }
    {
        let mut at = self;
        for _turn in 0..self.text.len() {
            match at.byte() {
                Some(byte) if is_blank(byte) => at = at.next(),
                _ => return at,
            }
        }
        at
    }

    /// Past this byte and the blanks before it, if it is the next.
    pub(crate) fn skip_byte(self, wanted: u8) -> Option<Cursor<'a>>
        ensures text { IfSome result (λ behind. behind.text.now ≡ self.entry.text.now) }
        ensures byte { IfSome result (λ behind. StandsBehind self.entry.text.now wanted behind.place) }
    {
        let at = self.skip_blanks();
        if at.byte() == Some(wanted) {
            Some(at.next())
        } else {
            None
        }
    }

    /// Past the string whose first quotation mark was passed.
    fn skip_string(self) -> Cursor<'a>
        ensures { result.text.now ≡ self.entry.text.now }
    {
        let mut at = self;
        for _turn in 0..self.text.len() {
            match at.byte() {
                Some(b'\\') => at = at.next().next(),
                Some(b'"') => return at.next(),
                Some(_) => at = at.next(),
                None => return at,
            }
        }
        at
    }

    /// Past a number or a word.
    fn skip_word(self) -> Cursor<'a>
        ensures { result.text.now ≡ self.entry.text.now }
    {
        let mut at = self;
        for _turn in 0..self.text.len() {
            match at.byte() {
                Some(byte) if !ends_word(byte) => at = at.next(),
                _ => return at,
            }
        }
        at
    }

    /// Past a part that has no brackets: a string, a number, a word, or else one byte.
    fn skip_part(self) -> Cursor<'a>
        ensures { result.text.now ≡ self.entry.text.now }
    {
        match self.byte() {
            Some(b'"') => self.next().skip_string(),
            Some(byte) if ends_word(byte) || byte == b'{' || byte == b'[' => self.next(),
            _ => self.skip_word(),
        }
    }

    /// Past a value and the blanks before it.
    pub(crate) fn skip_value(self) -> Cursor<'a>
        ensures { result.text.now ≡ self.entry.text.now }
    {
        let mut at = self.skip_blanks();
        let mut open: usize = 0;
        for _turn in 0..self.text.len() {
            open = match at.byte() {
                Some(b'{' | b'[') => open.saturating_add(1),
                Some(b'}' | b']') => open.saturating_sub(1),
                Some(_) => open,
                None => return at,
            };
            at = at.skip_part();
            if open == 0 {
                return at;
            }
        }
        at
    }

    /// The bytes of the string that begins here, and the place after it.
    pub(crate) fn string(self) -> Option<(&'a [u8], Cursor<'a>)>
        ensures { IfSome result (λ found. found.1.text.now ≡ self.entry.text.now) }
    {
        let first = self.skip_byte(b'"')?;
        let after = first.skip_string();
        let bytes = first.text.get(first.place..after.place.saturating_sub(1))?;
        Some((bytes, after))
    }
}
