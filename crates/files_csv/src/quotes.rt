//! The quotes of a row of CSV, which are to stand as in RFC 4180.
ghost use Rattle.std.specs.Prelude.{◌≡◌, ◌≢◌, ◌<◌, ◌∷◌, ◌++◌, [], ℕ, List, MatchOption, MatchResult, take};
ghost use Rattle.files_csv.specs.Parts.{Begins, CantStand, Goes, Stands, StandsNext};
ghost use Rattle.files_csv.specs.Refused.{CantFollow};
ghost use Rattle.files_csv.specs.Rows.{mark};
ghost use Rattle.files_csv.specs.declared.quotes.Part.TheVariants.{Mark, Quoted};

/// The mark of UTF-8, with which a text may begin.
pub const MARK: &[u8] = b"\xef\xbb\xbf";

/// What a byte of a row stands in.
#[derive(Clone, Copy)]
pub enum Part {
    // At the start of a text, after so many bytes of the mark.
    Mark(usize),
    Start,
    Plain,
    Quoted,
    // After a quote in a quoted cell, which ends it or is doubled.
    Quote,
    // After a carriage return, which ends the row with a line feed.
    Return,
    // After the row.
    End,
}

impl Part {
    /// Returns what the next byte stands in, or what was expected in its place.
    #[inline(always)]
    pub fn after(self, byte: u8) -> Result<Part, &'static str>
        ensures { (seen : List ℕ) (start : ℕ) → Stands self seen start → MatchResult result
            (λ next. StandsNext next (seen ++ byte ∷ []) start)
            (λ expected. CantStand seen byte expected.now) }
    {
        let Part::Mark(count) = self else {
            return self.in_row(byte);
        };
        match Part::after_mark(count, byte) {
            Some(next) => Ok(next),
            None if count == 0 => Part::Start.in_row(byte),
            None => Part::Plain.in_row(byte),
        }
    }

    /// Returns what the next byte stands in after some bytes of the mark, if it is one too.
    #[inline(always)]
    fn after_mark(count: usize, byte: u8) -> Option<Part>
        ensures { (seen : List ℕ) → Stands (Mark count) seen 0 → MatchOption result
            ((more rest : List ℕ) → (seen ++ byte ∷ []) ++ more ≢ mark ++ rest)
            (λ next. StandsNext next (seen ++ byte ∷ []) 0) }
    {
        match (count, byte) {
            (0, 0xef) => Some(Part::Mark(1)),
            (1, 0xbb) => Some(Part::Mark(2)),
            (2, 0xbf) => Some(Part::Start),
            _ => None,
        }
    }

    /// Returns what the next byte stands in, in quotes.
    #[inline(always)]
    fn in_quotes(byte: u8) -> Part
        ensures { (cell : List ℕ) → Begins Quoted cell → Goes cell byte result }
    {
        if byte == b'"' {
            Part::Quote
        } else {
            Part::Quoted
        }
    }

    /// Returns what the next byte stands in, or what was expected in its place, after the mark.
    #[inline(always)]
    fn in_row(self, byte: u8) -> Result<Part, &'static str>
        ensures { (cell : List ℕ) → Begins self cell → MatchResult result (Goes cell byte)
            (λ expected. CantFollow cell byte expected.now) }
    {
        match (self, byte) {
            (Part::Quoted, _) => Ok(Part::in_quotes(byte)),
            (Part::Quote, b'"') => Ok(Part::Quoted),
            (Part::Return, b'\n') => Ok(Part::End),
            (Part::Return, _) => Err("a line feed after a carriage return"),
            (_, b'\n') => Ok(Part::End),
            (_, b'\r') => Ok(Part::Return),
            (_, b',') => Ok(Part::Start),
            (Part::Start, b'"') => Ok(Part::Quoted),
            (Part::Quote, _) => Err("a comma or the end of the line after a closing `\"`"),
            (_, b'"') => Err("no `\"` in a cell without quotes"),
            _ => Ok(Part::Plain),
        }
    }
}

/// Returns the place where a cell begins, counted from 0, in a row that begins in `part`.
pub fn cell_start(row: &[u8], mut part: Part, cell: usize) -> usize {
    let mut found: usize = 0;
    for at in 0..row.len() {
        if found >= cell {
            return at;
        }
        part = match part.after(row[at]) {
            Ok(next) => next,
            Err(_) => return at,
        };
        if row[at] == b',' && matches!(part, Part::Start) {
            found = found.saturating_add(1);
        }
    }
    row.len()
}
