// What is lent to judge, as the lines of the input tell it.

use text::Bytes;

// The kinds of lines.
#[derive(Clone, Copy)]
pub enum Kind {
    Sheet,
    Table,
    Rows,
    Length,
    Answer,
    Case,
}

impl Kind {
    // By a line's first byte; a line of no kind tells nothing.
    pub fn of(first: u8) -> Option<Kind> {
        match first {
            b's' => Some(Kind::Sheet),
            b't' => Some(Kind::Table),
            b'r' => Some(Kind::Rows),
            b'l' => Some(Kind::Length),
            b'a' => Some(Kind::Answer),
            b' ' => Some(Kind::Case),
            _ => None,
        }
    }
}

// A row more that is False or True.
fn constant(table: Bytes<4096>, kind: u32) -> Bytes<4096> {
    table.long(kind).long(0).long(0).long(0)
}

// The sheet, the table, the call (horizon, count, root, state) and how many of its numbers are told (the others are as before, so no `Vec`), the masks, and the
// length of the answer slice, which is above 12 until a line tells it.
#[derive(Clone, Copy)]
pub struct Given {
    pub sheet: Bytes<4096>,
    pub table: Bytes<4096>,
    pub call: [u32; 4],
    pub told: usize,
    pub masks: Bytes<4096>,
    pub into: usize,
}

impl Given {
    pub fn new() -> Given {
        let none = Bytes::new();
        Given {
            sheet: none,
            table: none,
            call: [0; 4],
            told: 0,
            masks: none,
            into: 13,
        }
    }

    // A line of this kind begins.
    pub fn begin(mut self, kind: Kind) -> Given {
        match kind {
            Kind::Sheet => self.sheet = Bytes::new(),
            Kind::Table => self.table = Bytes::new(),
            Kind::Rows => self.table = constant(constant(Bytes::new(), 0), 1),
            Kind::Case => {
                self.told = 0;
                self.masks = Bytes::new();
            }
            Kind::Length | Kind::Answer => {}
        }
        self
    }

    // A number of a case: the call's, then the bytes of the masks.
    fn argument(mut self, n: u32) -> Given {
        let at = self.told;
        if at < 4 {
            self.call[at] = n;
            self.told = at + 1;
            return self;
        }
        self.masks = self.masks.byte(n);
        self
    }

    // A number of a line of this kind.
    pub fn put(mut self, kind: Kind, n: u32) -> Given {
        match kind {
            Kind::Sheet => self.sheet = self.sheet.word(n),
            Kind::Table | Kind::Rows => self.table = self.table.long(n),
            Kind::Length => self.table = self.table.cut(n as usize),
            Kind::Answer => self.into = n as usize,
            Kind::Case => return self.argument(n),
        }
        self
    }
}
