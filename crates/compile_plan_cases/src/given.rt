// What is lent to compile, to plan and to the program, as the lines of the input tell it.

use text::Bytes;

// The kinds of lines.
#[derive(Clone, Copy)]
pub enum Kind {
    Sheet,
    Answer,
    Compile,
    Plan,
    Print,
}

impl Kind {
    // By a line's first byte; a line of no kind tells nothing.
    pub fn of(first: u8) -> Option<Kind> {
        match first {
            b's' => Some(Kind::Sheet),
            b'a' => Some(Kind::Answer),
            b' ' => Some(Kind::Compile),
            b'>' => Some(Kind::Plan),
            b'=' => Some(Kind::Print),
            _ => None,
        }
    }
}

// The sheet, the call's numbers and how many of them are told (the others are as they were told before, so they are no `Vec`), and the length of the
// answer slice, which is 20 until a line tells it.
#[derive(Clone, Copy)]
pub struct Given {
    pub sheet: Bytes<512>,
    pub call: [u32; 3],
    pub told: usize,
    pub into: usize,
}

impl Given {
    pub fn new() -> Given {
        Given {
            sheet: Bytes::new(),
            call: [0; 3],
            told: 0,
            into: 20,
        }
    }

    // A line of this kind begins.
    pub fn begin(mut self, kind: Kind) -> Given {
        match kind {
            Kind::Sheet => self.sheet = Bytes::new(),
            Kind::Answer => {}
            Kind::Compile | Kind::Plan | Kind::Print => self.told = 0,
        }
        self
    }

    // A number of the call.
    fn argument(mut self, n: u32) -> Given {
        let at = self.told;
        if at < 3 {
            self.call[at] = n;
            self.told = at + 1;
        }
        self
    }

    // A number of a line of this kind.
    pub fn put(mut self, kind: Kind, n: u32) -> Given {
        match kind {
            Kind::Sheet => self.sheet = self.sheet.word(n),
            Kind::Answer => self.into = n as usize,
            Kind::Compile | Kind::Plan | Kind::Print => return self.argument(n),
        }
        self
    }
}
