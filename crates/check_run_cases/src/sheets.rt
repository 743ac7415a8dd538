// Sheets as bytes: rows one after the other, and the trailer.

// The sheet is bytes[from..end]. An array and no `Vec`, so that making a sheet cannot run out of memory. Not `text`'s bytes: those are lent
// from the first on and only grow, and here numbers are also replaced and the first bytes left out.
#[derive(Clone, Copy)]
pub struct Sheet {
    pub bytes: [u8; 512],
    pub from: usize,
    pub end: usize,
}

impl Sheet {
    pub fn new() -> Sheet {
        Sheet {
            bytes: [0u8; 512],
            from: 0,
            end: 0,
        }
    }

    // A byte more, where there is room.
    pub fn byte(mut self, b: u8) -> Sheet {
        let at = self.end;
        if at < 512 {
            self.bytes[at] = b;
            self.end = at + 1;
        }
        self
    }

    // A 16-bit number more, low byte first.
    pub fn word(self, n: u16) -> Sheet {
        let [low, high] = n.to_le_bytes();
        self.byte(low).byte(high)
    }

    // A need (need1, need0) or a clause (pos, neg) more.
    pub fn pair(self, one: u16, nil: u16) -> Sheet {
        self.word(one).word(nil)
    }

    // n such pairs more.
    pub fn pairs(mut self, n: usize, one: u16, nil: u16) -> Sheet {
        for _ in 0..n {
            self = self.pair(one, nil);
        }
        self
    }

    pub fn rule(self, action: u16, cond1: u16, cond0: u16, set1: u16, set0: u16) -> Sheet {
        self.word(action).pair(cond1, cond0).pair(set1, set0)
    }

    // n rules more of action 1, which set fact 0.
    pub fn rules(mut self, n: usize) -> Sheet {
        for _ in 0..n {
            self = self.rule(1, 0, 0, 1, 0);
        }
        self
    }

    // The trailer's counts F, A, R, I, G, H.
    pub fn counts(self, f: u16, a: u16, r: u16, i: u16, g: u16, h: u16) -> Sheet {
        self.pair(f, a).pair(r, i).pair(g, h)
    }

    // The trailer's last two numbers: back and the mark.
    pub fn back(self, n: u16) -> Sheet {
        self.pair(n, 0x5352)
    }

    // The sheet with another number at an offset.
    pub fn put(mut self, at: usize, n: u16) -> Sheet {
        if at < 511 {
            self.bytes[at..at + 2].copy_from_slice(&n.to_le_bytes());
        }
        self
    }

    // The sheet without its first n bytes.
    pub fn without(mut self, n: usize) -> Sheet {
        self.from = n;
        self
    }
}

// The actions and rules of document 01's sheet D, behind what stands in front of them.
fn d_writes(front: Sheet) -> Sheet {
    front
        .pair(0, 0)
        .pair(0, 0)
        .rule(1, 0, 0, 0, 1)
        .rule(2, 0, 1, 2, 0)
}

pub fn d_after(front: Sheet) -> Sheet {
    d_writes(front).pair(2, 0).counts(2, 2, 2, 0, 1, 2).back(32)
}

// Sheet D: needs at 0 and 4, rules at 8 and 18, the goal at 28, the trailer at 32.
pub fn d() -> Sheet {
    d_after(Sheet::new())
}

// D with a start clause, at 28.
pub fn d_start(pos: u16, neg: u16) -> Sheet {
    d_writes(Sheet::new())
        .pair(pos, neg)
        .pair(2, 0)
        .counts(2, 2, 2, 1, 1, 2)
        .back(36)
}

// D with two start clauses.
pub fn d_starts(pos1: u16, neg1: u16, pos2: u16, neg2: u16) -> Sheet {
    d_writes(Sheet::new())
        .pair(pos1, neg1)
        .pair(pos2, neg2)
        .pair(2, 0)
        .counts(2, 2, 2, 2, 1, 2)
        .back(40)
}

// D with a second goal clause.
pub fn d_goals(pos: u16, neg: u16) -> Sheet {
    d_writes(Sheet::new())
        .pair(2, 0)
        .pair(pos, neg)
        .counts(2, 2, 2, 0, 2, 2)
        .back(36)
}

// D where action 2 needs fact 0 to be 0, instead of its rule.
pub fn d_need() -> Sheet {
    d().put(6, 1).put(22, 0)
}

// One action with nothing needed and no rule; no clause.
pub fn plain(facts: u16) -> Sheet {
    Sheet::new().pair(0, 0).counts(facts, 1, 0, 0, 0, 0).back(4)
}

// Every count at its bound; the last row of each part differs from those before it.
pub fn longest() -> Sheet {
    Sheet::new()
        .pairs(11, 0, 0)
        .pair(0x800, 0)
        .rules(23)
        .rule(12, 0, 0, 0, 0x800)
        .pairs(15, 1, 0)
        .pair(0x800, 0)
        .pairs(15, 1, 0)
        .pair(0, 0x800)
        .counts(12, 12, 24, 16, 16, 8)
        .back(416)
}

// Action 1 sets fact 1, which is wanted; action 2 has a need and no rule.
pub fn gated(one: u16, nil: u16) -> Sheet {
    Sheet::new()
        .pair(0, 0)
        .pair(one, nil)
        .rule(1, 0, 0, 2, 0)
        .pair(2, 0)
        .counts(2, 2, 1, 0, 1, 0)
        .back(22)
}

// Document 01's clash: where fact 0 is 1, one rule sets fact 1 and the other clears it.
pub fn clash() -> Sheet {
    Sheet::new()
        .pair(0, 0)
        .rule(1, 1, 0, 2, 0)
        .rule(1, 0, 0, 0, 2)
        .counts(2, 1, 2, 0, 0, 0)
        .back(24)
}

// Three rules of one action; where fact 1 is 0, the last clashes with the first.
pub fn three() -> Sheet {
    Sheet::new()
        .pair(0, 0)
        .rule(1, 0, 0, 1, 0)
        .rule(1, 0, 0, 2, 0)
        .rule(1, 0, 2, 0, 1)
        .counts(2, 1, 3, 0, 0, 0)
        .back(34)
}

// One action sets fact 0, the other clears it.
pub fn two_actions() -> Sheet {
    Sheet::new()
        .pair(0, 0)
        .pair(0, 0)
        .rule(1, 0, 0, 1, 0)
        .rule(2, 0, 0, 0, 1)
        .counts(2, 2, 2, 0, 0, 0)
        .back(28)
}

// Document 01's swap: four rules of one action copy each of two facts to the other.
pub fn swap() -> Sheet {
    Sheet::new()
        .pair(0, 0)
        .rule(1, 1, 0, 2, 0)
        .rule(1, 0, 1, 0, 2)
        .rule(1, 2, 0, 1, 0)
        .rule(1, 0, 2, 0, 1)
        .counts(2, 1, 4, 0, 0, 0)
        .back(44)
}

// A rule sets fact 0, on which the other rule of its action depends.
pub fn chain() -> Sheet {
    Sheet::new()
        .pair(0, 0)
        .rule(1, 0, 0, 1, 0)
        .rule(1, 1, 0, 2, 0)
        .counts(2, 1, 2, 0, 0, 0)
        .back(24)
}

// Two rules of one action that write the same.
pub fn alike() -> Sheet {
    Sheet::new()
        .pair(0, 0)
        .rule(1, 0, 0, 1, 2)
        .rule(1, 0, 0, 1, 2)
        .counts(2, 1, 2, 0, 0, 0)
        .back(24)
}
