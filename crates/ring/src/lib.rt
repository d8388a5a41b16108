// The ring of a file's blocks: where its records begin and where the next one goes. A Ring is numbers alone; its methods hand back the next one.
#![tactic(auto)]

pub mod layout;

ghost use Rattle.std.specs.Prelude.{◌≡◌, ◌*◌, ◌≤◌, ◌<◌};
ghost use Rattle.ring.specs.Ring as spec;

#[derive(Clone, Copy)]
pub struct Ring {
    // records to a block, and the number of blocks
    pub factor: u16,
    pub blocks: u16,
    // the oldest block still holding a record, or the one to go on at; its spent records; the records held
    pub block: u16,
    pub spent: u16,
    pub held: u16,
}

// Where a record stands: its block, and how many records stand before it there.
#[derive(Clone, Copy)]
pub struct Place {
    pub block: u16,
    pub index: u16,
}

// k modulo the number of blocks, for k < 2·blocks.
#[tactic(auto, unfolding(crate::specs::Ring::wrapped))]
pub fn wrapped(blocks: u16, k: u16) -> u16
    ensures { result ≡ spec.wrapped blocks k }
{
    if k < blocks { k } else { k - blocks }
}

impl Ring {
    // The records put since the start of the oldest block.
    pub fn used(self) -> u16
        requires { spec.Ranged self }
        ensures { result ≡ spec.used self }
    {
        self.spent + self.held
    }

    // The place with `before` records before it since the start of the oldest block.
    #[tactic(auto, using(crate::proofs::Laws::place_inside), unfolding(crate::specs::Ring::place))]
    pub fn place(self, before: u16) -> Place
        requires ranged { spec.Ranged self }
        requires before_bound { before ≤ self.factor * self.blocks }
        ensures value { result ≡ spec.place self before }
        ensures inside { (result.block < self.blocks) × (result.index < self.factor) }
    {
        Place {
            block: wrapped(self.blocks, self.block + before / self.factor),
            index: before % self.factor,
        }
    }

    // Where the next record goes.
    #[tactic(auto, unfolding(crate::specs::Ring::tail))]
    pub fn tail(self) -> Place
        requires { spec.Ranged self }
        ensures value { result ≡ spec.tail self }
        ensures inside { (result.block < self.blocks) × (result.index < self.factor) }
    {
        self.place(self.used())
    }

    fn at(self, block: u16, spent: u16, held: u16) -> Ring
        ensures { result ≡ spec.at self block spent held }
    {
        Ring {
            block,
            spent,
            held,
            ..self
        }
    }

    // The ring after a record is put.
    pub fn put(self) -> Ring
        requires { spec.Ranged self }
        ensures { result ≡ spec.put self }
    {
        self.at(self.block, self.spent, self.held + 1)
    }

    // The ring without its oldest record. An emptied file goes on at the next block; else the oldest block is spent, or one more place of it is.
    #[tactic(auto, unfolding(crate::specs::Ring::advanced))]
    pub fn advanced(self) -> Ring
        requires { spec.Ranged self }
        ensures { result ≡ spec.advanced self }
    {
        let next = wrapped(self.blocks, self.block + 1);
        if self.held <= 1 {
            return self.at(next, 0, 0);
        }
        let spent = self.spent + 1;
        let held = self.held - 1;
        if spent == self.factor {
            return self.at(next, 0, held);
        }
        self.at(self.block, spent, held)
    }

    // The ring without any record: the file goes on at the block after the last record's.
    #[tactic(auto, unfolding(crate::specs::Ring::purged))]
    pub fn purged(self) -> Ring
        requires { spec.Ranged self }
        ensures { result ≡ spec.purged self }
    {
        let tail = self.tail();
        if tail.index == 0 {
            return self.at(tail.block, 0, 0);
        }
        self.at(wrapped(self.blocks, tail.block + 1), 0, 0)
    }
}
