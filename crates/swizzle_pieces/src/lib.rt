// The pieces of a read port, loaded from the nets of its columns, which run from a first one on.
#![tactic(auto)]

ghost use Rattle.std.specs.Prelude.{◌≡◌, ◌+◌, ◌*◌, ◌<◌, ◌≤◌, min, ◌&&◌, length};
ghost use Rattle.lists.specs.Lists.{up_from};
ghost use Rattle.rules.specs.Limits.{X};
ghost use Rattle.swizzle_laws.specs.Loads.{placed};
ghost use Rattle.swizzle_pieces.specs.Steps.{start_of, size_of, guarded, guard_rows, load_one, load_each, held, load_of, RowsFit, PiecesFit};

// The first net of the columns, the width of a row, the columns of a new row, the bits of a piece number that are chunk bits, the old rows of
// the port, and the pieces.
#[derive(Clone, Copy)]
pub struct Pieces {
    pub first: u32,
    pub width: u32,
    pub columns: u32,
    pub mask: u32,
    pub rows: u32,
    pub count: u32,
}

// Stores one net at the place that its entry names. An entry of None stores nothing. Scratch, place and entries go apart here and below: the place is
// another one in each call, and a struct of the rest would hold what the caller lends once.
fn place_net(scratch: &mut [u32], at: usize, entry: u32, net: u32)
    requires { at ≤ 4294967296 }
    ensures { scratch.new ≡ placed at entry net scratch.old }
{
    if entry != rules::NO_BIT {
        lists::put(scratch, at + entry as usize, net);
    }
}

// The nets from `first` on, each to the place that its entry names; nothing where one would pass X.
fn load_row(scratch: &mut [u32], at: usize, entries: &[u32], first: u32)
    requires { at ≤ 4294967296 }
    ensures { scratch.new ≡ guarded at entries.now first scratch.old }
{
    if ((rules::NET_X - first) as usize) < entries.len() {
        return;
    }
    for (i, entry) in entries.iter().enumerate() {
        place_net(scratch, at, *entry, first + i as u32);
    }
}

impl Pieces {
    // The first net of a row, or X where it would pass X.
    fn row_first(self, len: usize, x: u32, j: u32) -> u32
        requires { (self.rows * x + self.rows ≤ 4294967296) × (j < self.rows) × (len ≤ X) }
        ensures { result ≡ min X (self.first + start_of self len x j) }
    {
        let spot = image_geometry::walk_row(self.mask, rules::ADDR_BITS, j + self.rows * x);
        let most = rules::NET_X as usize;
        let above = spot.row as usize * self.columns as usize;
        let before = spot.chunk as usize * len;
        if most <= above || most <= before {
            return rules::NET_X;
        }
        (self.first as usize + (above + before)).min(most) as u32
    }

    // The rows of piece x, from `at` on.
    fn load_rows(self, scratch: &mut [u32], at: usize, entries: &[u32], x: u32)
        requires { RowsFit self (length entries.now) x at }
        ensures { scratch.new ≡ guard_rows (start_of self (length entries.now) x) at self.width entries.now self.first (up_from 0 self.rows) scratch.old }
    {
        for j in 0..self.rows {
            let to = at + j as usize * self.width as usize;
            load_row(scratch, to, entries, self.row_first(entries.len(), x, j));
        }
    }

    // The nets of a piece.
    pub fn size(self) -> usize
        ensures { result ≡ size_of self }
    {
        self.rows as usize * self.width as usize
    }

    // Piece x, from `at` on: X where no entry names a bit.
    fn load_piece(self, scratch: &mut [u32], at: usize, entries: &[u32], x: u32)
        requires { RowsFit self (length entries.now) x at }
        ensures { scratch.new ≡ load_one self entries.now x at scratch.old }
    {
        lists::fill(scratch, at, self.size(), rules::NET_X);
        self.load_rows(scratch, at, entries, x);
    }

    // Every piece, one after the other, from the scratch's front on.
    fn load_pieces(self, scratch: &mut [u32], entries: &[u32])
        requires { PiecesFit self (length entries.now) }
        ensures { scratch.new ≡ load_each self entries.now (up_from 0 self.count) 0 scratch.old }
    {
        let size = self.size();
        for x in 0..self.count {
            self.load_piece(scratch, x as usize * size, entries, x);
        }
    }

    // Whether the numbers of the pieces and of their rows are 32-bit numbers, and a scratch of this length holds them.
    #[tactic(auto, unfolding(crate::specs::Steps::held))]
    fn is_held(self, len: usize, room: usize) -> bool
        ensures { result ≡ held self len room }
    {
        let most = rules::NET_X as usize;
        let size = self.size();
        len <= most
            && self.rows as usize * self.count as usize <= most + 1
            && size <= most
            && self.count as usize * size <= room.min(most + 1)
    }

    // Every piece, from the scratch's front on, where it holds them; else nothing.
    pub fn load(self, scratch: &mut [u32], entries: &[u32])
        ensures { scratch.new ≡ load_of self entries.now scratch.old }
    {
        if self.is_held(entries.len(), scratch.len()) {
            self.load_pieces(scratch, entries);
        }
    }
}
