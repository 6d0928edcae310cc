// The columns of a wide port, memory after memory: where the pieces of its old rows start, their stores, and a read port's trits.
#![tactic(auto)]

ghost use Rattle.std.specs.Prelude.{◌≡◌, ◌+◌, ◌-◌, ◌*◌, ◌<◌, ◌≤◌, min, length, get_or, eqb};
ghost use Rattle.std.proofs.lemmas.List.Edits.{sets};
ghost use Rattle.lists.specs.Choice.{when◌then◌else◌};
ghost use Rattle.lists.specs.Lists.{up_from};
ghost use Rattle.rules.specs.Limits.{X, None, max_merge};
ghost use Rattle.rules.specs.Swizzle.{arrange, repeating};
ghost use Rattle.swizzle_laws.specs.Stores.{spill_fit, spill_at, spill_each};
ghost use Rattle.swizzle_columns.specs.Steps.{Good, At, next_of, Steppable, Rowed};
ghost use Rattle.swizzle_columns.specs.Rows.{source_of, row_sources, all_sources, last_of, Bases, start_of, starts_by};
ghost use Rattle.swizzle_columns.specs.Wide.{wide_of, sizes_fit, rows_fit, PortFits, grid_of, port_starts, can_store, Stores, stored_of, mask_row, port_columns, columns_of, bits_of, trits_of};
ghost use Rattle.swizzle_columns.specs.Jobs.{Narrow};

use image_geometry::Params;
use swizzle_split::Split;

// How the columns of a port stand: so many memories, rows of the port, columns of a memory, and entries of a row; the columns of a row of all
// memories; the bits of a piece's number that are chunk bits; and the steps from the last column of a memory's row to the same row of the next
// memory, and back to the first memory.
#[derive(Clone, Copy)]
pub struct Grid {
    pub mems: usize,
    pub rows: usize,
    pub unit: usize,
    pub entries: usize,
    pub columns: usize,
    pub chunks: u32,
    pub hop: usize,
    pub back: usize,
}

// A wide port's numbers: so many memories, columns of each, new rows; old rows of so many bits each; the bits of a piece's number that are chunk
// bits, and the pieces.
#[derive(Clone, Copy, Default)]
pub struct WidePort {
    pub mems: u32,
    pub unit: u32,
    pub rows: u32,
    pub olds: u32,
    pub width: u32,
    pub chunks: u32,
    pub pieces: u32,
}

impl WidePort {
    // A port with this split of a layout, among so many memories.
    pub fn of(p: Params, mems: u32, s: Split) -> WidePort
        ensures { result ≡ wide_of p mems s }
    {
        WidePort {
            mems,
            unit: p.unit,
            rows: swizzle_split::rows_of(s.new),
            olds: swizzle_split::rows_of(s.old),
            width: p.width,
            chunks: s.mask,
            pieces: s.pieces,
        }
    }

    // The columns of one new row.
    pub fn columns(self) -> usize
        ensures { result ≡ self.mems * self.unit }
    {
        self.mems as usize * self.unit as usize
    }
}

// The rows of a port with the largest wide log.
const MAX_ROWS: u32 = 16;

// Whether a port's columns are within the limits, and `size` counts those of all new rows.
#[tactic(auto, unfolding(crate::specs::Wide::sizes_fit))]
pub fn sizes_fit(p: WidePort, size: usize) -> bool
    ensures { result ≡ sizes_fit p size }
{
    let columns = p.columns();
    p.rows <= MAX_ROWS
        && columns <= (rules::MAX_COLUMNS as usize)
        && size != 0
        && size == (p.rows as usize) * columns
}

// Whether a port's old rows and pieces are within the limits; each piece takes a net at least.
#[tactic(auto, unfolding(crate::specs::Wide::rows_fit))]
pub fn rows_fit(p: WidePort, len: usize) -> bool
    ensures { result ≡ rows_fit p len }
{
    len <= rules::MAX_ROW
        && p.olds <= MAX_ROWS
        && p.width <= rules::MAX_WIDTH
        && p.pieces <= rules::MAX_NETS
}

// The grid of a port, with entries to a row.
fn grid_of(p: WidePort, len: usize, size: usize) -> Grid
    requires { PortFits p len size }
    ensures { result ≡ grid_of p len }
{
    let mems = p.mems as usize;
    let rows = p.rows as usize;
    let unit = p.unit as usize;
    Grid {
        mems,
        rows,
        unit,
        entries: len,
        columns: p.columns(),
        chunks: p.chunks,
        hop: (rows - 1) * unit,
        back: (mems - 1) * (rows * unit),
    }
}

// A column on the way: its place memory after memory, its bit and its memory.
#[derive(Clone, Copy)]
struct Cursor {
    index: usize,
    bit: usize,
    mem: usize,
}

// The bit of the data that an entry names, by where its old row starts, or none.
fn source(base: u32, e: u32) -> usize
    ensures { result ≡ source_of base e }
{
    if e == rules::NO_BIT {
        return rules::NO_BIT as usize;
    }
    base as usize + e as usize
}

// The net or trit of a bit: `none` where there is none, and `past` where the data ends before it.
fn bit_of<T: Copy>(v: &[T], n: usize, none: T, past: T) -> T
    ensures { result ≡ (when eqb n None then none else get_or v.now n past) }
{
    if n == (rules::NO_BIT as usize) {
        return none;
    }
    v.get(n).copied().unwrap_or(past)
}

// Stores the data of an old row, or the trits of one kind, entry after entry.
fn arrange_row<T: Copy>(out: &mut [T], at: usize, base: u32, entries: &[u32], v: &[T], blank: T)
    requires { at + length entries.now ≤ length out.old }
    ensures { out.new ≡ sets out.old at (arrange blank (row_sources base entries.now) v.now) }
{
    for (i, entry) in entries.iter().enumerate() {
        out[at + i] = bit_of(v, source(base, *entry), blank, blank);
    }
}

// Stores the mask of an old row, where a none repeats what is before it, and returns its last net.
fn repeat_row(out: &mut [u32], at: usize, base: u32, entries: &[u32], v: &[u32], before: u32) -> u32
    requires { at + length entries.now ≤ length out.old }
    ensures value { result ≡ last_of before (row_sources base entries.now) v.now }
    ensures out_after { out.new ≡ sets out.old at (repeating before (row_sources base entries.now) v.now) }
{
    let mut last = before;
    for (i, entry) in entries.iter().enumerate() {
        last = bit_of(v, source(base, *entry), last, rules::NET_X);
        out[at + i] = last;
    }
    last
}

// Stores the data of all old rows.
fn arrange_rows<T: Copy>(out: &mut [T], olds: u32, width: u32, entries: &[u32], v: &[T], blank: T)
    requires { Bases olds width (length entries.now) (length out.old) }
    ensures { out.new ≡ sets out.old 0 (arrange blank (all_sources olds width entries.now) v.now) }
{
    // By number: rows of no entries have no chunks.
    for j in 0..olds {
        arrange_row(
            out,
            j as usize * entries.len(),
            j * width,
            entries,
            v,
            blank,
        );
    }
}

// Stores the mask of all old rows; only the very first none is X.
fn repeat_rows(out: &mut [u32], olds: u32, width: u32, entries: &[u32], v: &[u32])
    requires { Bases olds width (length entries.now) (length out.old) }
    ensures { out.new ≡ sets out.old 0 (repeating X (all_sources olds width entries.now) v.now) }
{
    let mut last = rules::NET_X;
    // By number: rows of no entries have no chunks.
    for j in 0..olds {
        last = repeat_row(out, j as usize * entries.len(), j * width, entries, v, last);
    }
}

impl Grid {
    // Where the piece of a number starts among the columns, by the bits of the number that are chunk bits.
    fn start_of(self, n: u32) -> usize
        requires { n * (self.columns + self.entries) ≤ 4611686018427387904 }
        ensures { result ≡ start_of self.chunks self.columns self.entries n }
    {
        let spot = image_geometry::walk_row(self.chunks, rules::ADDR_BITS, n);
        (spot.row as usize) * self.columns + (spot.chunk as usize) * self.entries
    }

    // Where piece x starts for each old row.
    fn piece_starts(self, starts: &mut [usize], x: usize)
        requires { Narrow (length starts.old) self.columns self.entries x }
        ensures { starts.new ≡ starts_by self.chunks self.columns self.entries (length starts.old) x }
    {
        let first = starts.len() * x;
        for (j, start) in starts.iter_mut().enumerate() {
            *start = self.start_of((j + first) as u32);
        }
    }

    // The column of an index. That the grid is that of the lent array is asked for here and below: a struct of both is no plainer, since each promise
    // would also say that the slice stays the lent one.
    fn cursor_at(self, size: usize, at: usize) -> Cursor
        requires { Good self size × (at < size) }
        ensures { At self at result }
    {
        let block = at / self.unit;
        let bit = at % self.unit;
        let mem = block % self.mems;
        let row = block / self.mems;
        Cursor {
            index: (mem * self.rows + row) * self.unit + bit,
            bit,
            mem,
        }
    }

    // The next column.
    fn next(self, c: Cursor) -> Cursor
        requires { Steppable c self }
        ensures { result ≡ next_of self c }
    {
        let bit = c.bit + 1;
        if bit < self.unit {
            return Cursor {
                index: c.index + 1,
                bit,
                mem: c.mem,
            };
        }
        let mem = c.mem + 1;
        if mem < self.mems {
            return Cursor {
                index: c.index + 1 + self.hop,
                bit: 0,
                mem,
            };
        }
        Cursor {
            index: c.index + 1 - self.back,
            bit: 0,
            mem: 0,
        }
    }

    // Stores a run of nets from a column on.
    fn store_from<T: Copy>(self, to: &mut [T], start: usize, n: usize, v: &[T])
        requires good { Good self (length to.old) }
        requires n_nonzero { (0 < n) × (n ≡ min (length v.now) (length to.old - start)) }
        ensures { to.new ≡ spill_fit self.mems self.rows self.unit to.old start v.now }
    {
        let mut c = self.cursor_at(to.len(), start);
        for bit in &v[..n] {
            lists::put(to, c.index, *bit);
            c = self.next(c);
        }
    }

    // The same where there may be none.
    fn store_run<T: Copy>(self, to: &mut [T], start: usize, v: &[T])
        requires { Good self (length to.old) }
        ensures { to.new ≡ spill_fit self.mems self.rows self.unit to.old start v.now }
    {
        let n = v.len().min(to.len().saturating_sub(start));
        if n == 0 {
            return;
        }
        self.store_from(to, start, n, v);
    }

    // Stores a piece: so many entries from each start on.
    fn store_piece<T: Copy>(self, to: &mut [T], starts: &[usize], v: &[T])
        requires good { Good self (length to.old) }
        requires rowed { Rowed self starts.now v.now }
        ensures { to.new ≡ spill_at self.mems self.rows self.unit self.entries starts.now v.now to.old }
    {
        // By number: rows of no entries have no chunks.
        for (j, start) in starts.iter().enumerate() {
            self.store_run(to, *start, lists::part(v, j * self.entries, self.entries));
        }
    }

    // Stores piece x; its starts stand in lent scratch.
    fn store_at<T: Copy>(self, to: &mut [T], starts: &mut [usize], v: &[T], x: usize)
        requires good { Good self (length to.old) }
        requires v_len { (length v.now ≡ length starts.old * self.entries) × Narrow (length starts.old) self.columns self.entries x }
        ensures { to.new ≡ spill_at self.mems self.rows self.unit self.entries (starts_by self.chunks self.columns self.entries (length starts.old) x) v.now to.old }
    {
        self.piece_starts(starts, x);
        self.store_piece(to, starts, v);
    }

    // A row stored as each piece.
    fn store_pieces<T: Copy>(self, to: &mut [T], pieces: usize, starts: &mut [usize], v: &[T])
        requires good { Good self (length to.old) }
        requires v_len { (length v.now ≡ length starts.old * self.entries) × Narrow (length starts.old) self.columns self.entries pieces }
        ensures { to.new ≡ spill_each self.mems self.rows self.unit self.entries (starts_by self.chunks self.columns self.entries (length starts.old)) (up_from 0 pieces) v.now to.old }
    {
        for x in 0..pieces {
            self.store_at(to, starts, v, x);
        }
    }
}

// Stores piece x of a port within the limits.
fn store_in(to: &mut [u32], p: WidePort, len: usize, v: &[u32], x: usize)
    requires { Stores p len (length to.old) (length v.now) x }
    ensures { to.new ≡ spill_at p.mems p.rows p.unit len (port_starts p len x) v.now to.old }
{
    let size = to.len();
    let g = grid_of(p, len, size);
    let mut starts = [0usize; MAX_ROWS as usize];
    g.store_at(to, &mut starts[..p.olds as usize], v, x);
}

// Whether a port is within the limits, its room as large as its columns, a row as long as its old rows, and x one of its pieces.
#[tactic(auto, unfolding(crate::specs::Wide::can_store))]
fn can_store(p: WidePort, len: usize, size: usize, n: usize, x: usize) -> bool
    ensures { result ≡ can_store p len size n x }
{
    let rows = rows_fit(p, len);
    sizes_fit(p, size) && rows && n == (p.olds as usize) * len && x < (p.pieces as usize)
}

// Stores piece x of a port with so many entries to a row, in the order of the memories. Nothing is done where the port passes the limits, or the
// room or the row is not as long as it should be.
pub fn store_nets(to: &mut [u32], p: WidePort, len: usize, v: &[u32], x: usize)
    ensures { to.new ≡ stored_of p len x v.now to.old }
{
    if can_store(p, len, to.len(), v.len(), x) {
        store_in(to, p, len, v, x);
    }
}

// The mask of all old rows of a port, entry after entry. Nothing is done where the port passes the limits.
pub fn mask_row(out: &mut [u32; rules::MAX_MERGE], p: WidePort, entries: &[u32], v: &[u32])
    ensures { out.new ≡ mask_row p entries.now v.now out.old }
{
    if rows_fit(p, entries.len()) {
        repeat_rows(out, p.olds, p.width, entries, v);
    }
}

// The columns of a port within the limits, for its data or its trits of one kind, in the order of the memories: their row in lent scratch, blank
// columns, then each piece.
fn columns_in<T: Copy>(to: &mut [T], row: &mut [T], p: WidePort, entries: &[u32], v: &[T], blank: T)
    requires fits { PortFits p (length entries.now) (length to.old) }
    requires scratch { length row.old ≡ max_merge }
    ensures { to.new ≡ port_columns blank p entries.now v.now (length to.old) }
{
    let size = to.len();
    let g = grid_of(p, entries.len(), size);
    let olds = p.olds as usize;
    let n = olds * g.entries;
    let mut starts = [0usize; MAX_ROWS as usize];
    arrange_rows(row, p.olds, p.width, entries, v, blank);
    lists::fill(to, 0, size, blank);
    g.store_pieces(to, p.pieces as usize, &mut starts[..olds], &row[..n]);
}

// The same of any port. The row is lent: an array of a T is not known to fit a memory.
#[tactic(auto, unfolding(crate::specs::Wide::columns_of))]
fn columns<T: Copy>(to: &mut [T], row: &mut [T], p: WidePort, entries: &[u32], v: &[T], blank: T)
    requires { length row.old ≡ max_merge }
    ensures { to.new ≡ columns_of blank p entries.now v.now to.old }
{
    if sizes_fit(p, to.len()) && rows_fit(p, entries.len()) {
        columns_in(to, row, p, entries, v, blank);
    }
}

// A write port's data in the order of the memories. Nothing is done where the port passes the limits or the room is not as
// large as its columns.
pub fn data_columns(to: &mut [u32], p: WidePort, entries: &[u32], v: &[u32])
    ensures { to.new ≡ bits_of p entries.now v.now to.old }
{
    let mut row = [rules::NET_X; rules::MAX_MERGE];
    columns(to, &mut row, p, entries, v, rules::NET_X);
}

// A clocked read port's trits of one kind in the order of the memories. Nothing is done where the port passes the limits or the room is not as
// large as its columns.
pub fn trit_columns(to: &mut [u8], p: WidePort, entries: &[u32], v: &[u8])
    ensures { to.new ≡ trits_of p entries.now v.now to.old }
{
    let mut row = [rules::TRIT_X; rules::MAX_MERGE];
    columns(to, &mut row, p, entries, v, rules::TRIT_X);
}
