//! Lines on a disk.
ghost use Rattle.std.specs.Prelude.{◌≡◌, ◌+◌, ◌<◌, ◌≤◌, ◌^◌, ℕ, List, drop, length, max, replicate, IfOk, IfErr, IsTrue};
ghost use Rattle.sno_store.specs.declared.faults.StoreFault.TheVariants.{Memory};
ghost use Rattle.sno_store.specs.States.{is_open, is_found, is_ready};
ghost use Rattle.sno_store.specs.Lines.{recovered, bytes_of};

use crate::content::content_of;
use crate::disk_calls::{MAX_BYTES, read_all, read_part, write_through};
use crate::{Lines, StoreFault};
use sqlite_disk::Disk;
use std::alloc::Global;

/// By how much a file grows at least, in bytes.
const PIECE: usize = 1 << 20;

#[derive(Clone, Copy)]
enum State {
    /// Not loaded, or what was written last is unknown.
    Closed,
    /// Loaded. What comes after the lines is any bytes that hold no line.
    Found,
    /// What comes after the lines is zeros, at least one.
    Ready,
}

/// Lines in a file.
///
/// A new store is closed. [`Store::load`] opens it, and a call of the disk that fails closes it: what was written last is unknown
/// then. Each call of a closed store but `load` returns `StoreFault::Closed` and changes nothing.
///
/// What the clauses say of contents holds if the disk is clean: if no wrong result of it was taken as true.
#[derive(Drop)]
pub struct Store<D: Disk> {
    disk: D,
    /// Where the lines end.
    end: usize,
    /// How many bytes come after them.
    room: usize,
    state: State,
    ghost usable: { IsTrue (is_open state) → IsTrue (D.Disk.is_usable disk) },
    ghost short: { IsTrue (is_open state) → end + max room 1 ≤ 2 ^ 62 },
    ghost some: { IsTrue (is_ready state) → 0 < room },
    ghost lines: { IsTrue (is_open state) → IsTrue (D.Disk.is_clean disk) → end ≡ length (bytes_of (recovered (D.Disk.seen disk))) },
    ghost all: { IsTrue (is_open state) → IsTrue (D.Disk.is_clean disk) → end + room ≡ length (D.Disk.seen disk) },
    ghost durable: { IsTrue (is_open state) → IsTrue (D.Disk.is_clean disk) → (c : List ℕ) → D.Disk.may_leave disk c → c ≡ D.Disk.seen disk },
    ghost zeros: { IsTrue (is_ready state) → IsTrue (D.Disk.is_clean disk) → drop end (D.Disk.seen disk) ≡ replicate room 0 },
    ghost torn: { IsTrue (is_found state) → IsTrue (D.Disk.is_clean disk) → 0 < room → drop end (D.Disk.seen disk) ≡ replicate room 0 → ⊥ },
}

impl<D: Disk> Store<D> {
    ghost use Rattle.std.specs.Prelude.{◌≡◌, ◌<◌, ◌++◌, ℕ, List, true, false, length, is_ok, IsTrue, ◌↔◌, OnOk, OnErr, IfOk, IfErr, Err};
    ghost use Rattle.sno_store.specs.declared.faults.StoreFault.TheVariants.{Closed};
    ghost use Rattle.sno_store.specs.Lines.{recovered, bytes_of, IsWhole};
    ghost use Rattle.sno_store.specs.Shown.{lines_in};
    ghost use Rattle.sno_store.specs.Faults.{IsSteady, IsWriteFault, IsLoadFault, IsPutFault, IsTailFault};
    ghost use Rattle.sno_store.specs.Store.{disk_of, takes_lines, is_settled, is_clean, file_of, lines_of, leaves_open, Leaves, LeavesLines, IsOnDisk, HasFirst};

    /// A store on this disk. It is closed until it is loaded.
    pub fn new(disk: D) -> Store<D>
        ensures disk { disk_of result ≡ disk }
        ensures closed { takes_lines result ≡ false }
    {
        Store {
            disk,
            end: 0,
            room: 0,
            state: State::Closed,
        }
    }

    /// The disk, as it is.
    pub fn into_disk(self) -> D
        ensures { result ≡ disk_of self }
    {
        let Store {
            disk,
            end: _,
            room: _,
            state: _,
        } = self;
        disk
    }

    /// Whether the store takes lines: it was loaded, and no call has closed it since.
    pub fn is_open(&self) -> bool
        ensures { result ≡ takes_lines self.now }
    {
        !matches!(self.state, State::Closed)
    }

    /// Whether something other than zeros comes after the lines, as after a crash that cut a batch. False of a closed store.
    ///
    /// A file that isn't a store has no lines, and is torn: [`Store::load`] doesn't change it, and the first write does.
    pub fn is_torn(&self) -> bool
        ensures closed { takes_lines self.now ≡ false → result ≡ false }
        ensures torn { IsTrue (takes_lines self.now) → IsTrue (is_clean self.now) → (IsTrue result ↔ (IsWhole (file_of self.now) → ⊥)) }
    {
        match self.state {
            State::Found => self.room > 0,
            State::Closed => false,
            State::Ready => false,
        }
    }

    /// Reads the whole file into memory and opens the store. Returns the lines of the file. Nothing is written.
    ///
    /// The file is waited for first: what is returned is on the disk. A crash leaves nothing that it couldn't leave before.
    /// At each refusal the store is closed, and the file is as it was. The refusals, in their order:
    ///
    /// - `Closed`: a sync of this disk has failed before, so it can't be used.
    /// - `Unsupported`: a torn write on this disk may leave bytes that are neither old nor new.
    /// - `Sync` or `NoRoom`: the disk could not be waited for.
    /// - `Read`: its length could not be read.
    /// - `TooLong`: the file has 2^62 bytes or more.
    /// - `Memory`: there is no memory for the file.
    /// - `Read`: the file could not be read.
    pub fn load(&mut self, alloc: Global) -> Result<Lines, StoreFault>
        ensures lines { IfOk result (λ lines. IsTrue (is_clean self.new) → lines_in lines ≡ lines_of self.old) }
        ensures same { file_of self.new ≡ file_of self.old }
        ensures durable { OnOk result (IsTrue (is_clean self.new) → IsOnDisk self.new) }
        ensures crash { (c : List ℕ) → Leaves self.new c → Leaves self.old c }
        ensures clean { IsTrue (is_clean self.new) → IsTrue (is_clean self.old) }
        ensures open { takes_lines self.new ≡ is_ok result }
        ensures steady { OnOk result (IsSteady D.Disk (disk_of self.old) (disk_of self.new)) }
        ensures cause { IfErr result (λ fault. IsLoadFault D.Disk (disk_of self.old) (disk_of self.new) fault) }
    {
        self.state = State::Closed;
        if !self.disk.may_be_used() {
            return Err(StoreFault::Closed);
        }
        if !self.disk.mixes() {
            return Err(StoreFault::Unsupported);
        }
        let bytes = read_all(alloc, &mut self.disk)?;
        let content = content_of(bytes);
        self.end = content.end;
        self.room = content.room;
        self.state = if content.has_zeros {
            State::Ready
        } else {
            State::Found
        };
        Ok(content.lines)
    }

    /// Reads what comes after the lines: zeros, or what a crash has left of a batch. Nothing is written, and the store is as it was.
    /// The refusals, in their order:
    ///
    /// - `Closed`: the store is closed.
    /// - `Memory`: there is no memory for these bytes.
    /// - `Read`: they could not be read.
    pub fn tail(&mut self, alloc: Global) -> Result<Vec<u8>, StoreFault>
        ensures tail { IfOk result (λ tail. IsTrue (is_clean self.new) → file_of self.old ≡ bytes_of (lines_of self.old) ++ tail.items) }
        ensures same { file_of self.new ≡ file_of self.old }
        ensures durable { IsTrue (takes_lines self.new) → IsTrue (is_clean self.new) → IsOnDisk self.new }
        ensures crash { (c : List ℕ) → Leaves self.new c → Leaves self.old c }
        ensures clean { IsTrue (is_clean self.new) → IsTrue (is_clean self.old) }
        ensures open { takes_lines self.new ≡ takes_lines self.old }
        ensures settled { is_settled self.new ≡ is_settled self.old }
        ensures closed { takes_lines self.old ≡ false → (result ≡ Err Closed) × (self.new ≡ self.old) }
        ensures steady { OnOk result (IsSteady D.Disk (disk_of self.old) (disk_of self.new)) }
        ensures cause { IfErr result (λ fault. IsTailFault D.Disk (takes_lines self.old) (disk_of self.old) (disk_of self.new) fault) }
    {
        if !self.is_open() {
            return Err(StoreFault::Closed);
        }
        let tail = read_part(alloc, &mut self.disk, self.end, self.room)?;
        Ok(tail)
    }

    /// Makes sure that zeros come after the lines, at least one, and nothing else. They are on the disk then.
    ///
    /// A torn tail is overwritten. It isn't cut off: what is past a cut could come back as anything. Whatever becomes of the call, the
    /// file has the same lines, also after a crash. [`Store::put`] begins with this call. The refusals, in their order:
    ///
    /// - `Closed`: the store is closed.
    /// - `Memory`: there is no memory for as many zeros as the tail has bytes. Nothing is changed.
    /// - `Unsupported`, `Write`, `NoRoom`, `Sync`: the disk failed, and the store is closed.
    pub fn repair(&mut self, alloc: Global) -> Result<(), StoreFault>
        ensures settled { OnOk result (is_settled self.new ≡ true) }
        ensures same { OnOk result (IsTrue (is_clean self.new) → (lines_of self.new ≡ lines_of self.old) × IsOnDisk self.new) }
        ensures crash { IsTrue (takes_lines self.old) → IsTrue (is_clean self.new) → LeavesLines self.new (lines_of self.old) }
        ensures clean { IsTrue (is_clean self.new) → IsTrue (is_clean self.old) }
        ensures steady { OnOk result (IsSteady D.Disk (disk_of self.old) (disk_of self.new)) }
        ensures open { IfErr result (λ fault. IsTrue (leaves_open fault) → self.new ≡ self.old) }
        ensures shut { IfErr result (λ fault. leaves_open fault ≡ false → takes_lines self.new ≡ false) }
        ensures closed { takes_lines self.old ≡ false → (result ≡ Err Closed) × (self.new ≡ self.old) }
        ensures cause { IfErr result (λ fault. IsPutFault D.Disk (takes_lines self.old) 0 (disk_of self.old) (disk_of self.new) fault) }
    {
        match self.state {
            State::Closed => Err(StoreFault::Closed),
            State::Found => self.overwrite_tail(alloc),
            State::Ready => Ok(()),
        }
    }

    /// Adds lines after those that are there, and waits until they are on the disk: at `Ok` each crash leaves all of them.
    ///
    /// A crash before that leaves the lines that were there and the first of the new ones, perhaps none or all. If there is no room,
    /// zeros are written past the end first, a MiB of them or as many as the lines have bytes. For no lines nothing is written, unless
    /// [`Store::repair`] has to. The refusals, in their order:
    ///
    /// - `Closed`: the store is closed.
    /// - `TooLong`: with more zeros the file would have more than 2^62 bytes.
    /// - `Memory`: there is no memory for zeros.
    /// - `Unsupported`, `Write`, `NoRoom`, `Sync`: the disk failed, and the store is closed.
    ///
    /// After `TooLong` and `Memory` the store is open, and has the lines that were there.
    pub fn put(&mut self, lines: &Lines) -> Result<(), StoreFault>
        ensures acknowledged { OnOk result (IsTrue (is_clean self.new) → (lines_of self.new ≡ lines_of self.old ++ lines_in lines.now) × IsOnDisk self.new) }
        ensures crash { IsTrue (takes_lines self.old) → IsTrue (is_clean self.new) → (c : List ℕ) → Leaves self.new c → HasFirst (lines_of self.old) (lines_in lines.now) c }
        ensures clean { IsTrue (is_clean self.new) → IsTrue (is_clean self.old) }
        ensures open { OnOk result (is_settled self.new ≡ true) }
        ensures steady { OnOk result (IsSteady D.Disk (disk_of self.old) (disk_of self.new)) }
        ensures kept { IfErr result (λ fault. IsTrue (leaves_open fault) → (takes_lines self.new ≡ true) × (IsTrue (is_clean self.new) → lines_of self.new ≡ lines_of self.old)) }
        ensures shut { IfErr result (λ fault. leaves_open fault ≡ false → takes_lines self.new ≡ false) }
        ensures closed { takes_lines self.old ≡ false → (result ≡ Err Closed) × (self.new ≡ self.old) }
        ensures cause { IfErr result (λ fault. IsPutFault D.Disk (takes_lines self.old) (length (bytes_of (lines_in lines.now))) (disk_of self.old) (disk_of self.new) fault) }
    {
        let alloc = lines.allocator();
        self.repair(alloc)?;
        let bytes = lines.bytes();
        if bytes.is_empty() {
            return Ok(());
        }
        self.make_room(alloc, bytes.len())?;
        self.append(bytes)
    }

    /// Writes zeros over what comes after the lines, or one past the end.
    fn overwrite_tail(&mut self, alloc: Global) -> Result<(), StoreFault>
        requires { IsTrue (takes_lines self.old) }
        ensures settled { OnOk result (is_settled self.new ≡ true) }
        ensures same { OnOk result (IsTrue (is_clean self.new) → lines_of self.new ≡ lines_of self.old) }
        ensures crash { IsTrue (is_clean self.new) → LeavesLines self.new (lines_of self.old) }
        ensures clean { IsTrue (is_clean self.new) → IsTrue (is_clean self.old) }
        ensures steady { OnOk result (IsSteady D.Disk (disk_of self.old) (disk_of self.new)) }
        ensures open { IfErr result (λ fault. IsTrue (leaves_open fault) → self.new ≡ self.old) }
        ensures shut { IfErr result (λ fault. leaves_open fault ≡ false → takes_lines self.new ≡ false) }
        ensures cause { IfErr result (λ fault. IsPutFault D.Disk (takes_lines self.old) 0 (disk_of self.old) (disk_of self.new) fault) }
    {
        let zeros = zeros(alloc, self.room.max(1))?;
        self.state = State::Closed;
        write_through(&mut self.disk, self.end, &zeros)?;
        self.room = zeros.len();
        self.state = State::Ready;
        Ok(())
    }

    /// Writes zeros past the end until there is room for `count` bytes and a zero.
    fn make_room(&mut self, alloc: Global, count: usize) -> Result<(), StoreFault>
        requires { IsTrue (is_settled self.old) }
        ensures settled { OnOk result (is_settled self.new ≡ true) }
        ensures room { OnOk result (count < self.new.room) }
        ensures same { OnOk result (IsTrue (is_clean self.new) → lines_of self.new ≡ lines_of self.old) }
        ensures crash { IsTrue (is_clean self.new) → LeavesLines self.new (lines_of self.old) }
        ensures clean { IsTrue (is_clean self.new) → IsTrue (is_clean self.old) }
        ensures steady { OnOk result (IsSteady D.Disk (disk_of self.old) (disk_of self.new)) }
        ensures open { IfErr result (λ fault. IsTrue (leaves_open fault) → self.new ≡ self.old) }
        ensures shut { IfErr result (λ fault. leaves_open fault ≡ false → takes_lines self.new ≡ false) }
        ensures cause { IfErr result (λ fault. IsPutFault D.Disk (takes_lines self.old) count (disk_of self.old) (disk_of self.new) fault) }
    {
        if count < self.room {
            return Ok(());
        }
        let len = self.end + self.room;
        let more = count.max(PIECE);
        if more > MAX_BYTES - len {
            return Err(StoreFault::TooLong);
        }
        let zeros = zeros(alloc, more)?;
        self.state = State::Closed;
        write_through(&mut self.disk, len, &zeros)?;
        self.room += more;
        self.state = State::Ready;
        Ok(())
    }

    /// Writes the bytes of lines over the zeros after the last line.
    fn append(&mut self, bytes: &[u8]) -> Result<(), StoreFault>
        requires settled { IsTrue (is_settled self.old) }
        requires whole { bytes.now ≡ bytes_of (recovered bytes.now) }
        requires some { 0 < length bytes.now }
        requires room { length bytes.now < self.old.room }
        ensures settled { OnOk result (is_settled self.new ≡ true) }
        ensures added { OnOk result (IsTrue (is_clean self.new) → lines_of self.new ≡ lines_of self.old ++ recovered bytes.now) }
        ensures crash { IsTrue (is_clean self.new) → (c : List ℕ) → Leaves self.new c → HasFirst (lines_of self.old) (recovered bytes.now) c }
        ensures clean { IsTrue (is_clean self.new) → IsTrue (is_clean self.old) }
        ensures steady { OnOk result (IsSteady D.Disk (disk_of self.old) (disk_of self.new)) }
        ensures shut { OnErr result (takes_lines self.new ≡ false) }
        ensures cause { IfErr result (λ fault. IsWriteFault D.Disk (disk_of self.old) (disk_of self.new) fault) }
    {
        self.state = State::Closed;
        write_through(&mut self.disk, self.end, bytes)?;
        self.end += bytes.len();
        self.room -= bytes.len();
        self.state = State::Ready;
        Ok(())
    }
}

/// This many zeros.
fn zeros(alloc: Global, count: usize) -> Result<Vec<u8>, StoreFault>
    ensures zeros { IfOk result (λ zeros. zeros.items ≡ replicate count 0) }
    ensures memory { IfErr result (λ fault. fault ≡ Memory) }
{
    match vec![in alloc; 0; count] {
        Ok(zeros) => Ok(zeros),
        Err(_) => Err(StoreFault::Memory),
    }
}
